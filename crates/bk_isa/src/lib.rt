//! The instruction table: each word's instruction, each instruction's word, and each name's.
//!
//! Model: `specs/Codes.antt` (`code_of`, `IsListed`, `primary`), `specs/Decode.antt` (`decode_of`), `specs/Names.antt`
//! (`name_of`), `specs/Rows.antt` (`covers`, `is_named`, `is_alias`); for the crates above, results and flags by whole
//! numbers: `specs/Numbers.antt` (`signed`, `modulo`), `specs/Results.antt` (`binary_of`, `unary_of`),
//! `specs/Extended.antt` (`mul_of`, `div_of`, `ash_of`, `ashc_of`).
//! Calls: `decode`, `encode`, `by_name`.
//! Proved: `decode` and `encode` are inverse over all words, and the table's rows have each word once, with the name of its
//! instruction; BHIS and BLO alone are second names.
//! Tested: nothing alone; `decode` of all 65,536 words is compared with an outside model in `bk_vectors`.
//! Neither: nothing.
//! Stands on: `bk_space`.
#![tactic(auto)]

mod codes;
mod instr;
mod law;
mod mnemonic;
mod operation;
mod table;

pub use codes::{decode, encode};
pub use instr::Instr;
pub use law::{law_example_of_names, law_example_of_results, law_example_of_words};
pub use mnemonic::{Form, Mnemonic};
pub use operation::{Bin, Cond, EisOp, Un};
pub use table::{Row, TABLE, by_name, law_names, law_rows};
