//! Expressions of assembly text, of any depth: read, worked out and let go without recursion on the host's stack.
//!
//! Model: `specs/Text.antt` (`past_blanks`, `run_at`, `sign_at`), `specs/Names.antt` (`register_at`, `mnemonic_of`, `name_of`,
//! `local_of`, `number_of`), `specs/Tree.antt` (`Expression`, `plain`), `specs/Expression.antt` (`expression_at`),
//! `specs/Value.antt` (`Values`, `worked`), with `specs/Example.antt`; for the loops `specs/Waiting.antt` and
//! `specs/Working.antt` (what waits while an expression is read, and worked out) and `specs/Weight.antt` (how much of it is left to
//! let go). `proofs/Shorter.antt` has lemmas for the crates above.
//! Calls: `read_expression`, `value_of`, `Names`; `is_of_text`, `past_blanks`, `run`, `sign`, `register`, `mnemonic`, `is_name`,
//! `name`, `local_label`, `number`. (`law_grammar` and the examples are empty functions, for their contracts.)
//! Proved: an expression is read exactly where the grammar has one at the front of the text, as its tree and with the text
//! after it; what it comes to is by whole numbers modulo 65,536, undefined before divide; each run is what the definitions say.
//! Tested: in `bk_suite`, a million signs, brackets and terms.
//! Neither: how much of the host's stack is used.
//! Stands on: `bk_base`, `bk_isa`.
#![tactic(auto)]

mod law;
mod reading;
mod text;
mod tree;
mod word;
mod worked;

pub use law::{
    law_example_of_none, law_example_of_registers, law_example_of_text, law_example_of_values,
    law_grammar,
};
pub use reading::read_expression;
pub use text::{is_of_text, past_blanks, run, sign};
pub use tree::{Expr, ExprOp};
pub use word::{is_name, local_label, mnemonic, name, number, register};
pub use worked::{Names, Worked, value_of};
