//! Assembly text as a program: its words, and its names with their values; and the listing of a program.
//!
//! Model: `specs/Assembled.antt` (`assembled`: the program that a text is, or its first fault), by `specs/Pieces.antt` (`pieces_of`,
//! what a statement is made of; `form_size`), `specs/Names.antt` (`Defined`, `values_in`), `specs/Places.antt` (`placed`, `after`,
//! each statement by those in front of it), `specs/Faults.antt` (`checks`, `settle`) and `specs/Codes.antt` (`piece_checks`,
//! `coded`); `specs/Law.antt` (`IsAssembly`, the same in sizes, addresses and one value for each name); `specs/Listing.antt`
//! (`listed`); with `specs/Example.antt`; for the code `specs/Written.antt` (`all_written`, pieces one behind another with what fails
//! in them) and `specs/Seen.antt`.
//! Calls: `assemble`, `listing`. (`law_assembled` and the examples are empty functions, for their contracts.)
//! Proved: a text is assembled exactly into the program that it is, or refused exactly with its first fault; in a program each
//! statement stands behind those before it and has as many bytes as its size says, each label and each assigned name has one value,
//! and the words are those of the statements by these values; a listing is exactly the program's.
//! Tested: in `bk_suite`, programs worked by hand, each kind of fault at both sides of its limit, faults of one line and of two.
//! Neither: how much memory and time is taken.
//! Stands on: `arrayvec`, `bk_asm_text`, `bk_base`, `bk_expr`, `bk_isa`, `bk_report`, `bk_space`.
#![tactic(auto)]

mod assembling;
mod code;
mod law;
mod lines;
mod piece;
mod place;
mod program;
mod putting;
mod site;
mod size;
mod table;

pub use assembling::assemble;
pub use bk_asm_text::{AsmFault, AsmKind, AsmStop};
pub use law::{law_assembled, law_example_of_pieces, law_example_of_statements};
pub use lines::listing;
pub use program::{Program, Symbol, Symbols};
