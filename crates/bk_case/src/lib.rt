//! Cases of the processor with their answers, and whether the project's own calls give them.
//!
//! Model: `specs/Agrees.antt` (`Agrees`, `IsGiven`), over the definitions of `bk_isa` and `bk_exec`; `specs/Machined.antt`
//! (`IsGivenByMachine`), over that of `bk_machine`.
//! Calls: `agrees`, `step_agrees`, `machine_agrees`; `Tally::new`, `count`, `is_clean`.
//! Proved: a case of a result or of a word agrees exactly where the definitions give its answer, and a tally counts each once.
//! A step agrees only where over some pages the definition gives its registers, event and number of references, and on the
//! machine only where it does so over the pages and core of some machine.
//! Tested: worked rows of `step` and of a plain bus: the points of the processor's tables that are easy to misread. That the
//! pages over which a step agrees, on a plain bus and on the machine, are those of its case, by the run of `bk_vectors`.
//! Neither: nothing.
//! Stands on: `bk_core`, `bk_cpu`, `bk_exec`, `bk_isa`, `bk_machine`, `bk_space`, `bk_word`.
#![tactic(auto)]

mod case;
mod machined;
mod step_case;
mod stepped;
mod tally;
#[cfg(test)]
mod tests;
mod unread;
mod word;

pub use case::{Case, agrees};
pub use machined::machine_agrees;
pub use step_case::{CasePage, Content, StepCase};
pub use stepped::step_agrees;
pub use tally::Tally;
pub use unread::Unread;
