//! The answer of each of the ten rules, decided from a record of facts.
//!
//! Model: `specs/Decisions.antt` (`fails`, `answer`, `facts_of`), over what each rule is as a kernel call in `bk_state`;
//! `specs/Example.antt` (callers whose answers were worked by hand).
//! Calls: `decide`, `refusal`, `mode_of`. (`law_answers`
//! and `law_example` are empty functions, for their contracts.)
//! Proved: `refusal` gives the first check of the rule that fails, and `decide` its answer, or yes; over the facts of a state
//! that is the rule's refusal, and its answer, in the state.
//! Tested: one answer of each kind, by a call.
//! Neither: nothing.
//! Stands on: `bitflags`, `bk_level`, `bk_object`, `bk_path`, `bk_quota`, `bk_state`.
#![tactic(auto)]

mod answers;
mod facts;
#[cfg(test)]
mod tests;

pub use answers::{Decision, decide, law_answers, law_example, mode_of, refusal};
pub use bk_state::Rule;
pub use facts::RuleFacts;
