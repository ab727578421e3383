//! The pages of a subject: the registers of a machine's pages stand for what the subject may reach through its windows.
//!
//! Model: `specs/Pages.antt` (`page_for`, `pages_for`), `specs/StandsFor.antt` (`IsLoaded`, `kept_in`) and
//! `specs/Pushing.antt` (`takes_fault`, `with_both`), over the definitions of `bk_machine`, `bk_store` and `bk_system`.
//! Calls: `set_pages`, `run`, `fault`; `law_space`.
//! Proved: the pages that `set_pages` sets show the space of the subject, by what it holds and where segments stand then; one
//! instruction of the machine leaves, writes and costs what the definition says over that space, a trap adding nothing; a fault
//! is taken at its entry, or stops the process.
//! Tested: nothing; the crates above run it.
//! Neither: nothing.
//! Stands on: `bitflags`, `bk_core`, `bk_exec`, `bk_frames`, `bk_machine`, `bk_mmu`, `bk_object`, `bk_path`, `bk_process`,
//! `bk_space`, `bk_state`, `bk_store`, `bk_system`.
#![tactic(auto)]

mod faulting;
mod law;
mod pages;
mod reflection;
mod running;
mod windows;

pub use faulting::{Faulted, fault};
pub use law::law_space;
pub use pages::set_pages;
pub use running::run;
