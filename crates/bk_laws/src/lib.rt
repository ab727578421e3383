//! Laws of the abstract system: it stays secure, and what happens above a level does not show at it.
//!
//! Model: `specs/Seen.antt` (which events and items a level sees), `specs/Laws.antt` (the laws), `specs/Example.antt` (a state of
//! two levels), over `low` of `bk_state` and the events of `bk_system`.
//! Calls: none. (`law_secure`, `law_unseen`, `law_seen`, `law_runs` and `law_example` are empty functions, for their contracts.)
//! Proved: every event keeps a secure state secure; what a level does not see changes nothing of what it sees; what it sees
//! is decided by what it sees alone; so two runs with the same seen events tell the same of it.
//! Tested: nothing.
//! Neither: nothing.
//! Stands on: `bk_base`, `bk_exec`, `bk_level`, `bk_object`, `bk_path`, `bk_process`, `bk_quota`, `bk_report`, `bk_space`,
//! `bk_state`, `bk_system`.
#![tactic(auto)]

mod laws;

pub use laws::{law_example, law_runs, law_secure, law_seen, law_unseen};
