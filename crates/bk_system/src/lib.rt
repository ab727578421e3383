//! Turns, events, slots, runs and reports, as definitions, and the script that a run is typed with.
//!
//! Model: `specs/Space.antt` (what a process sees through its windows), `specs/Turn.antt` (a turn: one instruction, and the
//! kernel call or the reflected fault that it ends as), `specs/Arrivals.antt` (typed bytes), `specs/Event.antt` (what happens, one
//! event at a time), `specs/Slot.antt` (slots and runs, as lists of events), `specs/Step.antt` (what something comes to),
//! `specs/Loops.antt` (the same as loops make it), `specs/Kept.antt` (a script without the bytes typed above a level),
//! `specs/Report.antt` (the report of a run), `specs/Limits.antt` (how long a run is at most), `specs/Example.antt` (a schedule
//! for examples).
//! Calls: none. (`law_loops`, `law_events`, `law_space` are empty functions, for their contracts.)
//! Proved: slots and runs, which are folds over events, are what loops over turns and slots make; what the examples
//! show. The crates above prove their calls against these definitions.
//! Tested: nothing.
//! Neither: nothing.
//! Stands on: `bk_base`, `bk_exec`, `bk_isa`, `bk_level`, `bk_object`, `bk_operand`, `bk_path`, `bk_process`, `bk_report`, `bk_space`, `bk_state`.
#![tactic(auto)]

mod at;
mod examples;
mod laws;
mod script;

pub use at::At;
pub use examples::{law_events, law_space};
pub use laws::law_loops;
pub use script::{Script, TypedAt, TypedList};
