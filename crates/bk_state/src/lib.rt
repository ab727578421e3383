//! The state of the system, as definitions, the kernel calls, and the image that a system starts from.
//!
//! Model: `specs/State.antt` (the state: objects, current access set, processes), `specs/Contents.antt` (what objects hold),
//! `specs/Named.antt` (who may name what), `specs/Quota.antt` (governing cells and used numbers), `specs/Allowed.antt` (the simple
//! security condition and the *-property), `specs/Secure.antt` (the secure state), `specs/Causes.antt` (why a call is refused),
//! `specs/Request.antt` (what a call asks for), `specs/KernelCall.antt` (what a call is, and when each check fails),
//! `specs/AccessCalls.antt`, `specs/RowCalls.antt`, `specs/TreeCalls.antt`, `specs/SegmentCalls.antt`, `specs/QueueCalls.antt`,
//! `specs/TellingCalls.antt`, `specs/ProcessCalls.antt`, `specs/LevelCalls.antt` (each call, one definition), `specs/Calls.antt` (the calls by their
//! numbers, and the check by which each is refused), `specs/Answers.antt` (what a call comes to), `specs/Low.antt` (what a level
//! sees of a state), `specs/Start.antt` (the state that an image stands for), `specs/Limits.antt` (how much an image has at
//! most), `specs/Smallest.antt` (a small secure state), `specs/Example.antt` (levels for examples).
//! Calls: `CallCause::number`, `is_no`, `answer`. (`law_smallest`, `law_order_of_checks`, `law_numbers`, `law_what_a_call_looks_at`,
//! and the examples `law_checks`, `law_allowed`, `law_arguments`, `law_queues` are empty functions, for their contracts.)
//! Proved: a secure state is there; the checks of each call stand in one order, and are those of its row; each call has its
//! number; what a call looks at is told; what the examples show. The crates above prove their calls against these definitions.
//! Tested: nothing.
//! Neither: nothing.
//! Stands on: `bk_base`, `bk_level`, `bk_object`, `bk_path`, `bk_process`, `bk_quota`, `bk_space`.
#![tactic(auto)]

mod call;
mod cause;
mod clearance;
mod examples;
mod image;
mod laws;
mod rule;

pub use call::{Call, Service};
pub use cause::CallCause;
pub use clearance::Clearance;
pub use examples::{law_allowed, law_arguments, law_checks, law_queues};
pub use image::{Hold, Holds, Image, ObjectRec, Objects, SubjectRec, Subjects, WindowRec, Windows};
pub use laws::{law_numbers, law_order_of_checks, law_smallest, law_what_a_call_looks_at};
pub use rule::Rule;
