//! Configurations: levels, subjects, objects, rows, holds and programs as text, made into an image.
//!
//! Model: `specs/Limits.antt` (how much there is at most), `specs/Lines.antt` (lines and fields), `specs/Fields.antt` (what a field
//! is, and what it says), `specs/Kinds.antt` (the kinds of line, one definition each), `specs/Said.antt` (what lines have said),
//! `specs/Steps.antt` (what each line adds, and the first fault: `configuration_of`), `specs/Ordered.antt` (the image in order),
//! `specs/Built.antt` (`built`, `listing_of`, `IsWhole`), `specs/Fault.antt` (the text of each fault). `specs/Views.antt` says what
//! the code keeps, `specs/Ends.antt` how it sees from a line's front that a program ends there.
//! Calls: `build`, `list`; `BuildKind::text`.
//! Proved: the image and the listing are exactly those of the text, or the refusal is exactly its first fault; the image's bytes
//! are its spelling, and are read again as the image; it passes all checks of an image.
//! Tested: in `bk_suite`, the sample, and the first fault of configurations at both sides of each limit.
//! Neither: how much memory is taken.
//! Stands on: `arrayvec`, `bitflags`, `bk_asm`, `bk_asm_text`, `bk_base`, `bk_expr`, `bk_image`, `bk_level`, `bk_object`, `bk_path`,
//! `bk_process`, `bk_report`, `bk_space`, `bk_state`.
#![tactic(auto)]

mod adding;
mod building;
mod fault;
mod field;
mod kind;
mod line;
mod ordered;
mod program;
mod reading;
mod said;
mod text;

pub use building::{build, list};
pub use fault::{BuildFault, BuildKind, BuildStop};
