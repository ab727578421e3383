//! A run from an image and a script to its report.
//!
//! Model: `specs/Input.antt` (what holds of the bytes that were read), `specs/Played.antt` (`summary_of`, the totals of a run),
//! `specs/Gathered.antt` (`InStep`: what a sink took, and the bytes that wait before it), `specs/Replayed.antt` (what the
//! bytes of a run spell, and what each answer says) and `specs/Isolated.antt` (what isolation says of the bytes of a report),
//! over `report_of` and `keep` of `bk_system`, `image_of` of `bk_image` and `script_of` of `bk_script`.
//! Calls: `play`, `replay`. (`law_kept_script` is an empty function, for its contract.)
//! Proved: `play` writes exactly the report of the abstract run, or a front of it where the sink fails, and answers its
//! totals; `replay` does so for the image and the script that its input spells, and refuses any other input with its first
//! fault. A failed read or write is always the answer. The report that it writes is isolated: for every level, its line records
//! of lines under the level are those of the run without the bytes typed on other lines; and the script without those bytes is
//! a script with as many slots.
//! Tested: that a run succeeds, by the tests of `blpk`.
//! Neither: that the report goes out in pieces of 4,096 bytes.
//! Stands on: `bk_base`, `bk_image`, `bk_kernel`, `bk_laws`, `bk_level`, `bk_report`, `bk_script`, `bk_state`, `bk_system`.
#![tactic(auto)]

mod gathered;
mod history;
mod laws;
mod playing;
mod replaying;
mod waiting;

pub use bk_kernel::Summary;
pub use laws::law_kept_script;
pub use playing::{PlayStop, play, write_end};
pub use replaying::{RunStop, replay};
