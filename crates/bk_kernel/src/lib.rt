//! The kernel: it boots from an image, and runs turns and slots, each instruction on a machine.
//!
//! Model: `specs/Progress.antt` (`KernelState`, `Progress`, `begun`, `after_turn`, `after_slot`, `IsCutOff`), `specs/StandsFor.antt`
//! (`StandsFor`), `specs/Tables.antt` (`TablesState`, `AreKept`, `runs_after`, `last_after`), `specs/Instructions.antt` (`gone`,
//! `HasRun`), `specs/Stretch.antt` (`turns_from`, `IsStretch`) and `specs/Items.antt` (`items_of`, `IsInOrder`), over the
//! definitions of `bk_system`.
//! Calls: `Kernel::boot`, `turn`, `end_slot`, `slot`, `summary`, `machine`, `status`, `law_stands_for`.
//! Proved: each turn and each slot is the defined one, items and references included; a turn of a process that runs is one
//! instruction of the machine, which tells it, and between turns the machine stands for the state; a slot writes the text of its
//! items, and where a write fails the turn of that line has been made, no further one, and the slot hasn't ended; after `boot`
//! no call takes memory.
//! Tested: in `bk_suite`, that `boot` succeeds, and reports that were worked out by hand from the tables of processor, calls and report.
//! Neither: nothing.
//! Stands on: `arrayvec`, `bk_base`, `bk_calls`, `bk_core`, `bk_exec`, `bk_frames`, `bk_image`, `bk_load`,
//! `bk_machine`, `bk_object`, `bk_pages`, `bk_path`, `bk_process`, `bk_report`, `bk_space`, `bk_state`, `bk_store`, `bk_system`.
#![tactic(auto)]

mod boot;
mod kernel;
mod running;
mod tables;
mod turn;

pub use kernel::{Kernel, Summary};
