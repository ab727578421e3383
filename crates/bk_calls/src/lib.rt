//! The kernel calls of a process, over a store, a core and the process.
//!
//! Model: `specs/Made.antt` (`seen_by`, `IsMade`: what was made of store, core and process is what the call comes to),
//! `specs/Shown.antt` (`changes_pages`, `KeepsPages`: after which calls pages may stay as they are), `specs/Decided.antt`
//! (what the checks of a rule find), `specs/Reached.antt` (what those of a service find), over `bk_state`'s definition of
//! each call.
//! Calls: `call`, `changes_pages`.
//! Proved: a call makes exactly what the definition of its number gives: the first check that fails and its answer, or the
//! change of objects, accesses, level and process, the values in the registers, and the byte sent; core below block 64 stays. Where
//! `changes_pages` is false, the extents, what is held and the caller's windows stay.
//! Tested: in `bk_suite`, worked calls, whose values the definitions give and no clause spells out, one after another on one store.
//! Neither: nothing.
//! Stands on: `bitflags`, `bk_base`, `bk_core`, `bk_frames`, `bk_level`, `bk_object`, `bk_path`, `bk_process`, `bk_queue`, `bk_quota`, `bk_rules`, `bk_space`, `bk_state`, `bk_store`, `bk_tree`.
#![tactic(auto)]

mod access_calls;
mod allowing;
mod answering;
mod asking;
mod caller;
mod calls;
mod facts;
mod level_calls;
mod new_object;
mod process_calls;
mod queue_calls;
mod reach;
mod reply;
mod row_calls;
mod segment_calls;
mod telling_calls;
mod tree_calls;

pub use caller::Caller;
pub use calls::{call, changes_pages};
pub use reply::{Answer, LineByte, Reply};
