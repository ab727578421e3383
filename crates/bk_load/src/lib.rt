//! Loading: the state of an accepted image as a store, with its segments in a core that is lent, and what is beside them.
//!
//! Model: `specs/Kept.antt` (`state_loaded`, `IsKept`), `specs/Loading.antt` (`IsLoaded`, `HasFront`, `CanTake`,
//! `HasOneMore`, `CanHold`, `with_holds`) and `specs/Beginning.antt` (`HasBegun`).
//! Calls: `load`.
//! Proved: what is loaded, with the words of core, is the state of the image, whole; the words of the kernel's blocks stay.
//! Tested: that an image is loaded at all, by the kernel's runs.
//! Neither: nothing.
//! Stands on: `bk_base`, `bk_core`, `bk_image`, `bk_level`, `bk_object`, `bk_path`, `bk_process`, `bk_quota`, `bk_space`,
//! `bk_state`, `bk_store`, `bk_tree`.
#![tactic(auto)]

mod beginning;
mod loading;

pub use loading::{Loaded, load};
