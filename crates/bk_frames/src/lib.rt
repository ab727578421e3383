//! Frames: where the segments stand in a part of core, and their words when they move.
//!
//! Model: `specs/Extents.antt` (`Standing`, `segments_of`, `sizes_of`, `free_in`, `moved_down`, `HasRoomAt`, `IsLowestRoom`, `SameOutside`, `IsApart`), `specs/Table.antt` (the extents by slot and the owners of the blocks), `specs/Segments.antt` and `specs/Ordered.antt` (the list of segments while they move), `specs/Example.antt` (two segments with a hole below each).
//! Calls: `Frames::reserve`, `place`, `free`, `compact`, `extent`, `free_blocks`; `law_example`.
//! Proved: no two segments share a block; a new segment is zero, and stands in the lowest run of free blocks that is long enough, in which case no other moves, or else behind all others; all others keep their words whatever moves, and core outside the frames stays.
//! Tested: that a segment of four blocks is placed in four holes, that one of two blocks is placed in a hole of three, and that segments move down in the order in which they stand.
//! Neither: nothing.
//! Stands on: `bk_base`, `bk_core`, `bk_object`.
#![tactic(auto)]

mod frames;
mod laws;
mod segments;
mod table;

pub use frames::Frames;
pub use laws::law_example;
