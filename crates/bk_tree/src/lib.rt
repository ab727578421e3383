//! Objects by path: where each has its place, what is kept of it, and which cell pays for it.
//!
//! Model: `specs/Objects.antt` (`Objects`, `IsAt`, `IsLeafOf`, `without`), `specs/Kept.antt` (`IsFit`, `Fits`, `cell_in`),
//! `specs/Refused.antt` (`Refuses`), `specs/Needs.antt` (`needs_in`, `blocks_in`); `specs/Places.antt` (`tree_of`) says what a
//! list of places stands for, `specs/Order.antt` how the list of paths is sorted by their numbers, `specs/Down.antt` the numbers of free slots, `specs/Whole.antt` (`IsWhole`) what the tables keep: the counters among
//! them are the used numbers of the map.
//! Calls: `Tree::reserve`, `find`, `facts`, `set_row`, `create`, `cell`, `next_leaf`, `remove_leaf`, `law_slots`, `law_kept`,
//! `law_room`.
//! Proved: a tree is a map from paths to facts, each path at a slot of its own below the number of slots; an object is created
//! exactly where its path is free and its charge fits the governing cell, and then a slot is always free; the counter of each
//! cell is its used number, from scratch over the map, after any creates and deletes; what all objects need, the blocks of
//! segments among it, fits root's quota; each call changes the one object that it names.
//! Tested: that objects are created, counted and removed, and that a tree of as many objects as root's quota is filled, emptied
//! and filled again.
//! Neither: how long a call takes; that a path is looked for where it is guessed, and the list of paths searched by halves
//! where the guess is wrong, is read in `src/guess.rt` and `src/order.rt`.
//! Stands on: `bk_base`, `bk_object`, `bk_path`, `bk_quota`.
#![tactic(auto)]

mod cells;
mod guess;
mod order;
mod place;
#[cfg(test)]
mod tests;
mod tree;

pub use place::Placed;
pub use tree::{Tree, TreeNo};
