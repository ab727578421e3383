//! The eight addressing modes: where an operand is, what its value is, and how a result is stored.
//!
//! Model: `specs/Part.antt` (`Part`, `reading`, `writing`), `specs/Operand.antt` (`located`, `fetched`, `stored`).
//! Calls: `next_word`, `locate`, `fetch`, `store`, `value_in`, `put_in`.
//! Proved: over any bus, the place, the value, the registers and the references are those of the definitions, an abort is the
//! bus's own, and the notes tell all that `locate` moved.
//! Tested: nothing alone; the modes run in the rows of `bk_case`.
//! Neither: nothing.
//! Stands on: `bk_space`.
#![tactic(auto)]

mod operand;
mod place;

pub use operand::{fetch, locate, next_word, put_in, store, value_in};
pub use place::Place;
