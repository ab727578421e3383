//! Objects: their kinds, access modes, rows, and the facts that are kept of each.
//!
//! Model: `specs/Modes.antt` (`AccessMode`, `has`, `union`, `without`), `specs/Kinds.antt` (`kind_modes`, `is_directory`, `is_segment`,
//! `is_mailbox`, `is_any_line`, `kind_number`, `blocks_or_line`), `specs/Rows.antt` (`in_row`, `given`, `rescinded`), `specs/Limits.antt` (how large objects can
//! be), `specs/Pairs.antt` (a row as the field of the code).
//! Calls: `Kind::modes`, `number`, `blocks_or_line`; `RowOf::new`, `get`, `add`, `remove`, `widen`; `Modes::is_within`, and the operations of `Modes` as flags.
//! (`law_modes` is an empty function, for its contract.)
//! Proved: a row answers for each subject what was added to it and not removed since; each kind has its modes and its number.
//! Tested: that modes and rows work together through `Flags`.
//! Neither: nothing.
//! Stands on: `bitflags`.
#![tactic(auto)]

mod facts;
mod kind;
mod limits;
mod modes;
mod row;
#[cfg(test)]
mod tests;

pub use facts::{Facts, Slot};
pub use kind::Kind;
pub use limits::{BYTES_OF_BLOCK, LARGEST_QUOTA, MOST_BLOCKS, WORDS_OF_BLOCK};
pub use modes::{Modes, law_modes};
pub use row::{MOST_SUBJECTS, Row, RowOf};
