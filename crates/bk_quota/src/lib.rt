//! Quota cells: what each object is charged, which cell pays for it, and how much of a cell's limit is used.
//!
//! Model: `specs/Charges.antt` (`charge_of`, `governing_in`, `used_in`), `specs/Usage.antt` (`Usage`, `charged`), `specs/Example.antt` (objects whose used numbers are counted by hand).
//! Calls: `Cell::new`, `charge`, `give_back`, `limit`, `used`; `charge_of`; `governing`, over anything that is `FactsByPath`; `law_governing`, `law_example`.
//! Proved: a cell takes a charge exactly where it fits, and changes in nothing else; each object's charge is its definition; what governs a directory is the longest of its prefixes with a cell, in any map, and is what `governing` finds; the governing cell and the used numbers of an example. That the counters of a tree are the used numbers is for the crate that keeps them.
//! Tested: that a cell and the charges work together on a few rows.
//! Neither: nothing.
//! Stands on: `bk_object`, `bk_path`.
#![tactic(auto)]

mod by_path;
mod cell;
mod charges;
mod laws;

pub use by_path::{FactsByPath, governing};
pub use cell::Cell;
pub use charges::charge_of;
pub use laws::{law_example, law_governing};
