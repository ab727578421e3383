//! The current access set: by which modes each subject holds each object now.
//!
//! Model: `specs/Held.antt` (`Held`, `modes_at`, `holds`, `nothing_held`, `added`, `removed`, `cleared`, `IsNextPut`), `specs/Table.antt` (the rows of the code as that map).
//! Calls: `Access::reserve`, `modes`, `next_put`, `add`, `remove`, `clear_object`; `law_held`, `law_holds`.
//! Proved: each call is its change of a map from subject and slot to modes, and nothing else in it changes. That what is held is allowed is for the crates above.
//! Tested: that a set with ample memory works, through its calls one after another.
//! Neither: nothing.
//! Stands on: `bitflags`, `bk_base`, `bk_object`.
#![tactic(auto)]

mod access;
mod laws;
#[cfg(test)]
mod tests;

pub use access::Access;
pub use laws::{law_held, law_holds};
