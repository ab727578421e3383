//! Queues: the messages of a mailbox, and the typed bytes of a line.
//!
//! Model: `specs/Queues.antt` (`Mail`, `Typed`, `counted_on`).
//! Calls: `Mailbox::new`, `put`, `take`; `LineIn::new`, `put`, `take`.
//! Proved: what is put comes out in the same order, at most 16 messages or 64 bytes wait, and a mailbox counts each loss up to 65,535.
//! Tested: that both queues work at their limits, through their calls one after another.
//! Neither: nothing.
//! Stands on: `arrayvec`, `bk_object`.
#![tactic(auto)]

mod line_in;
mod mailbox;
#[cfg(test)]
mod tests;

pub use line_in::{LineIn, TYPED_BYTES};
pub use mailbox::{MESSAGES, Mailbox, Message};
