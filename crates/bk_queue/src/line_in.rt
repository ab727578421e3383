// The typed bytes of a line that nobody has taken.

ghost use Rattle.bk_object.specs.Limits.{most_typed};
ghost use Rattle.std.specs.Prelude.{◌≡◌, ◌≤◌, ◌↔◌, List, ℕ, [], ◌∷◌, ◌++◌, length, IsFalse, IsTrue, IsNone, IfSome};

use arrayvec::ArrayVec;
use std::marker::Model;

/// How many typed bytes wait on a line at most.
pub const TYPED_BYTES: usize = 64;

/// At most 64 typed bytes. A clause sees them as a list, the oldest first.
#[derive(Drop)]
pub struct LineIn {
    bytes: ArrayVec<u8, TYPED_BYTES>,
    ghost few: { length bytes.items ≤ most_typed },
}

impl Model for LineIn {
    ghost use Rattle.bk_queue.specs.Queues.{Typed};

    ghost Value = { Typed };

    ghost view = { λ l. record { bytes = l.bytes.items; few = l.few } };
}

impl LineIn {
    /// A line on which no byte waits.
    pub fn new() -> LineIn
        ensures empty { result.bytes ≡ [] }
    {
        LineIn {
            bytes: ArrayVec::new(),
        }
    }

    /// The byte waits behind all others; or, where 64 wait, it is lost and the answer is false.
    pub fn put(&mut self, byte: u8) -> bool
        ensures full { IsFalse result ↔ (length self.old.bytes ≡ most_typed) }
        ensures put { IsTrue result → self.new.bytes ≡ self.old.bytes ++ byte ∷ [] }
        ensures lost { IsFalse result → self.new ≡ self.old }
    {
        if self.bytes.is_full() {
            return false;
        }
        self.bytes.push(byte);
        true
    }

    /// The oldest byte, which waits no longer; None where no byte waits.
    pub fn take(&mut self) -> Option<u8>
        ensures empty { IsNone result ↔ (self.old.bytes ≡ []) }
        ensures oldest { IfSome result (λ byte. self.old.bytes ≡ byte ∷ self.new.bytes) }
        ensures kept { IsNone result → self.new ≡ self.old }
    {
        if self.bytes.is_empty() {
            return None;
        }
        Some(self.bytes.remove(0))
    }
}
