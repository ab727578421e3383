// The messages that wait in a mailbox, and how many were lost.

ghost use Rattle.std.specs.Prelude.{◌≡◌, ◌<◌, ◌≤◌, ◌↔◌, List, ℕ, [], ◌∷◌, ◌++◌, length, IsFalse, IsTrue, IsNone, IfSome};
ghost use Rattle.bk_object.specs.Limits.{most_lost, most_messages};
ghost use Rattle.bk_queue.specs.Queues.{HaveFourWords};

use arrayvec::ArrayVec;
use std::marker::Model;

/// How many messages wait in a mailbox at most.
pub const MESSAGES: usize = 16;

/// A message, and how many messages were lost since one was last taken.
#[derive(Clone, Copy, PartialEq, Eq, Debug)]
pub struct Message {
    pub words: [u16; 4],
    pub lost: u16,
}

/// At most 16 messages of four words, and the count of those that were lost, which stays at 65,535.
///
/// A clause sees the messages as a list, the oldest first, and the count.
#[derive(Drop)]
pub struct Mailbox {
    messages: ArrayVec<[u16; 4], MESSAGES>,
    lost: u16,
    ghost few: { length messages.items ≤ most_messages },
    ghost four: { HaveFourWords messages.items },
    ghost counted: { lost ≤ most_lost },
}

impl Model for Mailbox {
    ghost use Rattle.bk_queue.specs.Queues.{Mail};

    ghost Value = { Mail };

    ghost view = { λ m. record { waiting = m.messages.items; lost = m.lost; few = m.few; four = m.four; counted = m.counted } };
}

impl Mailbox {
    ghost use Rattle.bk_queue.specs.Queues.{counted_on};

    /// A mailbox with no message, and none lost.
    pub fn new() -> Mailbox
        ensures empty { (result.waiting ≡ []) × (result.lost ≡ 0) }
    {
        Mailbox {
            messages: ArrayVec::new(),
            lost: 0,
        }
    }

    /// The message waits behind all others; or, where 16 wait, it is lost and counted, and the answer is false.
    pub fn put(&mut self, words: [u16; 4]) -> bool
        ensures full { IsFalse result ↔ (length self.old.waiting ≡ most_messages) }
        ensures put { IsTrue result → (self.new.waiting ≡ self.old.waiting ++ words ∷ []) × (self.new.lost ≡ self.old.lost) }
        ensures lost { IsFalse result → (self.new.waiting ≡ self.old.waiting) × (self.new.lost ≡ counted_on self.old.lost) }
    {
        if self.messages.is_full() {
            self.lost = self.lost.saturating_add(1);
            return false;
        }
        self.messages.push(words);
        true
    }

    /// The oldest message, which waits no longer, and the count of lost ones, which begins anew; None where no message waits.
    pub fn take(&mut self) -> Option<Message>
        ensures empty { IsNone result ↔ (self.old.waiting ≡ []) }
        ensures oldest { IfSome result (λ m. (self.old.waiting ≡ m.words ∷ self.new.waiting) × (m.lost ≡ self.old.lost) × (self.new.lost ≡ 0)) }
        ensures kept { IsNone result → self.new ≡ self.old }
    {
        if self.messages.is_empty() {
            return None;
        }
        let words = self.messages.remove(0);
        let lost = self.lost;
        self.lost = 0;
        Some(Message { words, lost })
    }
}
