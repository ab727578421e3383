// What waits in a mailbox, and what a segment holds, in examples.

ghost use Rattle.std.specs.Prelude.{◌≡◌, Some, replicate};
ghost use Rattle.bk_state.specs.State.{Words};
ghost use Rattle.bk_store.specs.Entries.{contents_in, NoQueue};
ghost use Rattle.bk_store.specs.Queues.{oldest, received, sent};
ghost use Rattle.bk_store.specs.Example.{behind, mailbox, message, other, words};

/// The sixteenth message waits, the seventeenth is lost and counted, in a count that stays at 65,535; taking one begins the
/// count anew. A segment of one block that stands from block 1 on holds the words of that block.
pub fn law_example()
    ensures sixteenth { sent message (mailbox 15 2) ≡ behind 15 2 }
    ensures seventeenth { sent message (mailbox 16 2) ≡ mailbox 16 3 }
    ensures last_count { sent message (mailbox 16 65535) ≡ mailbox 16 65535 }
    ensures taken { received (behind 1 3) ≡ behind 0 0 }
    ensures told { oldest (behind 1 3) ≡ Some (record { words = other; lost = 3 }) }
    ensures segment { contents_in words NoQueue (Some (record { first = 1; blocks = 1 })) ≡ Words (replicate 32 2) }
{}
