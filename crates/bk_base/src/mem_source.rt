ghost use Rattle.std.specs.Prelude.{◌≡◌, ◌≤◌, ◌++◌, IfOk, IsErr, IsTrue, OnErr, OnOk, Ok, ◌↔◌, Contains, Some, []};
ghost use Rattle.bk_base.specs.Outside.{Reads, HasCause};
ghost use Rattle.bk_base.specs.Memory.{given_by, after_read, after_fault, shown_of};

use crate::buf::Buf;
use crate::failed::Failed;
use crate::mem_sink::is_listed;
use crate::source::Source;
use std::marker::Model;

/// Bytes in memory, given in pieces; the calls that are listed fail.
#[derive(Drop)]
pub struct MemSource {
    bytes: Vec<u8>,
    at: usize,
    piece: u32,
    fails: Vec<u32>,
    calls: u64,
    faults: u64,
}

impl Model for MemSource {
    ghost use Rattle.std.specs.Prelude.{◌≤◌, take, drop, vec_len};
    ghost use Rattle.bk_base.specs.Memory.{MemInput};

    ghost Value = { MemInput };

    ghost view = { λ s. record { given = take s.at s.bytes.items; left = drop s.at s.bytes.items; piece = s.piece; fails = s.fails.items; calls = s.calls; faults = s.faults } };

    ghost invariant = { λ s. (s.at ≤ vec_len s.bytes) × (1 ≤ s.piece) };
}

impl MemSource {
    /// A source of these bytes, at most `piece` of them a call. The calls whose number, from 0, is
    /// listed fail.
    pub fn new(bytes: Vec<u8>, piece: u32, fails: Vec<u32>) -> MemSource
        requires { 1 ≤ piece }
        ensures { result ≡ record { given = []; left = bytes.items; piece = piece; fails = fails.items; calls = 0; faults = 0 } }
    {
        MemSource {
            bytes,
            at: 0,
            piece,
            fails,
            calls: 0,
            faults: 0,
        }
    }
}

impl Source for MemSource {
    ghost state = { shown_of };

    /// Gives as many of the next bytes as the piece, `max` and the buffer allow, or fails and counts it.
    fn read(&mut self, max: u32, buf: &mut Buf) -> Result<u32, Failed>
        requires { 1 ≤ max }
        ensures bytes { IfOk result (λ n. Reads max n (Some self.old.left) (Some self.new.left) buf.new) }
        ensures given { OnOk result (self.new.given ≡ self.old.given ++ buf.new) }
        ensures ended { result ≡ Ok 0 → IsTrue (shown_of self.new).ended }
        ensures kept { OnErr result (self.new.given ≡ self.old.given) }
        ensures cause { HasCause self.old.faults self.new.faults result }

        // Exactly the listed calls fail, and the count rises in these alone.
        ensures listed { IsErr result ↔ Contains self.old.fails self.old.calls }
        ensures after { IfOk result (λ n. (n ≡ given_by self.old max) × (self.new ≡ after_read self.old n)) }
        ensures failed { OnErr result (self.new ≡ after_fault self.old) }
    {
        let fails = is_listed(self.fails.as_slice(), self.calls);
        self.calls = self.calls.saturating_add(1);
        if fails {
            self.faults = self.faults.saturating_add(1);
            return Err(Failed);
        }
        let (_, rest) = self.bytes.split_at(self.at);
        let n = buf.copy_from(max.min(self.piece), rest);
        self.at += n as usize;
        Ok(n)
    }
}
