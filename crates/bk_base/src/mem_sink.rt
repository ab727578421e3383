ghost use Rattle.std.specs.Prelude.{◌≡◌, ◌≤◌, ◌<◌, IfOk, IsErr, IsTrue, OnErr, ◌↔◌, Contains, Some, List, ℕ, Option, [], length};
ghost use Rattle.std.specs.Io.KnownBytes.{Keeps};
ghost use Rattle.bk_base.specs.Outside.{Writes, HasCause};
ghost use Rattle.bk_base.specs.Memory.{WillFail, taken_of, after_write, after_refusal};

use crate::failed::{Failed, NoMemory};
use crate::sink::Sink;
use std::alloc::Global;
use std::marker::Model;

/// A sink in memory with so much room, which takes pieces; the calls that are listed fail.
#[derive(Drop)]
pub struct MemSink {
    bytes: Vec<u8>,
    at: usize,
    piece: u32,
    fails: Vec<u32>,
    calls: u64,
    faults: u64,
}

impl Model for MemSink {
    ghost use Rattle.std.specs.Prelude.{◌≤◌, take, vec_len};
    ghost use Rattle.bk_base.specs.Memory.{MemOutput};

    ghost Value = { MemOutput };

    ghost view = { λ s. record { taken = take s.at s.bytes.items; room = vec_len s.bytes; piece = s.piece; fails = s.fails.items; calls = s.calls; faults = s.faults } };

    ghost invariant = { λ s. (s.at ≤ vec_len s.bytes) × (1 ≤ s.piece) };
}

impl MemSink {
    /// A sink of so many bytes, which takes at most `piece` of them a call. The calls whose number,
    /// from 0, is listed fail, and those with no room left.
    pub fn new(alloc: Global, room: u32, piece: u32, fails: Vec<u32>) -> Result<MemSink, NoMemory>
        requires { 1 ≤ piece }
        ensures { IfOk result (λ s. s ≡ record { taken = []; room = room; piece = piece; fails = fails.items; calls = 0; faults = 0 }) }
    {
        let bytes = vec![in alloc; 0; room as usize]?;
        Ok(MemSink {
            bytes,
            at: 0,
            piece,
            fails,
            calls: 0,
            faults: 0,
        })
    }

    /// The bytes that it has taken.
    pub fn taken(&self) -> &[u8]
        ensures { result.now ≡ self.now.taken }
    {
        &self.bytes[..self.at]
    }
}

impl Sink for MemSink {
    ghost taken = { λ s. Some s.taken };

    ghost faults = { λ s. s.faults };

    /// Takes as much of the piece as its own piece and its room allow, or fails and counts it.
    fn write(&mut self, piece: &[u8]) -> Result<u32, Failed>
        requires { 0 < length piece.now }
        ensures bytes { IfOk result (λ n. Writes n (Some self.old.taken) (Some self.new.taken) piece.now) }
        ensures kept { OnErr result (Keeps (Some self.old.taken) (Some self.new.taken)) }
        ensures cause { HasCause self.old.faults self.new.faults result }

        // Exactly the listed calls and those with no room left fail, and the count rises in these alone.
        ensures listed { IsErr result ↔ WillFail self.old }
        ensures took { IfOk result (λ n. (n ≡ taken_of self.old piece.now) × (self.new ≡ after_write self.old n piece.now)) }
        ensures failed { OnErr result (self.new ≡ after_refusal self.old) }
    {
        let fails = is_listed(self.fails.as_slice(), self.calls);
        self.calls = self.calls.saturating_add(1);
        let room = self.bytes.len() - self.at;
        if fails || room == 0 {
            self.faults = self.faults.saturating_add(1);
            return Err(Failed);
        }
        let n = (self.piece as usize).min(piece.len()).min(room);
        self.bytes[self.at..self.at + n].copy_from_slice(&piece[..n]);
        self.at += n;
        Ok(n as u32)
    }
}

// Whether a call's number is in the list.
pub(crate) fn is_listed(fails: &[u32], call: u64) -> bool
    ensures { IsTrue result ↔ Contains fails.now call }
{
    fails.iter().any(|number| u64::from(*number) == call)
}
