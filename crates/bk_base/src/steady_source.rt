ghost use Rattle.std.specs.Prelude.{◌≡◌, ◌≤◌, ◌++◌, IfOk, IsOk, IsTrue, OnErr, OnOk, Ok, Some, [], length, min};
ghost use Rattle.bk_base.specs.Outside.{Reads, HasCause};
ghost use Rattle.bk_base.specs.Memory.{after_steady_read, shown_steady};

use crate::buf::Buf;
use crate::failed::Failed;
use crate::source::Source;
use std::marker::Model;

/// Bytes in memory, from which no read fails.
#[derive(Drop)]
pub struct SteadySource {
    bytes: Vec<u8>,
    at: usize,
}

impl Model for SteadySource {
    ghost use Rattle.std.specs.Prelude.{◌≤◌, take, drop, vec_len};
    ghost use Rattle.bk_base.specs.Memory.{SteadyInput};

    ghost Value = { SteadyInput };

    ghost view = { λ s. record { given = take s.at s.bytes.items; left = drop s.at s.bytes.items } };

    ghost invariant = { λ s. s.at ≤ vec_len s.bytes };
}

impl SteadySource {
    /// A source of these bytes.
    pub fn new(bytes: Vec<u8>) -> SteadySource
        ensures { result ≡ record { given = []; left = bytes.items } }
    {
        SteadySource { bytes, at: 0 }
    }
}

impl Source for SteadySource {
    ghost state = { shown_steady };

    /// Gives as many of the next bytes as `max` and the buffer allow.
    fn read(&mut self, max: u32, buf: &mut Buf) -> Result<u32, Failed>
        requires { 1 ≤ max }
        ensures bytes { IfOk result (λ n. Reads max n (Some self.old.left) (Some self.new.left) buf.new) }
        ensures given { OnOk result (self.new.given ≡ self.old.given ++ buf.new) }
        ensures ended { result ≡ Ok 0 → IsTrue (shown_steady self.new).ended }
        ensures kept { OnErr result (self.new.given ≡ self.old.given) }
        ensures cause { HasCause 0 0 result }
        ensures steady { IsOk result }
        ensures after { IfOk result (λ n. (n ≡ min max (min 4096 (length self.old.left))) × (self.new ≡ after_steady_read self.old n)) }
    {
        let (_, rest) = self.bytes.split_at(self.at);
        let n = buf.copy_from(max, rest);
        self.at += n as usize;
        Ok(n)
    }
}
