ghost use Rattle.std.specs.Prelude.{◌≡◌, ◌<◌, ◌-◌, ◌^◌, IfOk, OnErr, None, List, ℕ, Option, length, min};
ghost use Rattle.std.specs.Io.KnownBytes.{Keeps};
ghost use Rattle.bk_base.specs.Outside.{Writes, HasCause};

use crate::failed::Failed;
use crate::sink::Sink;

/// Takes everything and keeps nothing.
#[derive(Drop)]
pub struct NullSink;

impl NullSink {
    /// The sink that keeps nothing.
    pub fn new() -> NullSink {
        NullSink
    }
}

impl Sink for NullSink {
    ghost taken = { λ _. None };

    ghost faults = { λ _. 0 };

    /// Takes the whole piece, or the first 4,294,967,295 bytes of a longer one.
    fn write(&mut self, piece: &[u8]) -> Result<u32, Failed>
        requires { 0 < length piece.now }
        ensures bytes { IfOk result (λ n. Writes n None None piece.now) }
        ensures kept { OnErr result (Keeps None None) }
        ensures cause { HasCause 0 0 result }
        ensures whole { result ≡ Ok (min (length piece.now) (2 ^ 32 - 1)) }
    {
        Ok(u32::try_from(piece.len()).unwrap_or(u32::MAX))
    }
}
