ghost use Rattle.std.specs.Prelude.{◌<◌, IfOk, OnErr, List, ℕ, Option, length};
ghost use Rattle.std.specs.Io.KnownBytes.{Keeps};
ghost use Rattle.bk_base.specs.Outside.{Writes, HasCause};

use crate::failed::Failed;

/// Where bytes go.
pub trait Sink {
    /// The bytes taken, where it tells them.
    ghost taken: { Self → Option (List ℕ) };

    /// How many faults there were; it never falls.
    ghost faults: { Self → ℕ };

    /// Takes the first bytes of a piece, at least one, and says how many. It fails exactly where the count
    /// of faults rose, and then takes none.
    fn write(&mut self, piece: &[u8]) -> Result<u32, Failed>
        requires { 0 < length piece.now }
        ensures bytes { IfOk result (λ n. Writes n (taken self.old) (taken self.new) piece.now) }
        ensures kept { OnErr result (Keeps (taken self.old) (taken self.new)) }
        ensures cause { HasCause (faults self.old) (faults self.new) result };
}
