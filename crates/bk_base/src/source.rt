ghost use Rattle.std.specs.Prelude.{◌≡◌, ◌≤◌, ◌++◌, IfOk, OnOk, OnErr, Ok, IsTrue};
ghost use Rattle.bk_base.specs.Outside.{SourceState, Reads, HasCause};

use crate::buf::Buf;
use crate::failed::Failed;

/// Where bytes come from.
pub trait Source {
    /// What it shows of itself: `left` are the bytes left, where it tells them, `given` all that it has given so far, `ended`
    /// that its last read found the end, and `faults` counts the reads that failed; it never falls.
    ghost state: { Self → SourceState };

    /// Leaves the next bytes in `buf`, at most `max` and 4,096, and says how many; 0 only where none is
    /// left. It fails exactly where the count of faults rose, and has then given nothing; what is left is open.
    fn read(&mut self, max: u32, buf: &mut Buf) -> Result<u32, Failed>
        requires { 1 ≤ max }
        ensures bytes { IfOk result (λ n. Reads max n (state self.old).left (state self.new).left buf.new) }
        ensures given { OnOk result ((state self.new).given ≡ (state self.old).given ++ buf.new) }
        ensures ended { result ≡ Ok 0 → IsTrue (state self.new).ended }
        ensures kept { OnErr result ((state self.new).given ≡ (state self.old).given) }
        ensures cause { HasCause (state self.old).faults (state self.new).faults result };
}
