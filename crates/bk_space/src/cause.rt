ghost use Rattle.std.specs.Prelude.{◌≡◌};

use crate::reference::Abort;

/// Why an instruction ends as a fault. The faults are numbered 0 to 7 in this order; the first four are the aborts.
#[derive(Clone, Copy, PartialEq, Eq, Debug)]
pub enum Cause {
    /// A word reference to an odd address.
    Odd,
    /// A reference to a page without rights.
    NonResident,
    /// A reference beyond the page's length.
    Length,
    /// A write to a page that may only be read.
    ReadOnly,
    /// An instruction that is reserved, or a word that is none.
    Reserved,
    /// BPT, or an instruction that completed with T set after it.
    Break,
    /// IOT.
    Iot,
    /// TRAP.
    Trap,
}

impl From<Abort> for Cause {
    ghost use Rattle.bk_space.specs.Faults.{cause_of};

    ghost from_gives = { λ abort cause. cause ≡ cause_of abort };

    fn from(abort: Abort) -> Cause {
        match abort {
            Abort::Odd => Cause::Odd,
            Abort::NonResident => Cause::NonResident,
            Abort::Length => Cause::Length,
            Abort::ReadOnly => Cause::ReadOnly,
        }
    }
}
