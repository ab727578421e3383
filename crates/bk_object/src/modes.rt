// Sets of access modes.

ghost use Rattle.std.specs.Prelude.{⊤, ◌≡◌, ◌<◌, ◌&&◌, ◌||◌, not, false, Bool, [], ◌∷◌, codes};
ghost use Rattle.bk_object.specs.Modes as model;

use bitflags::{Flag, Flags, bitflag_items};

/// A set of access modes: r 1, e 2, w 4 and a 8.
#[derive(Clone, Copy, PartialEq, Eq, Debug)]
pub struct Modes(u8);

bitflag_items! {
    impl Modes: u8 {
        /// Read.
        const R = 1;
        /// Execute.
        const E = 2;
        /// Write.
        const W = 4;
        /// Append.
        const A = 8;
    }
}

impl Flags for Modes {
    type Bits = u8;

    ghost exact = { ⊤ };

    ghost table = { (codes "R", 1) ∷ (codes "E", 2) ∷ (codes "W", 4) ∷ (codes "A", 8) ∷ [] };

    ghost set_of = { λ modes. modes.0 };

    fn flags<'a>() -> &'a [Flag<Modes>] {
        Modes::FLAGS
    }

    fn bits(&self) -> u8 {
        self.0
    }

    fn from_bits_retain(bits: u8) -> Modes {
        Modes(bits)
    }
}

impl Modes {
    /// Whether each mode of the set is one of the other's.
    pub fn is_within(self, of: Modes) -> bool
        ensures { result ≡ model.is_within self of }
    {
        difference_of(self, of).bits() == 0
    }
}

// The modes of either set.
pub(crate) fn union_of(a: Modes, b: Modes) -> Modes
    ensures value { result ≡ model.union a b }
    ensures four { result.0 < 16 }
{
    Modes::from_bits_retain((a.bits() | b.bits()) % 16)
}

// The modes of the first set that are none of the second's.
pub(crate) fn difference_of(a: Modes, b: Modes) -> Modes
    ensures value { result ≡ model.without a b }
    ensures four { result.0 < 16 }
{
    Modes::from_bits_retain((a.bits() & !b.bits()) % 16)
}

/// What a set made by a test, a union, a difference and the empty set have; two sets of these four modes with the same modes are equal.
pub fn law_modes()
    ensures by_test { (test : model.AccessMode → Bool) (mode : model.AccessMode) → model.has (model.modes_where test) mode ≡ test mode }
    ensures union { (a b : Modes) (mode : model.AccessMode) → model.has (model.union a b) mode ≡ (model.has a mode || model.has b mode) }
    ensures without { (a b : Modes) (mode : model.AccessMode) → model.has (model.without a b) mode ≡ (model.has a mode && not (model.has b mode)) }
    ensures none { (mode : model.AccessMode) → model.has model.no_modes mode ≡ false }
    ensures same { (a b : Modes) → a.0 < 16 → b.0 < 16 → ((mode : model.AccessMode) → model.has a mode ≡ model.has b mode) → a ≡ b }
{}
