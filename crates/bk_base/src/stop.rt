use crate::failed::NoMemory;
use std::alloc::{AllocError, AllocFailed};

/// Why a reader gave nothing: the first fault of what it read, or want of memory.
#[derive(Clone, Copy, PartialEq, Eq, Debug)]
pub enum Stop<F> {
    Bad(F),
    NoMemory,
}

impl<F> From<NoMemory> for Stop<F> {
    ghost use Rattle.std.specs.Prelude.{◌≡◌};
    ghost use Rattle.bk_base.specs.declared.stop.Stop.TheVariants.{NoMemory};

    ghost from_gives = { λ _ stop. stop ≡ NoMemory };

    fn from(_: NoMemory) -> Stop<F> {
        Stop::NoMemory
    }
}

impl<F> From<AllocError> for Stop<F> {
    ghost use Rattle.std.specs.Prelude.{◌≡◌};
    ghost use Rattle.bk_base.specs.declared.stop.Stop.TheVariants.{NoMemory};

    ghost from_gives = { λ _ stop. stop ≡ NoMemory };

    fn from(_: AllocError) -> Stop<F> {
        Stop::NoMemory
    }
}

impl<F, T: Drop> From<AllocFailed<T>> for Stop<F> {
    ghost use Rattle.std.specs.Prelude.{◌≡◌};
    ghost use Rattle.bk_base.specs.declared.stop.Stop.TheVariants.{NoMemory};

    ghost from_gives = { λ _ stop. stop ≡ NoMemory };

    fn from(_: AllocFailed<T>) -> Stop<F> {
        Stop::NoMemory
    }
}
