ghost use Rattle.std.specs.Prelude.{◌<◌, ◌≤ℤ◌, pos, negsuc};

/// A register and the amount by which it moved.
#[derive(Clone, Copy)]
pub(crate) struct Note {
    pub(crate) reg: u8,
    pub(crate) amount: i8,
    ghost known: { reg < 8 },
    ghost low: { negsuc 15 ≤ℤ amount },
    ghost high: { amount ≤ℤ pos 15 },
}
