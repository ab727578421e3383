ghost use Rattle.std.specs.Prelude.{◌≡◌, ◌<◌, ◌^◌, ◌+ℤ◌, ◌-ℤ◌};
ghost use Rattle.bk_space.specs.Widths.{bits_of};
ghost use Rattle.bk_isa.specs.Results.{with_flags, moved, counted};

use bk_space::{Flags, Width};

// One body at two types: `$u` is the unsigned type of the width, `$half` its top bit.
macro_rules! sum {
    ($src:expr, $dst:expr, $u:ty, $half:expr) => {{
        let a = $dst as $u;
        let b = $src as $u;
        let sum = a.wrapping_add(b);
        let flags = Flags {
            n: sum >= $half,
            z: sum == 0,
            v: (a >= $half) == (b >= $half) && (sum >= $half) != (a >= $half),
            c: sum < a,
        };
        (u16::from(sum), flags)
    }};
}

macro_rules! difference {
    ($src:expr, $dst:expr, $u:ty, $half:expr) => {{
        let a = $dst as $u;
        let b = $src as $u;
        let rest = a.wrapping_sub(b);
        let flags = Flags {
            n: rest >= $half,
            z: rest == 0,
            v: (a >= $half) != (b >= $half) && (rest >= $half) != (a >= $half),
            c: a < b,
        };
        (u16::from(rest), flags)
    }};
}

/// `dst` + `src`.
pub(crate) fn add(width: Width, src: u16, dst: u16) -> (u16, Flags)
    requires src { src < 2 ^ bits_of width }
    requires dst { dst < 2 ^ bits_of width }
    ensures value { result ≡ counted width (λ a b. a +ℤ b) dst src }
    ensures range { result.0 < 2 ^ bits_of width }
{
    match width {
        Width::Word => sum!(src, dst, u16, 0x8000),
        Width::Byte => sum!(src, dst, u8, 0x80),
    }
}

/// `dst` - `src`.
pub(crate) fn subtract(width: Width, src: u16, dst: u16) -> (u16, Flags)
    requires src { src < 2 ^ bits_of width }
    requires dst { dst < 2 ^ bits_of width }
    ensures value { result ≡ counted width (λ a b. a -ℤ b) dst src }
    ensures range { result.0 < 2 ^ bits_of width }
{
    match width {
        Width::Word => difference!(src, dst, u16, 0x8000),
        Width::Byte => difference!(src, dst, u8, 0x80),
    }
}

/// A result with N and Z of its own, and V and C as given.
pub(crate) fn with(width: Width, value: u16, v: bool, c: bool) -> (u16, Flags)
    ensures { result ≡ with_flags width value v c }
{
    let half = match width {
        Width::Word => 0x8000,
        Width::Byte => 0x80,
    };
    let flags = Flags {
        n: value >= half,
        z: value == 0,
        v,
        c,
    };
    (value, flags)
}

/// A value that is moved.
pub(crate) fn move_value(width: Width, value: u16, old: Flags) -> (u16, Flags)
    ensures { result ≡ moved width value old }
{
    with(width, value, false, old.c)
}
