ghost use Rattle.std.specs.Prelude.{◌≡◌, ◌<◌, ◌^◌, ◌+ℤ◌, ◌-ℤ◌};
ghost use Rattle.bk_isa.specs.Codes.{HasSingle};
ghost use Rattle.bk_space.specs.Widths.{bits_of};
ghost use Rattle.bk_isa.specs.Numbers.{top};
ghost use Rattle.bk_isa.specs.Results.{with_flags, shifted, low_bit, ror_of, rol_of, asr_of, swapped, sign_of, stepped, counted, unary_of};

use crate::double::complement;
use crate::exact::{add, subtract, with};
use bk_isa::Un;
use bk_space::{Flags, Width};

/// The same result, with C as it was.
fn keeping_c(outcome: (u16, Flags), old: Flags) -> (u16, Flags)
    ensures value { result.0 ≡ outcome.0 }
    ensures flags { result.1 ≡ record outcome.1 { c = old.c } }
{
    let (value, flags) = outcome;
    let kept = Flags {
        n: flags.n,
        z: flags.z,
        v: flags.v,
        c: old.c,
    };
    (value, kept)
}

/// Rotated one place to the right through C.
fn rotate_right(width: Width, value: u16, c: bool) -> (u16, Flags)
    requires { value < 2 ^ bits_of width }
    ensures value { result ≡ shifted width (ror_of width value c) (low_bit value) }
    ensures range { result.0 < 2 ^ bits_of width }
{
    let half = match width {
        Width::Word => 0x8000,
        Width::Byte => 0x80,
    };
    let moved = value >> 1;
    let rotated = if c { moved | half } else { moved };
    let out = value & 1 == 1;
    let flags = Flags {
        n: c,
        z: rotated == 0,
        v: c != out,
        c: out,
    };
    (rotated, flags)
}

/// Shifted one place to the right with its sign.
fn shift_right(width: Width, value: u16) -> (u16, Flags)
    requires { value < 2 ^ bits_of width }
    ensures value { result ≡ shifted width (asr_of width value) (low_bit value) }
    ensures range { result.0 < 2 ^ bits_of width }
{
    let half = match width {
        Width::Word => 0x8000,
        Width::Byte => 0x80,
    };
    let n = value >= half;
    let moved = if n { value >> 1 | half } else { value >> 1 };
    let out = value & 1 == 1;
    let flags = Flags {
        n,
        z: moved == 0,
        v: n != out,
        c: out,
    };
    (moved, flags)
}

/// Shifted one place to the left, with a bit that comes in.
fn shift_left(width: Width, value: u16, low: bool) -> (u16, Flags)
    requires { value < 2 ^ bits_of width }
    ensures value { result ≡ shifted width (rol_of width value low) (top (bits_of width) value) }
    ensures range { result.0 < 2 ^ bits_of width }
{
    let (half, mask) = match width {
        Width::Word => (0x8000, 0xffff),
        Width::Byte => (0x80, 0xff),
    };
    let wide = u32::from(value) * 2 + u32::from(low);
    let moved = (wide & mask) as u16;
    let n = moved >= half;
    let c = value >= half;
    let flags = Flags {
        n,
        z: moved == 0,
        v: n != c,
        c,
    };
    (moved, flags)
}

/// The bytes exchanged, with N and Z of the low one.
fn swap(value: u16) -> (u16, Flags)
    ensures { result ≡ swapped value }
{
    let low = value >> 8;
    let flags = Flags {
        n: low >= 0x80,
        z: low == 0,
        v: false,
        c: false,
    };
    ((value & 0xff) * 256 + low, flags)
}

/// The sign as a word.
fn sign(old: Flags) -> (u16, Flags)
    ensures { result ≡ sign_of old }
{
    let flags = Flags {
        n: old.n,
        z: !old.n,
        v: false,
        c: old.c,
    };
    (if old.n { 0xffff } else { 0 }, flags)
}

/// Result and flags of an operation with one operand. TST gives its too; it is the caller who does not store it.
/// SWAB and SXT are of words alone. At byte width operand and result are 0 to 377 octal.
pub fn unary(op: Un, width: Width, dst: u16, old: Flags) -> (u16, Flags)
    requires form { HasSingle op width }
    requires dst { dst < 2 ^ bits_of width }
    ensures value { result ≡ unary_of op width dst old }
    ensures range { result.0 < 2 ^ bits_of width }
{
    match op {
        Un::Clr => with(width, 0, false, false),
        Un::Com => with(width, complement(width, dst), false, true),
        Un::Inc => keeping_c(add(width, 1, dst), old),
        Un::Dec => keeping_c(subtract(width, 1, dst), old),
        Un::Neg => subtract(width, dst, 0),
        Un::Adc => add(width, u16::from(old.c), dst),
        Un::Sbc => subtract(width, u16::from(old.c), dst),
        Un::Tst => with(width, dst, false, false),
        Un::Ror => rotate_right(width, dst, old.c),
        Un::Rol => shift_left(width, dst, old.c),
        Un::Asr => shift_right(width, dst),
        Un::Asl => shift_left(width, dst, false),
        Un::Swab => swap(dst),
        Un::Sxt => sign(old),
    }
}
