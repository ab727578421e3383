ghost use Rattle.std.specs.Prelude.{◌≡◌, ◌<◌, ◌≤◌, ◌+◌, ◌*◌, ◌/◌, ◌%◌, ◌^◌, ◌*ℤ◌, unsigned_abs, pos, negsuc};
ghost use Rattle.bk_isa.specs.Numbers.{signed, modulo, floor_over, is_odd as is_odd_of};
ghost use Rattle.bk_isa.specs.Extended.{joined, count_of, shift_of, shift_flags, ash_of, ashc_of};

use crate::mul_div::{long_value_of, value_of, word_of};
use bk_space::Flags;

/// 2 to the n.
fn power_of(n: u32) -> i64
    requires { n < 32 }
    ensures value { result ≡ pos (2 ^ n) }
    ensures small { 2 ^ n ≤ 2 ^ 31 }
{
    1i64 << n
}

/// A signed value of 32 bits times 2 to the n.
fn signed_times(value: i64, n: u32) -> i64
    requires n { n < 32 }
    requires value { unsigned_abs value ≤ 2 ^ 31 }
    ensures { result ≡ value *ℤ pos (2 ^ n) }
{
    value * power_of(n)
}

/// An unsigned value of 32 bits times 2 to the n.
fn bits_times(bits: u32, n: u32) -> u64
    requires { n < 32 }
    ensures { result ≡ bits * 2 ^ n }
{
    u64::from(bits) << n
}

/// A number over 2 to the m, rounded down.
fn floor_of(value: i64, m: u32) -> i64
    requires { m < 64 }
    ensures { result ≡ floor_over value (2 ^ m) }
{
    value >> m
}

fn is_odd(value: i64) -> bool
    ensures { result ≡ is_odd_of value }
{
    value & 1 == 1
}

/// A word shifted to the left.
fn word_left(word: u16, n: u32) -> (u16, Flags)
    requires { n < 32 }
    ensures value { result.0 ≡ shift_of 16 word (pos n) }
    ensures flags { result.1 ≡ shift_flags 16 word (pos n) }
{
    let bits = bits_times(u32::from(word), n);
    let signed = signed_times(i64::from(value_of(word)), n);
    let moved = (bits & 0xffff) as u16;
    let flags = Flags {
        n: moved >= 0x8000,
        z: moved == 0,
        v: signed < -0x8000 || signed > 0x7fff,
        c: n != 0 && (bits >> 16) & 1 == 1,
    };
    (moved, flags)
}

/// A word shifted to the right, by m + 1 places.
fn word_right(word: u16, m: u32) -> (u16, Flags)
    requires { m < 32 }
    ensures value { result.0 ≡ shift_of 16 word (negsuc m) }
    ensures flags { result.1 ≡ shift_flags 16 word (negsuc m) }
{
    let value = i64::from(value_of(word));
    let moved = word_of(floor_of(value, m + 1));
    let last = is_odd(floor_of(value, m));
    let flags = Flags {
        n: moved >= 0x8000,
        z: moved == 0,
        v: false,
        c: last,
    };
    (moved, flags)
}

/// A word shifted by the low six bits of the count, as a number from -32 to 31: to the left where it is over 0, to the
/// right where it is below. The flags before do not matter.
pub fn ash(value: u16, count: u16, _old: Flags) -> (u16, Flags)
    ensures value { result ≡ ash_of value count }
{
    let six = u32::from(count & 63);
    if six < 32 {
        word_left(value, six)
    } else {
        word_right(value, 63 - six)
    }
}

/// The unsigned value of two words.
fn bits_of(high: u16, low: u16) -> u32
    ensures { result ≡ joined high low }
{
    u32::from(high) * 0x1_0000 + u32::from(low)
}

/// A whole number modulo 2 to the 32.
fn long_of(value: i64) -> u32
    ensures { result ≡ modulo 32 value }
{
    (value.cast_unsigned() & 0xffff_ffff) as u32
}

/// A number of 32 bits, also given as its signed value, shifted to the left.
fn long_left(bits: u32, value: i64, n: u32) -> (u32, Flags)
    requires n { n < 32 }
    requires value { value ≡ signed 32 bits }
    requires range { unsigned_abs value ≤ 2 ^ 31 }
    ensures value { result.0 ≡ shift_of 32 bits (pos n) }
    ensures flags { result.1 ≡ shift_flags 32 bits (pos n) }
{
    let shifted = bits_times(bits, n);
    let signed = signed_times(value, n);
    let moved = (shifted & 0xffff_ffff) as u32;
    let flags = Flags {
        n: moved >= 0x8000_0000,
        z: moved == 0,
        v: signed < -0x8000_0000 || signed > 0x7fff_ffff,
        c: n != 0 && (shifted >> 32) & 1 == 1,
    };
    (moved, flags)
}

/// A number of 32 bits, also given as its signed value, shifted to the right, by m + 1 places.
fn long_right(bits: u32, value: i64, m: u32) -> (u32, Flags)
    requires m { m < 32 }
    requires value { value ≡ signed 32 bits }
    ensures value { result.0 ≡ shift_of 32 bits (negsuc m) }
    ensures flags { result.1 ≡ shift_flags 32 bits (negsuc m) }
{
    let moved = long_of(floor_of(value, m + 1));
    let flags = Flags {
        n: moved >= 0x8000_0000,
        z: moved == 0,
        v: false,
        c: is_odd(floor_of(value, m)),
    };
    (moved, flags)
}

/// Two words shifted as one number, the high one first, by the low six bits of the count as `ash` takes them: the high
/// word, the low word, and the flags. The flags before do not matter.
pub fn ashc(high: u16, low: u16, count: u16, _old: Flags) -> (u16, u16, Flags)
    ensures value { result ≡ ashc_of high low count }
{
    let bits = bits_of(high, low);
    let value = long_value_of(high, low);
    let places = u32::from(count & 63);
    let (moved, flags) = if places < 32 {
        long_left(bits, value, places)
    } else {
        long_right(bits, value, 63 - places)
    };
    ((moved >> 16) as u16, (moved & 0xffff) as u16, flags)
}
