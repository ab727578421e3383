ghost use Rattle.std.specs.Prelude.{◌≡◌, ◌<◌, ◌≤◌, ◌/◌, ◌%◌, ◌^◌, ◌*ℤ◌, unsigned_abs, false, pos};
ghost use Rattle.bk_isa.specs.Numbers.{signed, modulo, is_out, is_negative, is_zero};
ghost use Rattle.bk_isa.specs.Extended.{joined, product_of, mul_of, quotient_of, div_of};

use bk_space::Flags;

/// The signed value of a word.
pub(crate) fn value_of(word: u16) -> i32
    ensures { result ≡ signed 16 word }
{
    i32::from(word.cast_signed())
}

/// The signed value of two words.
pub(crate) fn long_value_of(high: u16, low: u16) -> i64
    ensures value { result ≡ signed 32 (joined high low) }
    ensures range { unsigned_abs result ≤ 2 ^ 31 }
{
    let bits = i64::from(high) * 0x1_0000 + i64::from(low);
    if high < 0x8000 {
        bits
    } else {
        bits - 0x1_0000_0000
    }
}

/// A whole number modulo 2 to the 16.
pub(crate) fn word_of(value: i64) -> u16
    ensures { result ≡ modulo 16 value }
{
    (value.cast_unsigned() & 0xffff) as u16
}

/// The signed product of two words.
fn product(a: u16, b: u16) -> i32
    ensures { result ≡ product_of a b }
{
    value_of(a) * value_of(b)
}

/// The two words of a number of 32 bits.
fn halves_of(value: i32) -> (u16, u16)
    ensures high { result.0 ≡ modulo 32 value / 2 ^ 16 }
    ensures low { result.1 ≡ modulo 32 value % 2 ^ 16 }
{
    let bits = value.cast_unsigned();
    ((bits >> 16) as u16, (bits & 0xffff) as u16)
}

/// The flags of a product.
fn flags_of(value: i32) -> Flags
    ensures { result ≡ record { n = is_negative value; z = is_zero value; v = false; c = is_out 16 value } }
{
    Flags {
        n: value < 0,
        z: value == 0,
        v: false,
        c: value < -0x8000 || value > 0x7fff,
    }
}

/// The signed product of two words: the high word, the low word, and the flags.
pub fn mul(a: u16, b: u16) -> (u16, u16, Flags)
    ensures value { result ≡ mul_of a b }
{
    let product = product(a, b);
    let (high, low) = halves_of(product);
    (high, low, flags_of(product))
}

/// The quotient and the remainder, and the flags.
fn divide(x: i64, y: i64) -> (Option<(u16, u16)>, Flags)
    requires { unsigned_abs x ≤ 2 ^ 31 }
    ensures { result ≡ quotient_of x y }
{
    if y == 0 {
        let flags = Flags {
            n: false,
            z: false,
            v: true,
            c: true,
        };
        return (None, flags);
    }
    let rest = x % y;
    let quotient = x / y;
    if quotient < -0x8000 || quotient > 0x7fff {
        let flags = Flags {
            n: false,
            z: false,
            v: true,
            c: false,
        };
        return (None, flags);
    }
    let flags = Flags {
        n: quotient < 0,
        z: quotient == 0,
        v: false,
        c: false,
    };
    (Some((word_of(quotient), word_of(rest))), flags)
}

/// Two words, the high one first, by a word, all signed: the quotient, truncated toward zero, and the remainder, which
/// has the dividend's sign; and the flags. None exactly where the divisor is zero or the quotient is out of range.
pub fn div(high: u16, low: u16, by: u16) -> (Option<(u16, u16)>, Flags)
    ensures value { result ≡ div_of high low by }
{
    divide(long_value_of(high, low), i64::from(value_of(by)))
}
