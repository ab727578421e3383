use bk_space::Flags;
use std::str::SplitWhitespace;

/// A word of 16 bits, in octal.
pub fn octal(word: &str) -> Option<u16> {
    u16::from_str_radix(word, 8).ok()
}

/// A number of 8 bits, in octal.
pub fn small(word: &str) -> Option<u8> {
    u8::from_str_radix(word, 8).ok()
}

/// The next word, of 16 bits.
pub fn octal_in(words: &mut SplitWhitespace<'_>) -> Option<u16> {
    octal(words.next()?)
}

/// The next word, of 8 bits.
pub fn small_in(words: &mut SplitWhitespace<'_>) -> Option<u8> {
    small(words.next()?)
}

/// The next words, of 16 bits each.
pub fn octals<const N: usize>(words: &mut SplitWhitespace<'_>) -> Option<[u16; N]> {
    let mut numbers = [0; N];
    for number in &mut numbers {
        *number = octal_in(words)?;
    }
    Some(numbers)
}

fn bit_of(digit: u8) -> Option<bool> {
    match digit {
        b'0' => Some(false),
        b'1' => Some(true),
        _ => None,
    }
}

fn flags_of(digits: &[u8]) -> Option<Flags> {
    match digits {
        [n, z, v, c] => Some(Flags {
            n: bit_of(*n)?,
            z: bit_of(*z)?,
            v: bit_of(*v)?,
            c: bit_of(*c)?,
        }),
        _ => None,
    }
}

/// N, Z, V and C, a digit each.
pub fn flags_in(words: &mut SplitWhitespace<'_>) -> Option<Flags> {
    flags_of(words.next()?.as_bytes())
}
