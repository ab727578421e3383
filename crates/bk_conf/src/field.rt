// What a field says.

ghost use Rattle.std.specs.Prelude.{◌≡◌, ◌<◌, ◌≤◌, ◌==◌, ◌∷◌, ◌&&◌, ◌^◌, [], ℕ, List, IsTrue, IfOk, min, not, length, drop};
ghost use Rattle.std.specs.List.{list_all, slice_split};
ghost use Rattle.bk_conf.specs.Fields as model;

use crate::fault::BuildKind;
use bitflags::Flags;
use bk_object::Modes;
use bk_path::Path;
use bk_report::cut;
use bk_space::Mode;

// The least number that is over every limit of a field.
const OVER: u64 = 0x1_0000_0000_0000;

fn leads_with_zero(text: &[u8]) -> bool
    ensures value { result ≡ model.leads_with_zero text.now }
{
    match text {
        [] => false,
        [_] => false,
        [first, ..] => *first == b'0',
    }
}

fn are_digits(text: &[u8]) -> bool
    ensures { result ≡ list_all model.is_digit text.now }
{
    text.iter().all(|b| 48 <= *b && *b <= 57)
}

/// Whether the field is a decimal number, of any size.
pub fn is_decimal(text: &[u8]) -> bool
    ensures { result ≡ model.is_decimal text.now }
{
    !text.is_empty() && are_digits(text) && !leads_with_zero(text)
}

fn are_octal_digits(text: &[u8]) -> bool
    ensures { result ≡ list_all model.is_octal_digit text.now }
{
    text.iter().all(|b| 48 <= *b && *b <= 55)
}

/// Whether the field is an octal number, of 1 to 6 digits.
pub fn is_octal(text: &[u8]) -> bool
    ensures { result ≡ model.is_octal text.now }
{
    !text.is_empty() && text.len() <= 6 && are_octal_digits(text)
}

/// Whether the field is a mask: an octal number, of 1 to 16 digits.
pub fn is_mask(text: &[u8]) -> bool
    ensures { result ≡ model.is_mask text.now }
{
    !text.is_empty() && text.len() <= 16 && are_octal_digits(text)
}

// The number that digits are, or the least that is over every limit.
fn value_of(base: u64, text: &[u8]) -> u64
    requires { base ≤ 10 }
    ensures { result ≡ min (2 ^ 48) (model.value_of base text.now) }
{
    let mut n = 0;
    for digit in text {
        n = OVER.min(base * n + u64::from(digit.saturating_sub(48)));
    }
    n
}

// The number, where it is no more than the limit.
#[tactic(auto, unfolding(crate::specs::Fields::number_to))]
fn number_to(base: u64, limit: u64, text: &[u8]) -> Result<u64, BuildKind>
    requires base { base ≤ 10 }
    requires limit { limit < 2 ^ 48 }
    ensures value { result ≡ model.number_to base limit text.now }
    ensures within { IfOk result (λ n. n ≤ limit) }
{
    let n = value_of(base, text);
    if limit < n {
        return Err(BuildKind::Range);
    }
    Ok(n)
}

/// A decimal number of one byte, up to the limit.
pub fn byte_to(limit: u8, text: &[u8]) -> Result<u8, BuildKind>
    ensures value { result ≡ model.decimal_to limit text.now }
    ensures within { IfOk result (λ n. n ≤ limit) }
{
    Ok(number_to(10, u64::from(limit), text)? as u8)
}

/// A decimal number of two bytes.
pub fn word_to(limit: u16, text: &[u8]) -> Result<u16, BuildKind>
    ensures { result ≡ model.decimal_to limit text.now }
{
    Ok(number_to(10, u64::from(limit), text)? as u16)
}

/// An octal number of two bytes.
pub fn word_in(text: &[u8]) -> Result<u16, BuildKind>
    ensures { result ≡ model.word_in text.now }
{
    Ok(number_to(8, 65535, text)? as u16)
}

/// An octal number of 48 bits.
pub fn bits_in(text: &[u8]) -> Result<u64, BuildKind>
    ensures value { result ≡ model.bits_in text.now }
    ensures within { IfOk result (λ n. n < 2 ^ 48) }
{
    number_to(8, 0xFFFF_FFFF_FFFF, text)
}

// The parts between slashes: whether each is a decimal number.
fn are_parts(text: &[u8]) -> bool
    ensures { result ≡ list_all model.is_decimal (slice_split (λ b. b == 47) text.now) }
{
    let mut rest = text;
    while let Some((entry, more)) = cut(rest, b'/') {
        if !is_decimal(entry) {
            return false;
        }
        rest = more;
    }
    is_decimal(rest)
}

// What stands behind the first `/`: whether it is entries, or nothing.
fn are_entries(text: &[u8]) -> bool
    ensures { result ≡ list_all model.is_decimal (model.entries_in text.now) }
{
    text.is_empty() || are_parts(text)
}

/// Whether the field is a path, of any depth and with any entries.
pub fn is_path(text: &[u8]) -> bool
    ensures { result ≡ model.is_path_text text.now }
{
    match text {
        [] => false,
        [first, rest @ ..] => *first == b'/' && are_entries(rest),
    }
}

fn deeper(path: Path, entry: &[u8]) -> Result<Path, BuildKind>
    ensures { result ≡ model.deeper path entry.now }
{
    let n = byte_to(15, entry)?;
    if path.depth() == 7 {
        return Err(BuildKind::Range);
    }
    Ok(path.child(n).unwrap())
}

// The path with the entries of the text below it.
#[tactic(auto, using(crate::proofs::Fields::deepest_ok, crate::proofs::Fields::deepest_err, crate::proofs::Fields::deepest_last))]
fn deepest(path: Path, text: &[u8]) -> Result<Path, BuildKind>
    ensures { result ≡ model.deepest path (slice_split (λ b. b == 47) text.now) }
{
    let mut path = path;
    let mut rest = text;
    while let Some((entry, more)) = cut(rest, b'/') {
        match deeper(path, entry) {
            Ok(next) => path = next,
            Err(kind) => return Err(kind),
        }
        rest = more;
    }
    deeper(path, rest)
}

// The path with these entries, or root where there are none.
fn below_root(entries: &[u8]) -> Result<Path, BuildKind>
    ensures { result ≡ model.deepest [] (model.entries_in entries.now) }
{
    if entries.is_empty() {
        return none_below();
    }
    deepest(Path::root(), entries)
}

#[tactic(auto, unfolding(crate::specs::Fields::deepest))]
fn none_below() -> Result<Path, BuildKind>
    ensures { result ≡ model.deepest [] [] }
{
    Ok(Path::root())
}

/// The path that a field says.
pub fn path_in(text: &[u8]) -> Result<Path, BuildKind>
    ensures { result ≡ model.path_in text.now }
{
    match text {
        [] => none_below(),
        [_, entries @ ..] => below_root(entries),
    }
}

// Whether the text begins with the letter, and what follows it then.
fn letter_at(letter: u8, text: &[u8]) -> (bool, &[u8])
    ensures { (result.0, result.1.now) ≡ model.letter_at letter text.now }
{
    match text {
        [first, more @ ..] if *first == letter => (true, more),
        _ => (false, text),
    }
}

/// Whether the field is access modes.
pub fn are_modes(text: &[u8]) -> bool
    ensures { result ≡ model.are_modes text.now }
{
    let (_r, rest) = letter_at(b'r', text);
    let (_e, rest) = letter_at(b'e', rest);
    let (_w, rest) = letter_at(b'w', rest);
    let (_a, rest) = letter_at(b'a', rest);
    !text.is_empty() && rest.is_empty()
}

fn number_if(there: bool, number: u8) -> u8
    ensures value { result ≡ model.number_if there number }
    ensures most { result ≤ number }
{
    if there { number } else { 0 }
}

/// The set of the modes whose letters stand.
pub fn modes_in(text: &[u8]) -> Modes
    ensures { result ≡ model.modes_in text.now }
{
    let (r, rest) = letter_at(b'r', text);
    let (e, rest) = letter_at(b'e', rest);
    let (w, rest) = letter_at(b'w', rest);
    let (a, _rest) = letter_at(b'a', rest);
    Modes::from_bits_retain(number_if(r, 1) + number_if(e, 2) + number_if(w, 4) + number_if(a, 8))
}

/// Whether the field is a mode of the processor.
pub fn is_mode(text: &[u8]) -> bool
    ensures { result ≡ model.is_mode text.now }
{
    text == b"super".as_slice() || text == b"user".as_slice()
}

/// Which mode it is.
pub fn mode_in(text: &[u8]) -> Mode
    ensures { result ≡ model.mode_in text.now }
{
    if text == b"super".as_slice() {
        Mode::Supervisor
    } else {
        Mode::User
    }
}

/// Whether the field is a space.
pub fn is_space(text: &[u8]) -> bool
    ensures { result ≡ model.is_space text.now }
{
    text == b"i".as_slice() || text == b"d".as_slice()
}

fn are_letters(text: &[u8]) -> bool
    ensures { result ≡ list_all model.is_letter text.now }
{
    text.iter().all(|b| 97 <= *b && *b <= 122 || 48 <= *b && *b <= 57 || *b == 95)
}

/// Whether the field is a program's name.
pub fn is_name(text: &[u8]) -> bool
    ensures { result ≡ model.is_name text.now }
{
    !text.is_empty() && text.len() <= 16 && are_letters(text)
}
