ghost use Rattle.std.specs.Prelude.{◌≡◌, ◌<◌, ◌≤◌, IfOk, IfSome, bytes_eq, codes, length, option_map};
ghost use Rattle.std.specs.Char.{is_ascii_digit, to_ascii_uppercase};
ghost use Rattle.std.specs.List.{list_all, prefix_len};
ghost use Rattle.bk_expr.specs.Names.{is_octal, register_by, register_of, register_digit, register_at, mnemonic_of};
ghost use Rattle.bk_expr.specs.Names.{begins_with_digit, is_spelt_as_name, is_reserved, is_name, name_of};
ghost use Rattle.bk_expr.specs.Names.{digits_of, after_digits, word_of_digits, number_of, local_of};
ghost use Rattle.bk_expr.specs.Text.{is_of_run};

use crate::text::{is_of_run, run, sign};
use bk_base::{Bytes, NoMemory};
use bk_isa::{Mnemonic, by_name};
use std::alloc::Global;

fn is_octal(c: u8) -> bool
    ensures { result ≡ is_octal c }
{
    b'0' <= c && c <= b'7'
}

// The register that two bytes in upper case name.
fn register_by(c: u8, d: u8) -> Option<u8>
    ensures { result ≡ register_by c d }
{
    if c == b'R' && is_octal(d) {
        Some(d - b'0')
    } else if c == b'S' && d == b'P' {
        Some(6)
    } else if c == b'P' && d == b'C' {
        Some(7)
    } else {
        None
    }
}

// The register that a run names.
fn register_of(run: &[u8]) -> Option<u8>
    ensures { result ≡ register_of run.now }
{
    match run {
        [c, d] => register_by(c.to_ascii_uppercase(), d.to_ascii_uppercase()),
        _ => None,
    }
}

// The register that a run after `%` names.
fn register_digit(run: &[u8]) -> Option<u8>
    ensures { result ≡ register_digit run.now }
{
    match run {
        [c] if is_octal(*c) => Some(*c - b'0'),
        _ => None,
    }
}

/// The register at the front of a text, blanks before it, and the text after it: `R0` to `R7`, `SP` for 6, `PC` for 7, or `%`
/// and a digit. None exactly where none stands there.
#[inline(always)]
pub fn register(text: &[u8]) -> Option<(u8, &[u8])>
    ensures value { option_map (λ front. (front.0, front.1.now)) result ≡ register_at text.now }
    ensures shorter { IfSome result (λ front. length front.1.now < length text.now) }
{
    let (word, rest) = run(text);
    if let Some(n) = register_of(word) {
        return Some((n, rest));
    }
    let (digit, rest) = run(sign(text, b'%')?);
    let n = register_digit(digit)?;
    Some((n, rest))
}

fn upper(c: &u8) -> u8
    ensures { result ≡ to_ascii_uppercase c.now }
{
    c.to_ascii_uppercase()
}

/// What a run stands for that is an instruction's word: those have 2 to 5 letters. None exactly where it is none.
#[tactic(auto, unfolding(crate::specs::Names::mnemonic_of))]
pub fn mnemonic(run: &[u8]) -> Option<Mnemonic>
    ensures { result ≡ mnemonic_of run.now }
{
    match run {
        [a, b] => by_name(&[upper(a), upper(b)]),
        [a, b, c] => by_name(&[upper(a), upper(b), upper(c)]),
        [a, b, c, d] => by_name(&[upper(a), upper(b), upper(c), upper(d)]),
        [a, b, c, d, e] => by_name(&[upper(a), upper(b), upper(c), upper(d), upper(e)]),
        _ => None,
    }
}

fn begins_with_digit(run: &[u8]) -> bool
    ensures { result ≡ begins_with_digit run.now }
{
    match run {
        [] => false,
        [c, ..] => c.is_ascii_digit(),
    }
}

fn are_of_run(run: &[u8]) -> bool
    ensures { result ≡ list_all is_of_run run.now }
{
    run.iter().all(|c| is_of_run(*c))
}

fn is_spelt_as_name(run: &[u8]) -> bool
    ensures { result ≡ is_spelt_as_name run.now }
{
    1 <= run.len() && run.len() <= 6 && are_of_run(run) && !begins_with_digit(run) && !is_point(run)
}

// Whether a run is `.` alone.
pub(crate) fn is_point(run: &[u8]) -> bool
    ensures { result ≡ bytes_eq run.now (codes ".") }
{
    matches!(run, [b'.'])
}

// Whether a run is a register's word or an instruction's.
fn is_reserved(run: &[u8]) -> bool
    ensures { result ≡ is_reserved run.now }
{
    register_of(run).is_some() || mnemonic(run).is_some()
}

/// Whether a run is a name: 1 to 6 of letters, digits, `.` and `$`, of which no digit comes first; not `.` alone, and neither
/// a register's word nor an instruction's.
#[tactic(auto, unfolding(crate::specs::Names::is_name))]
pub fn is_name(run: &[u8]) -> bool
    ensures { result ≡ is_name run.now }
{
    is_spelt_as_name(run) && !is_reserved(run)
}

/// The name that a run is, in upper case. None exactly where it is none. It takes memory for the name.
pub fn name(alloc: Global, run: &[u8]) -> Result<Option<Bytes>, NoMemory>
    ensures { IfOk result (λ name. name ≡ name_of run.now) }
{
    if !is_name(run) {
        return Ok(None);
    }
    let word = run.to_ascii_uppercase(alloc)?;
    Ok(Some(Bytes::from_vec(word)))
}

// The decimal digits at the front of a run, and what follows them.
fn digits(run: &[u8]) -> (&[u8], &[u8])
    ensures digits { result.0.now ≡ digits_of run.now }
    ensures after { result.1.now ≡ after_digits run.now }
{
    run.split_at(digits_len(run))
}

fn digits_len(run: &[u8]) -> usize
    ensures value { result ≡ prefix_len is_ascii_digit run.now }
    ensures within { result ≤ length run.now }
{
    run.iter().take_while(|c| c.is_ascii_digit()).count()
}

fn are_octal(run: &[u8]) -> bool
    ensures { result ≡ list_all is_octal run.now }
{
    run.iter().all(|c| is_octal(*c))
}

// The number that digits are to a base, where there is a digit and the number is at most 65,535.
#[tactic(auto, using(crate::proofs::Runs::value_on_le))]
fn word_of_digits(base: u8, digits: &[u8]) -> Option<u16>
    requires { 1 ≤ base }
    ensures { result ≡ word_of_digits base digits.now }
{
    if digits.is_empty() {
        return None;
    }
    let mut value = 0u32;
    for digit in digits {
        value = u32::from(base) * value + u32::from(digit.saturating_sub(b'0'));
        if value > 65535 {
            return None;
        }
    }
    Some(value as u16)
}

/// The number that a run is: octal digits, or decimal ones and a point, with leading zeros or without. None exactly where it
/// is none, or is over 65,535.
#[tactic(auto, unfolding(crate::specs::Names::number_of))]
pub fn number(run: &[u8]) -> Option<u16>
    ensures { result ≡ number_of run.now }
{
    if are_octal(run) {
        return word_of_digits(8, run);
    }
    let (digits, after) = digits(run);
    if is_point(after) {
        word_of_digits(10, digits)
    } else {
        None
    }
}

/// The local label that a run is: `1$` to `65535$`, with leading zeros or without. None exactly where it is none.
#[tactic(auto, unfolding(crate::specs::Names::local_of))]
pub fn local_label(run: &[u8]) -> Option<u16>
    ensures { result ≡ local_of run.now }
{
    let (digits, after) = digits(run);
    if !matches!(after, [b'$']) {
        return None;
    }
    match word_of_digits(10, digits) {
        Some(0) => None,
        found => found,
    }
}
