use crate::instr::instr_in;
use crate::names::{DOUBLES, SINGLES, WIDTHS, named};
use crate::numbers::{flags_in, octal, octal_in, octals};
use bk_case::Case;
use bk_space::Flags;
use std::str::SplitWhitespace;

// A word and the condition codes after it.
fn result_in(words: &mut SplitWhitespace<'_>) -> Option<(u16, Flags)> {
    Some((octal_in(words)?, flags_in(words)?))
}

fn binary_in(words: &mut SplitWhitespace<'_>) -> Option<Case> {
    let op = named(&DOUBLES, words)?;
    let width = named(&WIDTHS, words)?;
    let [src, dst] = octals::<2>(words)?;
    let old = flags_in(words)?;
    let (value, flags) = result_in(words)?;
    Some(Case::Binary {
        op,
        width,
        src,
        dst,
        old,
        value,
        flags,
    })
}

fn unary_in(words: &mut SplitWhitespace<'_>) -> Option<Case> {
    let op = named(&SINGLES, words)?;
    let width = named(&WIDTHS, words)?;
    let (dst, old) = result_in(words)?;
    let (value, flags) = result_in(words)?;
    Some(Case::Unary {
        op,
        width,
        dst,
        old,
        value,
        flags,
    })
}

fn mul_in(words: &mut SplitWhitespace<'_>) -> Option<Case> {
    let [a, b, high, low] = octals::<4>(words)?;
    Some(Case::Mul {
        a,
        b,
        high,
        low,
        flags: flags_in(words)?,
    })
}

// Quotient and remainder, or `none`.
fn quotient_in(words: &mut SplitWhitespace<'_>) -> Option<Option<(u16, u16)>> {
    match words.next()? {
        "none" => Some(None),
        quotient => Some(Some((octal(quotient)?, octal_in(words)?))),
    }
}

fn div_in(words: &mut SplitWhitespace<'_>) -> Option<Case> {
    let [high, low, by] = octals::<3>(words)?;
    Some(Case::Div {
        high,
        low,
        by,
        quotient: quotient_in(words)?,
        flags: flags_in(words)?,
    })
}

fn ash_in(words: &mut SplitWhitespace<'_>) -> Option<Case> {
    let [value, count] = octals::<2>(words)?;
    let old = flags_in(words)?;
    let (shifted, flags) = result_in(words)?;
    Some(Case::Ash {
        value,
        count,
        old,
        shifted,
        flags,
    })
}

fn ashc_in(words: &mut SplitWhitespace<'_>) -> Option<Case> {
    let [high, low, count] = octals::<3>(words)?;
    let old = flags_in(words)?;
    let [shifted_high, shifted_low] = octals::<2>(words)?;
    Some(Case::Ashc {
        high,
        low,
        count,
        old,
        shifted_high,
        shifted_low,
        flags: flags_in(words)?,
    })
}

// A word and how it is read.
fn word_in(word: &str, words: &mut SplitWhitespace<'_>) -> Option<Case> {
    Some(Case::Word {
        word: octal(word)?,
        instr: instr_in(words)?,
    })
}

fn case_in(words: &mut SplitWhitespace<'_>) -> Option<Case> {
    match words.next()? {
        "binary" => binary_in(words),
        "unary" => unary_in(words),
        "mul" => mul_in(words),
        "div" => div_in(words),
        "ash" => ash_in(words),
        "ashc" => ashc_in(words),
        word => word_in(word, words),
    }
}

/// The case that a line spells, numbers being octal and flags four digits; None where it spells none.
pub fn read_case(line: &str) -> Option<Case> {
    let mut words = line.split_whitespace();
    let case = case_in(&mut words)?;
    match words.next() {
        None => Some(case),
        Some(_) => None,
    }
}
