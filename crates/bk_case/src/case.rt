ghost use Rattle.std.specs.Prelude.{◌≡◌, ◌↔◌, ◌<◌, ◌^◌, IsTrue};
ghost use Rattle.bk_space.specs.Widths.{bits_of};
ghost use Rattle.bk_case.specs.Agrees.{Agrees};

use crate::word::{has_single, reads_as};
use bk_isa::{Bin, Instr, Un};
use bk_space::{Flags, Width};
use bk_word::{ash, ashc, binary, div, mul, unary};

/// A case with its answer: of one of the six result calls, or of a word that is decoded.
#[derive(Clone, Copy)]
pub enum Case {
    Binary {
        op: Bin,
        width: Width,
        src: u16,
        dst: u16,
        old: Flags,
        value: u16,
        flags: Flags,
    },
    Unary {
        op: Un,
        width: Width,
        dst: u16,
        old: Flags,
        value: u16,
        flags: Flags,
    },
    Mul {
        a: u16,
        b: u16,
        high: u16,
        low: u16,
        flags: Flags,
    },
    Div {
        high: u16,
        low: u16,
        by: u16,
        quotient: Option<(u16, u16)>,
        flags: Flags,
    },
    Ash {
        value: u16,
        count: u16,
        old: Flags,
        shifted: u16,
        flags: Flags,
    },
    Ashc {
        high: u16,
        low: u16,
        count: u16,
        old: Flags,
        shifted_high: u16,
        shifted_low: u16,
        flags: Flags,
    },
    Word {
        word: u16,
        instr: Option<Instr>,
    },
}

/// Whether a number is an operand of the width.
fn fits(width: Width, value: u16) -> bool
    ensures { IsTrue result ↔ (value < 2 ^ bits_of width) }
{
    match width {
        Width::Word => true,
        Width::Byte => value < 0x100,
    }
}

fn same_pair(a: (u16, Flags), b: (u16, Flags)) -> bool
    ensures { IsTrue result ↔ (a ≡ b) }
{
    a == b
}

fn same_three(a: (u16, u16, Flags), b: (u16, u16, Flags)) -> bool
    ensures { IsTrue result ↔ (a ≡ b) }
{
    a == b
}

/// Whether the project's call gives what the case says.
pub fn agrees(case: Case) -> bool
    ensures { IsTrue result ↔ Agrees case }
{
    match case {
        Case::Binary {
            op,
            width,
            src,
            dst,
            old,
            value,
            flags,
        } => {
            fits(width, src)
                && fits(width, dst)
                && same_pair(binary(op, width, src, dst, old), (value, flags))
        }
        Case::Unary {
            op,
            width,
            dst,
            old,
            value,
            flags,
        } => {
            has_single(op, width)
                && fits(width, dst)
                && same_pair(unary(op, width, dst, old), (value, flags))
        }
        Case::Mul {
            a,
            b,
            high,
            low,
            flags,
        } => same_three(mul(a, b), (high, low, flags)),
        Case::Div {
            high,
            low,
            by,
            quotient,
            flags,
        } => div(high, low, by) == (quotient, flags),
        Case::Ash {
            value,
            count,
            old,
            shifted,
            flags,
        } => same_pair(ash(value, count, old), (shifted, flags)),
        Case::Ashc {
            high,
            low,
            count,
            old,
            shifted_high,
            shifted_low,
            flags,
        } => same_three(
            ashc(high, low, count, old),
            (shifted_high, shifted_low, flags),
        ),
        Case::Word { word, instr } => reads_as(word, instr),
    }
}
