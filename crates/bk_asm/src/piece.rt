// What a statement is made of.

ghost use Rattle.std.specs.Prelude.{◌≡◌, ◌+◌, ◌<◌, ◌++◌, List, OnOk};
ghost use Rattle.bk_asm_text.specs.Flat.{operand_with};
ghost use Rattle.bk_expr.specs.Tree.{Expression};
ghost use Rattle.bk_isa.specs.Codes.{number_of};
ghost use Rattle.bk_asm.specs.Codes as codes;
ghost use Rattle.bk_asm.specs.Pieces as pieces;
ghost use Rattle.bk_asm.specs.Places.{as_value};
ghost use Rattle.bk_asm.specs.Seen.{piece_of};

use bk_asm_text::Operand;
use bk_base::NoMemory;

/// What a piece with an expression is, the expression apart: one word, but for a byte.
#[derive(Clone, Copy)]
pub(crate) enum Kind {
    /// A value.
    Value,
    /// A value less the address behind this word.
    Distance,
    /// A byte.
    Byte,
    /// A branch, by its word without offset; the expression is where it goes.
    Branch(u16),
    /// SOB, by its word without offset; the expression is where it goes.
    Back(u16),
    /// A word without its number, and the limit of the number.
    Number(u16, u16),
}

/// The field of an operand.
#[inline(always)]
pub(crate) fn field(operand: Operand) -> u16
    ensures value { (values : List Expression) → result ≡ number_of (pieces.field_of (operand_with operand values)) }
    ensures small { result < 512 }
{
    let (mode, reg) = match operand {
        Operand::Reg(reg) => (0, reg),
        Operand::Deferred(reg) => (1, reg),
        Operand::Inc(reg) => (2, reg),
        Operand::IncDeferred(reg) => (3, reg),
        Operand::Dec(reg) => (4, reg),
        Operand::DecDeferred(reg) => (5, reg),
        Operand::Index(reg) => (6, reg),
        Operand::IndexDeferred(reg) => (7, reg),
        Operand::IndexZero(reg) => (7, reg),
        Operand::Immediate => (2, 7),
        Operand::Absolute => (3, 7),
        Operand::Relative => (6, 7),
        Operand::RelativeDeferred => (7, 7),
    };
    mode * 8 + u16::from(reg)
}

/// An instruction's word with a field at bit 6 and one at bit 0.
#[inline(always)]
pub(crate) fn with_fields(base: u16, high: u16, low: u16) -> u16
    requires high { high < 512 }
    requires low { low < 512 }
    ensures { result ≡ pieces.with_fields base high low }
{
    base.wrapping_add(high * 64 + low)
}

// From an address to another, modulo 65,536.
#[inline(always)]
fn distance(from: u16, to: u16) -> u16
    ensures { result ≡ codes.distance from to }
{
    to.wrapping_sub(from)
}

/// Whether the number of a piece is in the range of its field.
#[inline(always)]
pub(crate) fn is_in_range(kind: Kind, here: u16, n: u16) -> bool
    ensures { (value : Expression) → result ≡ codes.is_in_range here (piece_of kind value) n }
{
    match kind {
        Kind::Value | Kind::Distance => true,
        Kind::Byte => n < 0o400 || n >= 0o177600,
        Kind::Branch(_) => {
            let words = distance(here.wrapping_add(2), n);
            words % 2 == 0 && (words <= 254 || words >= 0xFF00)
        }
        Kind::Back(_) => {
            let words = distance(n, here.wrapping_add(2));
            words % 2 == 0 && words <= 126
        }
        Kind::Number(_, limit) => n < limit,
    }
}

/// The address behind a piece at another.
#[inline(always)]
pub(crate) fn behind(kind: Kind, at: u16) -> u16
    ensures { (value : Expression) → result ≡ as_value (at + pieces.size_of (piece_of kind value)) }
{
    match kind {
        Kind::Byte => at.wrapping_add(1),
        _ => at.wrapping_add(2),
    }
}

/// Bytes behind others.
pub(crate) fn push_bytes(out: &mut Vec<u8>, bytes: &[u8]) -> Result<(), NoMemory>
    ensures { OnOk result (out.new.items ≡ out.old.items ++ bytes.now) }
{
    let Ok(()) = out.extend_from_slice(bytes) else {
        return Err(NoMemory);
    };
    Ok(())
}

/// The bytes of a word behind others, low byte first.
#[inline(always)]
pub(crate) fn push_word(out: &mut Vec<u8>, n: u16) -> Result<(), NoMemory>
    ensures { OnOk result (out.new.items ≡ out.old.items ++ codes.word_bytes n) }
{
    push_bytes(out, &[(n % 256) as u8, (n / 256) as u8])
}

/// The bytes of a piece at an address, by its number, behind others.
#[inline(always)]
pub(crate) fn push_piece(out: &mut Vec<u8>, kind: Kind, at: u16, n: u16) -> Result<(), NoMemory>
    ensures { (value : Expression) → OnOk result (out.new.items ≡ out.old.items ++ codes.bytes_at at (piece_of kind value) n) }
{
    let word = match kind {
        Kind::Value => n,
        Kind::Byte => return push_bytes(out, &[(n % 256) as u8]),
        Kind::Distance => distance(at.wrapping_add(2), n),
        Kind::Branch(base) => {
            let words = distance(at.wrapping_add(2), n) / 2 % 256;
            base.wrapping_add(words)
        }
        Kind::Back(base) => {
            let words = distance(n, at.wrapping_add(2)) / 2;
            base.wrapping_add(words)
        }
        Kind::Number(base, _) => base.wrapping_add(n),
    };
    push_word(out, word)
}
