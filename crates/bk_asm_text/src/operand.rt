// Operands: the eight modes of addressing by a register, and the four by the program counter.

ghost use Rattle.std.specs.Prelude.{◌≡◌, [], false, length, map, option_map, IfOk, IfSome, List};
ghost use Rattle.bk_asm_text.specs.Addressing as addressing;
ghost use Rattle.bk_asm_text.specs.Flat.{has_value, operand_with};
ghost use Rattle.bk_asm_text.specs.Operands.{operand_at};
ghost use Rattle.bk_asm_text.specs.Read.{at_by, deferred_if, indexed_by, OperandRead};
ghost use Rattle.bk_expr.specs.Text.{sign_at};
ghost use Rattle.bk_expr.specs.Tree.{Expression, plain};

use crate::part::is_operand_end;
use crate::value::read_value;
use bk_base::NoMemory;
use bk_expr::{Expr, register, sign};
use std::alloc::Global;

/// An operand, in the order of the rows of addressing. `R` is a register and `E` the next of the statement's expressions.
#[derive(Clone, Copy)]
pub enum Operand {
    /// `R`.
    Reg(u8),
    /// `(R)` or `@R`.
    Deferred(u8),
    /// `(R)+`.
    Inc(u8),
    /// `@(R)+`.
    IncDeferred(u8),
    /// `-(R)`.
    Dec(u8),
    /// `@-(R)`.
    DecDeferred(u8),
    /// `E(R)`.
    Index(u8),
    /// `@E(R)`.
    IndexDeferred(u8),
    /// `@(R)`: deferred through the index 0.
    IndexZero(u8),
    /// `#E`.
    Immediate,
    /// `@#E`.
    Absolute,
    /// `E`.
    Relative,
    /// `@E`.
    RelativeDeferred,
}

// `(R)`.
#[inline(always)]
#[tactic(auto, unfolding(crate::specs::Addressing::enclosed_at))]
fn enclosed(text: &[u8]) -> Option<(u8, &[u8])>
    ensures { option_map (λ read. (read.0, read.1.now)) result ≡ addressing.enclosed_at text.now }
{
    let opened = sign(text, b'(')?;
    let (reg, rest) = register(opened)?;
    let closed = sign(rest, b')')?;
    Some((reg, closed))
}

// `(R)+`, or `(R)` where no + follows.
fn stepped(reg: u8, text: &[u8]) -> (Operand, &[u8])
    ensures value { (operand_with result.0 [], result.1.now) ≡ addressing.stepped reg text.now (sign_at 43 text.now) }
    ensures alone { has_value result.0 ≡ false }
{
    match sign(text, b'+') {
        None => (Operand::Deferred(reg), text),
        Some(rest) => (Operand::Inc(reg), rest),
    }
}

// `R`, `(R)`, `(R)+` or `-(R)`.
#[tactic(auto, unfolding(crate::specs::Addressing::register_operand_at))]
fn register_operand(text: &[u8]) -> Option<(Operand, &[u8])>
    ensures value { option_map (λ read. (operand_with read.0 [], read.1.now)) result ≡ addressing.register_operand_at text.now }
    ensures alone { IfSome result (λ read. has_value read.0 ≡ false) }
{
    if let Some((reg, rest)) = register(text) {
        return Some((Operand::Reg(reg), rest));
    }
    if let Some((reg, rest)) = enclosed(text) {
        return Some(stepped(reg, rest));
    }
    let (reg, rest) = enclosed(sign(text, b'-')?)?;
    Some((Operand::Dec(reg), rest))
}

// .. where it ends.
#[tactic(auto, unfolding(crate::specs::Addressing::closed))]
fn closed_register_operand(text: &[u8]) -> Option<(Operand, &[u8])>
    ensures value { option_map (λ read. (operand_with read.0 [], read.1.now)) result ≡ addressing.closed (addressing.register_operand_at text.now) }
    ensures alone { IfSome result (λ read. has_value read.0 ≡ false) }
{
    match register_operand(text) {
        Some((operand, rest)) if is_operand_end(rest) => Some((operand, rest)),
        _ => None,
    }
}

// `E(R)`, or `E` where no register in brackets follows, from behind E on.
fn indexed(text: &[u8]) -> (Operand, &[u8])
    ensures { (result.0, result.1.now) ≡ indexed_by text.now (addressing.enclosed_at text.now) }
{
    match enclosed(text) {
        None => (Operand::Relative, text),
        Some((reg, rest)) => (Operand::Index(reg), rest),
    }
}

// `#E`, from behind the # on.
#[tactic(auto, using(crate::proofs::Reading::immediate_none, crate::proofs::Reading::immediate_some))]
fn immediate<'a>(
    alloc: Global,
    values: &mut Vec<Expr>,
    text: &'a [u8],
) -> Result<Option<(Operand, &'a [u8])>, NoMemory>
    ensures { IfOk result (λ read. OperandRead (map plain values.old.items) (map plain values.new.items) (option_map (λ x. (x.0, x.1.now)) read) (addressing.value_after (Some text.now) text.now)) }
{
    let Some(rest) = read_value(alloc, values, text)? else {
        return Ok(None);
    };
    Ok(Some((Operand::Immediate, rest)))
}

// `#E`, `E(R)` or `E`.
fn value_operand<'a>(
    alloc: Global,
    values: &mut Vec<Expr>,
    text: &'a [u8],
) -> Result<Option<(Operand, &'a [u8])>, NoMemory>
    ensures { IfOk result (λ read. OperandRead (map plain values.old.items) (map plain values.new.items) (option_map (λ x. (x.0, x.1.now)) read) (addressing.value_operand_at text.now)) }
{
    if let Some(rest) = sign(text, b'#') {
        return immediate(alloc, values, rest);
    }
    let Some(rest) = read_value(alloc, values, text)? else {
        return Ok(None);
    };
    Ok(Some(indexed(rest)))
}

// An operand without @.
fn direct<'a>(
    alloc: Global,
    values: &mut Vec<Expr>,
    text: &'a [u8],
) -> Result<Option<(Operand, &'a [u8])>, NoMemory>
    ensures { IfOk result (λ read. OperandRead (map plain values.old.items) (map plain values.new.items) (option_map (λ x. (x.0, x.1.now)) read) (addressing.direct_at text.now)) }
{
    if let Some((operand, rest)) = closed_register_operand(text) {
        return Ok(Some((operand, rest)));
    }
    let Some((operand, rest)) = value_operand(alloc, values, text)? else {
        return Ok(None);
    };
    if !is_operand_end(rest) {
        return Ok(None);
    }
    Ok(Some((operand, rest)))
}

// Whether @ stands first, and the text behind it.
#[inline(always)]
fn past_at(text: &[u8]) -> (bool, &[u8])
    ensures { (result.0, result.1.now) ≡ at_by (sign_at 64 text.now) text.now }
{
    match sign(text, b'@') {
        None => (false, text),
        Some(rest) => (true, rest),
    }
}

// The operand that one is behind @; one that is deferred stays.
fn deferred(operand: Operand) -> Operand
    ensures with { (values : List Expression) → operand_with result values ≡ addressing.deferred (operand_with operand values) }
    ensures same { has_value result ≡ has_value operand }
{
    match operand {
        Operand::Reg(reg) => Operand::Deferred(reg),
        Operand::Deferred(reg) => Operand::IndexZero(reg),
        Operand::Inc(reg) => Operand::IncDeferred(reg),
        Operand::Dec(reg) => Operand::DecDeferred(reg),
        Operand::Index(reg) => Operand::IndexDeferred(reg),
        Operand::Immediate => Operand::Absolute,
        Operand::Relative => Operand::RelativeDeferred,
        other => other,
    }
}

// An operand, behind @ or not.
fn behind(at: bool, operand: Operand) -> Operand
    ensures with { (values : List Expression) → operand_with result values ≡ deferred_if at (operand_with operand values) }
    ensures same { has_value result ≡ has_value operand }
{
    if at { deferred(operand) } else { operand }
}

/// The operand at the front of a text, where it ends there; its expression behind those of its statement.
pub(crate) fn read_operand<'a>(
    alloc: Global,
    values: &mut Vec<Expr>,
    text: &'a [u8],
) -> Result<Option<(Operand, &'a [u8])>, NoMemory>
    ensures { IfOk result (λ read. OperandRead (map plain values.old.items) (map plain values.new.items) (option_map (λ x. (x.0, x.1.now)) read) (operand_at text.now)) }
{
    let (at, rest) = past_at(text);
    let Some((operand, rest)) = direct(alloc, values, rest)? else {
        return Ok(None);
    };
    Ok(Some((behind(at, operand), rest)))
}
