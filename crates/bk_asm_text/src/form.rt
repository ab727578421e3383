// The fields of instructions, one function a form.

ghost use Rattle.std.specs.Prelude.{◌≡◌, [], map, option_map, IfOk};
ghost use Rattle.bk_expr.specs.Tree.{plain};
ghost use Rattle.bk_isa.specs.declared.mnemonic.Form.TheVariants as form;
ghost use Rattle.bk_asm_text.specs.Flat.{body_with, operand_with};
ghost use Rattle.bk_asm_text.specs.Forms.{fields_at, first_register_at, source_at};
ghost use Rattle.bk_asm_text.specs.Operands.{operand_at};
ghost use Rattle.bk_asm_text.specs.Read.{OperandRead};

use crate::operand::{Operand, read_operand};
use crate::part::is_end;
use crate::statement::Body;
use crate::value::with_value;
use bk_base::NoMemory;
use bk_expr::{Expr, register, sign};
use bk_isa::{Form, Mnemonic};
use std::alloc::Global;

// The only operand of a statement with an expression, if it has one.
#[inline(always)]
#[tactic(auto, using(crate::proofs::Reading::lone))]
fn lone_operand<'a>(
    alloc: Global,
    values: &mut Vec<Expr>,
    text: &'a [u8],
) -> Result<Option<(Operand, &'a [u8])>, NoMemory>
    requires { values.old.items ≡ [] }
    ensures { IfOk result (λ read. option_map (λ x. (operand_with x.0 (map plain values.new.items), x.1.now)) read ≡ operand_at text.now) }
{
    read_operand(alloc, values, text)
}

// `src,` and the text after it.
#[inline(always)]
#[tactic(auto, unfolding(crate::specs::Forms::source_at))]
fn source<'a>(
    alloc: Global,
    values: &mut Vec<Expr>,
    text: &'a [u8],
) -> Result<Option<(Operand, &'a [u8])>, NoMemory>
    ensures { IfOk result (λ read. OperandRead (map plain values.old.items) (map plain values.new.items) (option_map (λ x. (x.0, x.1.now)) read) (source_at text.now)) }
{
    let Some((src, rest)) = read_operand(alloc, values, text)? else {
        return Ok(None);
    };
    match sign(rest, b',') {
        None => Ok(None),
        Some(rest) => Ok(Some((src, rest))),
    }
}

// `R,` and the text after it.
#[tactic(auto, unfolding(crate::specs::Forms::first_register_at))]
fn first_register(text: &[u8]) -> Option<(u8, &[u8])>
    ensures { option_map (λ read. (read.0, read.1.now)) result ≡ first_register_at text.now }
{
    let (reg, rest) = register(text)?;
    Some((reg, sign(rest, b',')?))
}

// `src,dst`.
#[inline(never)]
#[tactic(auto, unfolding(crate::specs::Forms::fields_at))]
fn double<'a>(
    alloc: Global,
    values: &mut Vec<Expr>,
    base: u16,
    text: &'a [u8],
) -> Result<Option<(Body<'a>, &'a [u8])>, NoMemory>
    requires { values.old.items ≡ [] }
    ensures { IfOk result (λ read. option_map (λ x. (body_with x.0 (map plain values.new.items), x.1.now)) read ≡ fields_at form.Double base text.now) }
{
    let Some((src, rest)) = source(alloc, values, text)? else {
        return Ok(None);
    };
    let Some((dst, rest)) = read_operand(alloc, values, rest)? else {
        return Ok(None);
    };
    Ok(Some((Body::Double { base, src, dst }, rest)))
}

// `src,R`.
#[inline(never)]
#[tactic(auto, unfolding(crate::specs::Forms::fields_at))]
fn eis<'a>(
    alloc: Global,
    values: &mut Vec<Expr>,
    base: u16,
    text: &'a [u8],
) -> Result<Option<(Body<'a>, &'a [u8])>, NoMemory>
    requires { values.old.items ≡ [] }
    ensures { IfOk result (λ read. option_map (λ x. (body_with x.0 (map plain values.new.items), x.1.now)) read ≡ fields_at form.Eis base text.now) }
{
    let Some((src, rest)) = source(alloc, values, text)? else {
        return Ok(None);
    };
    let Some((reg, rest)) = register(rest) else {
        return Ok(None);
    };
    Ok(Some((Body::Eis { base, src, reg }, rest)))
}

// `R,dst` of XOR.
#[inline(never)]
#[tactic(auto, unfolding(crate::specs::Forms::fields_at))]
fn xor<'a>(
    alloc: Global,
    values: &mut Vec<Expr>,
    base: u16,
    text: &'a [u8],
) -> Result<Option<(Body<'a>, &'a [u8])>, NoMemory>
    requires { values.old.items ≡ [] }
    ensures { IfOk result (λ read. option_map (λ x. (body_with x.0 (map plain values.new.items), x.1.now)) read ≡ fields_at form.Xor base text.now) }
{
    let Some((reg, rest)) = first_register(text) else {
        return Ok(None);
    };
    let Some((dst, rest)) = lone_operand(alloc, values, rest)? else {
        return Ok(None);
    };
    Ok(Some((Body::Xor { reg, dst }, rest)))
}

// `R,dst` of JSR.
#[inline(never)]
#[tactic(auto, unfolding(crate::specs::Forms::fields_at))]
fn jsr<'a>(
    alloc: Global,
    values: &mut Vec<Expr>,
    base: u16,
    text: &'a [u8],
) -> Result<Option<(Body<'a>, &'a [u8])>, NoMemory>
    requires { values.old.items ≡ [] }
    ensures { IfOk result (λ read. option_map (λ x. (body_with x.0 (map plain values.new.items), x.1.now)) read ≡ fields_at form.Jsr base text.now) }
{
    let Some((reg, rest)) = first_register(text) else {
        return Ok(None);
    };
    let Some((dst, rest)) = lone_operand(alloc, values, rest)? else {
        return Ok(None);
    };
    Ok(Some((Body::Jsr { reg, dst }, rest)))
}

// `dst`.
#[inline(never)]
#[tactic(auto, unfolding(crate::specs::Forms::fields_at))]
fn single<'a>(
    alloc: Global,
    values: &mut Vec<Expr>,
    base: u16,
    text: &'a [u8],
) -> Result<Option<(Body<'a>, &'a [u8])>, NoMemory>
    requires { values.old.items ≡ [] }
    ensures { IfOk result (λ read. option_map (λ x. (body_with x.0 (map plain values.new.items), x.1.now)) read ≡ fields_at form.Single base text.now) }
{
    let Some((dst, rest)) = lone_operand(alloc, values, text)? else {
        return Ok(None);
    };
    Ok(Some((Body::Single { base, dst }, rest)))
}

// `R` of RTS.
#[inline(never)]
#[tactic(auto, unfolding(crate::specs::Forms::fields_at))]
fn rts(base: u16, text: &[u8]) -> Option<(Body<'_>, &[u8])>
    ensures { option_map (λ x. (body_with x.0 [], x.1.now)) result ≡ fields_at form.Rts base text.now }
{
    let (reg, rest) = register(text)?;
    Some((Body::Rts { reg }, rest))
}

// `R,E` of SOB.
#[inline(never)]
#[tactic(auto, unfolding(crate::specs::Forms::fields_at))]
fn sob<'a>(
    alloc: Global,
    values: &mut Vec<Expr>,
    base: u16,
    text: &'a [u8],
) -> Result<Option<(Body<'a>, &'a [u8])>, NoMemory>
    requires { values.old.items ≡ [] }
    ensures { IfOk result (λ read. option_map (λ x. (body_with x.0 (map plain values.new.items), x.1.now)) read ≡ fields_at form.Sob base text.now) }
{
    let Some((reg, rest)) = first_register(text) else {
        return Ok(None);
    };
    with_value(alloc, values, Body::Sob { reg }, rest)
}

// `E` of a branch.
#[inline(never)]
#[tactic(auto, unfolding(crate::specs::Forms::fields_at))]
fn branch<'a>(
    alloc: Global,
    values: &mut Vec<Expr>,
    base: u16,
    text: &'a [u8],
) -> Result<Option<(Body<'a>, &'a [u8])>, NoMemory>
    requires { values.old.items ≡ [] }
    ensures { IfOk result (λ read. option_map (λ x. (body_with x.0 (map plain values.new.items), x.1.now)) read ≡ fields_at form.Branch base text.now) }
{
    with_value(alloc, values, Body::Branch { base }, text)
}

// `E` of MARK.
#[inline(never)]
#[tactic(auto, unfolding(crate::specs::Forms::fields_at))]
fn mark<'a>(
    alloc: Global,
    values: &mut Vec<Expr>,
    base: u16,
    text: &'a [u8],
) -> Result<Option<(Body<'a>, &'a [u8])>, NoMemory>
    requires { values.old.items ≡ [] }
    ensures { IfOk result (λ read. option_map (λ x. (body_with x.0 (map plain values.new.items), x.1.now)) read ≡ fields_at form.Mark base text.now) }
{
    with_value(alloc, values, Body::Mark, text)
}

// `E` of SPL.
#[inline(never)]
#[tactic(auto, unfolding(crate::specs::Forms::fields_at))]
fn spl<'a>(
    alloc: Global,
    values: &mut Vec<Expr>,
    base: u16,
    text: &'a [u8],
) -> Result<Option<(Body<'a>, &'a [u8])>, NoMemory>
    requires { values.old.items ≡ [] }
    ensures { IfOk result (λ read. option_map (λ x. (body_with x.0 (map plain values.new.items), x.1.now)) read ≡ fields_at form.Spl base text.now) }
{
    with_value(alloc, values, Body::Spl, text)
}

// `E` of EMT or TRAP, or nothing.
#[inline(never)]
#[tactic(auto, unfolding(crate::specs::Forms::fields_at))]
fn number<'a>(
    alloc: Global,
    values: &mut Vec<Expr>,
    base: u16,
    text: &'a [u8],
) -> Result<Option<(Body<'a>, &'a [u8])>, NoMemory>
    requires { values.old.items ≡ [] }
    ensures { IfOk result (λ read. option_map (λ x. (body_with x.0 (map plain values.new.items), x.1.now)) read ≡ fields_at form.Number base text.now) }
{
    if is_end(text) {
        return Ok(Some((Body::Number { base, given: false }, text)));
    }
    with_value(alloc, values, Body::Number { base, given: true }, text)
}

/// The fields of an instruction, from behind its name on.
#[inline(always)]
#[tactic(auto, unfolding(crate::specs::Forms::fields_at))]
pub(crate) fn read_fields<'a>(
    alloc: Global,
    values: &mut Vec<Expr>,
    mnemonic: Mnemonic,
    text: &'a [u8],
) -> Result<Option<(Body<'a>, &'a [u8])>, NoMemory>
    requires { values.old.items ≡ [] }
    ensures { IfOk result (λ read. option_map (λ x. (body_with x.0 (map plain values.new.items), x.1.now)) read ≡ fields_at mnemonic.form mnemonic.base text.now) }
{
    let base = mnemonic.base;
    match mnemonic.form {
        Form::Double => double(alloc, values, base, text),
        Form::Eis => eis(alloc, values, base, text),
        Form::Xor => xor(alloc, values, base, text),
        Form::Jsr => jsr(alloc, values, base, text),
        Form::Single => single(alloc, values, base, text),
        Form::Rts => Ok(rts(base, text)),
        Form::Sob => sob(alloc, values, base, text),
        Form::Branch => branch(alloc, values, base, text),
        Form::Mark => mark(alloc, values, base, text),
        Form::Spl => spl(alloc, values, base, text),
        Form::Number => number(alloc, values, base, text),
        Form::Alone => Ok(Some((Body::Alone { base }, text))),
    }
}
