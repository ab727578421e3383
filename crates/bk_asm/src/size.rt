// How long a statement is by its form.

ghost use Rattle.std.specs.Prelude.{◌≡◌, ◌≤◌, ◌+◌, ◌*◌, List, if◌then◌else◌, map, sum_by, IfSome};
ghost use Rattle.bk_expr.specs.Tree.{Expression, plain};
ghost use Rattle.bk_asm_text.specs.Flat.{body_with, operand_with};
ghost use Rattle.bk_asm.specs.Pieces as pieces;
ghost use Rattle.bk_asm.specs.Seen.{at_most};

use bk_asm_text::{Body, Expr, Operand};

// How many bytes the word behind the instruction's has.
#[inline(always)]
fn operand_size(operand: Operand) -> u32
    ensures value { (values : List Expression) → result ≡ sum_by pieces.size_of (pieces.operand_word (operand_with operand values)) }
    ensures small { result ≤ 2 }
{
    match operand {
        Operand::Reg(_)
        | Operand::Deferred(_)
        | Operand::Inc(_)
        | Operand::IncDeferred(_)
        | Operand::Dec(_)
        | Operand::DecDeferred(_) => 0,
        Operand::Index(_)
        | Operand::IndexDeferred(_)
        | Operand::Immediate
        | Operand::Absolute
        | Operand::Relative
        | Operand::RelativeDeferred => 2,
        Operand::IndexZero(_) => 2,
    }
}

// So many words, where they have at most 8,192 bytes.
fn words(count: usize) -> Option<u32>
    ensures size { result ≡ at_most (2 * count) }
    ensures few { IfSome result (λ size. size ≤ 8192) }
{
    if count > 4096 {
        None
    } else {
        Some(2 * count as u32)
    }
}

// So many bytes and one more, where they are at most 8,192.
fn bytes(count: usize, more: bool) -> Option<u32>
    ensures size { result ≡ at_most (count + (if more then 1 else 0)) }
    ensures few { IfSome result (λ size. size ≤ 8192) }
{
    if count > 8192 {
        return None;
    }
    let size = count as u32 + u32::from(more);
    if size > 8192 { None } else { Some(size) }
}

/// The size of a statement by its form, where it is at most 8,192 bytes.
#[tactic(auto, using(crate::proofs::Sizes::values_size, crate::proofs::Sizes::bytes_size))]
#[inline(always)]
pub(crate) fn form_size(body: &Body<'_>, values: &[Expr]) -> Option<u32>
    ensures size { result ≡ at_most (pieces.form_size (body_with body.now (map plain values.now))) }
    ensures few { IfSome result (λ size. size ≤ 8192) }
{
    match *body {
        Body::Nothing | Body::Assign { .. } | Body::Blkw | Body::Even => Some(0),
        Body::Double { src, dst, .. } => Some(2 + operand_size(src) + operand_size(dst)),
        Body::Eis { src, .. } => Some(2 + operand_size(src)),
        Body::Xor { dst, .. } | Body::Jsr { dst, .. } | Body::Single { dst, .. } => {
            Some(2 + operand_size(dst))
        }
        Body::Rts { .. }
        | Body::Sob { .. }
        | Body::Branch { .. }
        | Body::Mark
        | Body::Spl
        | Body::Number { .. }
        | Body::Alone { .. } => Some(2),
        Body::WordList => words(values.len()),
        Body::ByteList => bytes(values.len(), false),
        Body::Ascii { text, zero } => bytes(text.len(), zero),
    }
}
