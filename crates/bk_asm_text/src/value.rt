// Expressions of a statement, each read behind those before it.

ghost use Rattle.std.specs.Prelude.{◌≡◌, ◌<◌, ◌∷◌, ◌++◌, [], length, map, option_map, IfOk, IfNone, IfSome, OnOk};
ghost use Rattle.bk_expr.specs.Expression.{expression_at};
ghost use Rattle.bk_expr.specs.Tree.{plain};
ghost use Rattle.bk_asm_text.specs.Flat.{body_with};
ghost use Rattle.bk_asm_text.specs.Read.{ValueRead, with_value_at};

use crate::statement::Body;
use bk_base::NoMemory;
use bk_expr::{Expr, read_expression};
use std::alloc::{AllocFailed, Global};

// What an expression that finds no room ends in; apart, as it is seldom.
#[inline(never)]
fn no_room(_value: AllocFailed<Expr>) -> NoMemory {
    NoMemory
}

// An expression behind others.
fn push(values: &mut Vec<Expr>, value: Expr) -> Result<(), NoMemory>
    ensures { OnOk result (map plain values.new.items ≡ map plain values.old.items ++ plain value ∷ []) }
{
    match values.push(value) {
        Ok(()) => Ok(()),
        Err(failed) => Err(no_room(failed)),
    }
}

/// The expression at the front of a text, put behind those of its statement; and the text after it.
#[tactic(auto, using(crate::proofs::Reading::value_read))]
pub(crate) fn read_value<'a>(
    alloc: Global,
    values: &mut Vec<Expr>,
    text: &'a [u8],
) -> Result<Option<&'a [u8]>, NoMemory>
    ensures value { IfOk result (λ read. ValueRead (map plain values.old.items) (map plain values.new.items) (option_map (λ rest. rest.now) read) (expression_at text.now)) }
    ensures same { IfOk result (λ read. IfNone read (values.new.items ≡ values.old.items)) }
    ensures shorter { IfOk result (λ read. IfSome read (λ rest. length rest.now < length text.now)) }
{
    let Some((value, rest)) = read_expression(alloc, text)? else {
        return Ok(None);
    };
    push(values, value)?;
    Ok(Some(rest))
}

/// A statement whose only expression stands at the front of a text; and the text after it.
pub(crate) fn with_value<'a>(
    alloc: Global,
    values: &mut Vec<Expr>,
    body: Body<'a>,
    text: &'a [u8],
) -> Result<Option<(Body<'a>, &'a [u8])>, NoMemory>
    requires { values.old.items ≡ [] }
    ensures { IfOk result (λ read. option_map (λ x. (body_with x.0 (map plain values.new.items), x.1.now)) read ≡ with_value_at body.entry text.now) }
{
    let Some(rest) = read_value(alloc, values, text)? else {
        return Ok(None);
    };
    Ok(Some((body, rest)))
}
