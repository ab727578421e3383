// What expressions come to where a statement stands.

ghost use Rattle.std.specs.Prelude.{◌≡◌, map, IfOk};
ghost use Rattle.bk_asm_text.specs.Flat.{first};
ghost use Rattle.bk_expr.specs.Tree.{plain};
ghost use Rattle.bk_expr.specs.Value.{worked};
ghost use Rattle.bk_asm.specs.Seen.{given_by};

use crate::table::Scope;
use bk_asm_text::Expr;
use bk_base::NoMemory;
use bk_expr::{Worked, value_of};
use std::alloc::Global;

/// What the expressions of a statement are worked with: the values in its range, and its address.
#[derive(Clone, Copy)]
pub(crate) struct Site<'a> {
    pub(crate) alloc: Global,
    pub(crate) scope: Scope<'a>,
    pub(crate) here: u16,
}

impl Site<'_> {
    /// What an expression comes to.
    pub(crate) fn worked(&self, value: &Expr) -> Result<Worked, NoMemory>
        ensures { IfOk result (λ found. found ≡ worked (given_by self.now.scope) self.now.here (plain value.now)) }
    {
        value_of(self.alloc, value, &self.scope, self.here)
    }

    /// What the first of a statement's expressions comes to; where there is none, `.`.
    pub(crate) fn first_worked(&self, values: &[Expr]) -> Result<Worked, NoMemory>
        ensures { IfOk result (λ found. found ≡ worked (given_by self.now.scope) self.now.here (first (map plain values.now))) }
    {
        match values {
            [] => Ok(Worked::Value(self.here)),
            [value, ..] => self.worked(value),
        }
    }
}
