ghost use Rattle.std.specs.Prelude.{◌≡◌, ◌+◌, ◌*◌, ◌<◌};
ghost use Rattle.bk_expr.specs.declared.tree.Expr.TheVariants.{Here};
ghost use Rattle.bk_expr.specs.Weight.{weight};

use bk_base::Bytes;
use std::mem;

/// What joins two terms.
#[derive(Clone, Copy, PartialEq, Eq, Debug)]
pub enum ExprOp {
    /// `+`.
    Add,
    /// `-`.
    Sub,
    /// `*`.
    Mul,
    /// `/`: unsigned, truncated.
    Div,
    /// `&`: bit by bit.
    And,
    /// `!`: bit by bit.
    Or,
}

/// An expression of assembly text. Its clauses see it as the tree `plain` of it. However deep it is, it is let go without
/// recursion on the host's stack, and takes no memory for that.
pub enum Expr {
    /// A number, or a character's byte.
    Number(u16),
    /// A name, in upper case.
    Name(Bytes),
    /// A local label, by its number.
    Local(u16),
    /// `.`: the address where the statement's words begin.
    Here,
    /// `-` before a term.
    Negate(Box<Expr>),
    /// Two parts joined.
    Binary {
        op: ExprOp,
        left: Box<Expr>,
        right: Box<Expr>,
    },
}

impl Expr {
    // Takes apart a term that has no parts.
    fn end(self)
        requires { self ≡ Here }
    {
        match self {
            Expr::Number(_) | Expr::Name(_) | Expr::Local(_) | Expr::Here => {}
            Expr::Negate(..) | Expr::Binary { .. } => unreachable!(),
        }
    }

    // `self op right`, turned to the right once, or without its left where that has no parts. The box `place` holds what is
    // turned.
    fn turned(self, op: ExprOp, mut place: Box<Expr>, right: Box<Expr>) -> Expr
        requires { place.value ≡ Here }
        ensures { weight result < 2 * weight self + weight right.value + 1 }
    {
        match self {
            Expr::Number(_) | Expr::Name(_) | Expr::Local(_) | Expr::Here => {
                Box::into_inner(place).end();
                Box::into_inner(right)
            }
            Expr::Negate(inner) => {
                Box::into_inner(place).end();
                Expr::Binary {
                    op,
                    left: inner,
                    right,
                }
            }
            Expr::Binary {
                op: _,
                left: first,
                right: second,
            } => {
                let rest = Expr::Binary {
                    op,
                    left: second,
                    right,
                };
                mem::replace(&mut *place, rest).end();
                Expr::Binary {
                    op,
                    left: first,
                    right: place,
                }
            }
        }
    }
}

// Turns the tree to the right until its left has no parts, so that it needs neither stack nor memory.
impl Drop for Expr {
    fn drop(mut self) {
        'turns: loop {
            match self {
                Expr::Number(_) | Expr::Name(_) | Expr::Local(_) | Expr::Here => return,
                Expr::Negate(inner) => self = Box::into_inner(inner),
                Expr::Binary {
                    op,
                    mut left,
                    right,
                } => self = mem::replace(&mut *left, Expr::Here).turned(op, left, right),
            }
        }
    }
}
