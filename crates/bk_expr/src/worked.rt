ghost use Rattle.std.specs.Prelude.{◌≡◌, ◌<◌, ◌+◌, ℕ, List, Option, is_some, IfOk, OnOk, if◌then◌else◌};
ghost use Rattle.bk_expr.specs.declared.worked.Worked.{Worked};
ghost use Rattle.bk_expr.specs.declared.worked.Worked.TheVariants.{Undefined};
ghost use Rattle.bk_expr.specs.Tree.{plain};
ghost use Rattle.bk_expr.specs.Value.{Values, join, or_divide, worked};
ghost use Rattle.bk_expr.specs.Working.{joined, negated, through, through_all, worked_by, left_in, left_by, left_at, left_of};

use crate::tree::{Expr, ExprOp};
use bk_base::NoMemory;
use std::alloc::Global;

/// What an expression comes to.
#[derive(Clone, Copy, PartialEq, Eq, Debug)]
pub enum Worked {
    /// Its value, modulo 65,536.
    Value(u16),
    /// A name or a local label in it has no value.
    Undefined,
    /// All have values, and it divides by 0.
    Divide,
}

/// What gives names and local labels their values.
pub trait Names {
    /// The values that it gives.
    ghost values: { Self → Values };

    /// The value of a name in upper case: None exactly where it has none.
    fn name(&self, name: &[u8]) -> Option<u16>
        ensures { result ≡ (values self.now).name name.now };

    /// The value of a local label: None exactly where it has none.
    fn local(&self, n: u16) -> Option<u16>
        ensures { result ≡ (values self.now).local n };
}

// What waits for a part to be worked out.
#[derive(Drop)]
enum Waiting<'a> {
    // 0 less it.
    Negation,
    // It is on the left, and this on the right.
    Left(ExprOp, &'a Expr),
    // It is on the right, and this on the left.
    Right(ExprOp, Worked),
}

// What is next: a part to work out, or a part that was worked out.
#[derive(Drop)]
enum Step<'a> {
    Part(&'a Expr),
    Found(Worked),
}

// One more that waits.
#[tactic(auto, using(crate::proofs::Working::through_last, crate::proofs::Working::left_last))]
fn wait<'a>(waiting: &mut Vec<Waiting<'a>>, one: Waiting<'a>) -> Result<(), NoMemory>
    ensures same { OnOk result ((values : Values) (here : ℕ) (part : Worked) → through_all values here waiting.new.items part
        ≡ through_all values here waiting.old.items (through values here one.entry part)) }
    ensures more { OnOk result (left_of waiting.new.items ≡ left_of waiting.old.items + left_by one.entry) }
{
    let Ok(()) = waiting.push(one) else {
        return Err(NoMemory);
    };
    Ok(())
}

// `left op right`, or a division by 0.
fn join(op: ExprOp, left: u16, right: u16) -> Worked
    ensures { result ≡ or_divide (join op left right) }
{
    match op {
        ExprOp::Add => Worked::Value(left.wrapping_add(right)),
        ExprOp::Sub => Worked::Value(left.wrapping_sub(right)),
        ExprOp::Mul => Worked::Value(left.wrapping_mul(right)),
        ExprOp::Div => {
            if right == 0 {
                Worked::Divide
            } else {
                Worked::Value(left / right)
            }
        }
        ExprOp::And => Worked::Value(left & right),
        ExprOp::Or => Worked::Value(left | right),
    }
}

fn joined(op: ExprOp, left: Worked, right: Worked) -> Worked
    ensures { result ≡ joined op left right }
{
    match (left, right) {
        (Worked::Undefined, _) | (_, Worked::Undefined) => Worked::Undefined,
        (Worked::Divide, _) | (_, Worked::Divide) => Worked::Divide,
        (Worked::Value(a), Worked::Value(b)) => join(op, a, b),
    }
}

fn negated(part: Worked) -> Worked
    ensures { result ≡ negated part }
{
    match part {
        Worked::Value(n) => Worked::Value(0u16.wrapping_sub(n)),
        Worked::Undefined => Worked::Undefined,
        Worked::Divide => Worked::Divide,
    }
}

fn found(value: Option<u16>) -> Worked
    ensures { result ≡ (if is_some value then or_divide value else Undefined) }
{
    match value {
        Some(n) => Worked::Value(n),
        None => Worked::Undefined,
    }
}

// Goes down one level, or finds what a term that has no parts comes to.
#[tactic(auto, using(crate::proofs::Working::worked_negate, crate::proofs::Working::worked_binary))]
fn down<'a, N: Names>(
    waiting: &mut Vec<Waiting<'a>>,
    expr: &'a Expr,
    names: &N,
    here: u16,
) -> Result<Step<'a>, NoMemory>
    ensures same { IfOk result (λ step. through_all (N.values names.now) here waiting.new.items (worked_by (N.values names.now) here step)
        ≡ through_all (N.values names.now) here waiting.old.items (worked (N.values names.now) here (plain expr.now))) }
    ensures less { IfOk result (λ step. left_of waiting.new.items + left_at step < left_of waiting.old.items + left_in expr.now) }
{
    match expr {
        Expr::Number(n) => Ok(Step::Found(Worked::Value(*n))),
        Expr::Name(name) => Ok(Step::Found(found(names.name(name.as_slice())))),
        Expr::Local(n) => Ok(Step::Found(found(names.local(*n)))),
        Expr::Here => Ok(Step::Found(Worked::Value(here))),
        Expr::Negate(inner) => {
            wait(waiting, Waiting::Negation)?;
            Ok(Step::Part(inner))
        }
        Expr::Binary { op, left, right } => {
            wait(waiting, Waiting::Left(*op, right))?;
            Ok(Step::Part(left))
        }
    }
}

// Resumes what waits, with the part that it waited for.
fn resume<'a>(
    waiting: &mut Vec<Waiting<'a>>,
    one: Waiting<'a>,
    part: Worked,
) -> Result<Step<'a>, NoMemory>
    ensures same { (values : Values) (here : ℕ) → IfOk result (λ step. through_all values here waiting.new.items (worked_by values here step)
        ≡ through_all values here waiting.old.items (through values here one.entry part)) }
    ensures less { IfOk result (λ step. left_of waiting.new.items + left_at step < left_of waiting.old.items + left_by one.entry) }
{
    match one {
        Waiting::Negation => Ok(Step::Found(negated(part))),
        Waiting::Left(op, right) => {
            wait(waiting, Waiting::Right(op, part))?;
            Ok(Step::Part(right))
        }
        Waiting::Right(op, left) => Ok(Step::Found(joined(op, left, part))),
    }
}

/// What an expression comes to where names and local labels have their values and its statement's words begin at `here`:
/// undefined where one of them has none, wherever it stands in the expression; else a division by 0, where one is worked;
/// else its value. It takes memory for what waits while it is worked out.
#[tactic(auto, using(crate::proofs::Working::through_last, crate::proofs::Working::left_last))]
pub fn value_of<N: Names>(
    alloc: Global,
    expr: &Expr,
    names: &N,
    here: u16,
) -> Result<Worked, NoMemory>
    ensures { IfOk result (λ found. found ≡ worked (N.values names.now) here (plain expr.now)) }
{
    let mut waiting = Vec::new(alloc);
    let mut step = Step::Part(expr);
    'steps: loop {
        step = match step {
            Step::Part(part) => down(&mut waiting, part, names, here)?,
            Step::Found(part) => match waiting.pop() {
                None => return Ok(part),
                Some(one) => resume(&mut waiting, one, part)?,
            },
        };
    }
}
