ghost use Rattle.std.specs.Prelude.{◌≡◌, ◌<◌, ◌≤◌, ◌+◌, ◌*◌, [], ◌∷◌, length, vec_len, option_map};
ghost use Rattle.std.specs.Prelude.{IfOk, IfSome, MatchOption, OnOk};
ghost use Rattle.bk_expr.specs.Expression.{opening, operator, operator_at, character_in, term_of_run, term_at, more_at, expression_at};
ghost use Rattle.bk_expr.specs.Text.{Front};
ghost use Rattle.bk_expr.specs.Tree.{Expression, Binary, plain};
ghost use Rattle.bk_expr.specs.Waiting.{through, through_all, front_of, left_at};

use crate::text::{is_of_text, past_blanks, run, sign};
use crate::tree::{Expr, ExprOp};
use crate::word::{is_point, local_label, name, number};
use bk_base::NoMemory;
use std::alloc::Global;

// How a term begins.
#[derive(Clone, Copy)]
enum Opening {
    // `+`, and then a term.
    Plus,
    // `-`, and then a term.
    Minus,
    // `<`, and then an expression and `>`.
    Bracket,
    // `'`, and then a character.
    Quote,
    // With its run.
    Run,
}

// What waits for a part to be read.
#[derive(Drop)]
enum Waiting {
    // The term after `-`.
    Negation,
    // The expression after `<`.
    Closing,
    // The first term of an expression.
    More,
    // The term after an operator, which joins it to this.
    Right(ExprOp, Expr),
}

// What is next: a term to read, a part that was read, or that there is no expression.
#[derive(Drop)]
enum Step<'a> {
    Term(&'a [u8]),
    Read(Expr, &'a [u8]),
    Nothing,
}

fn opened_by(c: u8) -> Opening
    ensures { result ≡ opening c }
{
    match c {
        b'+' => Opening::Plus,
        b'-' => Opening::Minus,
        b'<' => Opening::Bracket,
        b'\'' => Opening::Quote,
        _ => Opening::Run,
    }
}

fn operator(c: u8) -> Option<ExprOp>
    ensures { result ≡ operator c }
{
    match c {
        b'+' => Some(ExprOp::Add),
        b'-' => Some(ExprOp::Sub),
        b'*' => Some(ExprOp::Mul),
        b'/' => Some(ExprOp::Div),
        b'&' => Some(ExprOp::And),
        b'!' => Some(ExprOp::Or),
        _ => None,
    }
}

// The first byte, and those after it.
fn next(text: &[u8]) -> Option<(u8, &[u8])>
    ensures { MatchOption result (text.now ≡ []) (λ front. text.now ≡ front.0 ∷ front.1.now) }
{
    match text {
        [] => None,
        [c, rest @ ..] => Some((*c, rest)),
    }
}

fn operator_at(text: &[u8]) -> Option<(ExprOp, &[u8])>
    ensures value { option_map (λ front. (front.0, front.1.now)) result ≡ operator_at text.now }
    ensures shorter { IfSome result (λ front. length front.1.now < length text.now) }
{
    let (c, rest) = next(past_blanks(text))?;
    let op = operator(c)?;
    Some((op, rest))
}

fn character(text: &[u8]) -> Step<'_>
    ensures value { front_of result ≡ character_in text.now }
    ensures within { left_at result ≤ 3 * length text.now }
{
    match next(text) {
        Some((c, rest)) if is_of_text(c) => Step::Read(Expr::Number(u16::from(c)), rest),
        _ => Step::Nothing,
    }
}

#[tactic(auto, unfolding(crate::specs::Expression::term_of_run))]
fn term_of_run(alloc: Global, run: &[u8]) -> Result<Option<Expr>, NoMemory>
    ensures { IfOk result (λ expr. option_map plain expr ≡ term_of_run run.now) }
{
    if is_point(run) {
        return Ok(Some(Expr::Here));
    }
    if let Some(n) = number(run) {
        return Ok(Some(Expr::Number(n)));
    }
    if let Some(n) = local_label(run) {
        return Ok(Some(Expr::Local(n)));
    }
    match name(alloc, run)? {
        Some(name) => Ok(Some(Expr::Name(name))),
        None => Ok(None),
    }
}

// One more that waits.
#[tactic(auto, using(crate::proofs::Waits::through_last))]
fn wait(waiting: &mut Vec<Waiting>, one: Waiting) -> Result<(), NoMemory>
    ensures same { OnOk result ((front : Front Expression) → through_all waiting.new.items front ≡ through_all waiting.old.items (through one front)) }
    ensures more { OnOk result (vec_len waiting.new ≡ vec_len waiting.old + 1) }
{
    let Ok(()) = waiting.push(one) else {
        return Err(NoMemory);
    };
    Ok(())
}

fn boxed(alloc: Global, expr: Expr) -> Result<Box<Expr>, NoMemory>
    ensures { IfOk result (λ place. place.value ≡ expr) }
{
    let Ok(place) = Box::new(alloc, expr) else {
        return Err(NoMemory);
    };
    Ok(place)
}

// Begins a term.
#[tactic(auto, using(crate::proofs::Steps::term_begins, crate::proofs::Steps::term_ended))]
fn begin<'a>(
    alloc: Global,
    waiting: &mut Vec<Waiting>,
    text: &'a [u8],
) -> Result<Step<'a>, NoMemory>
    ensures same { IfOk result (λ step. through_all waiting.new.items (front_of step) ≡ through_all waiting.old.items (term_at text.now)) }
    ensures less { IfOk result (λ step. vec_len waiting.new + left_at step ≤ vec_len waiting.old + 3 * length text.now) }
{
    let from = past_blanks(text);
    let Some((c, rest)) = next(from) else {
        return Ok(Step::Nothing);
    };
    match opened_by(c) {
        Opening::Plus => Ok(Step::Term(rest)),
        Opening::Minus => {
            wait(waiting, Waiting::Negation)?;
            Ok(Step::Term(rest))
        }
        Opening::Bracket => {
            wait(waiting, Waiting::Closing)?;
            wait(waiting, Waiting::More)?;
            Ok(Step::Term(rest))
        }
        Opening::Quote => Ok(character(rest)),
        Opening::Run => {
            let (word, rest) = run(from);
            match term_of_run(alloc, word)? {
                Some(expr) => Ok(Step::Read(expr, rest)),
                None => Ok(Step::Nothing),
            }
        }
    }
}

// Goes on after a term: with the operator that follows, if there is one.
#[tactic(auto, using(crate::proofs::Steps::more_joins, crate::proofs::Steps::more_ends))]
fn go_on<'a>(waiting: &mut Vec<Waiting>, left: Expr, text: &'a [u8]) -> Result<Step<'a>, NoMemory>
    ensures same { IfOk result (λ step. through_all waiting.new.items (front_of step) ≡ through_all waiting.old.items (more_at (plain left) text.now)) }
    ensures less { IfOk result (λ step. vec_len waiting.new + left_at step ≤ vec_len waiting.old + 3 * length text.now) }
{
    let Some((op, rest)) = operator_at(text) else {
        return Ok(Step::Read(left, text));
    };
    wait(waiting, Waiting::Right(op, left))?;
    Ok(Step::Term(rest))
}

// `left op right`.
fn binary(alloc: Global, op: ExprOp, left: Expr, right: Expr) -> Result<Expr, NoMemory>
    ensures { IfOk result (λ expr. plain expr ≡ Binary op (plain left) (plain right)) }
{
    Ok(Expr::Binary {
        op,
        left: boxed(alloc, left)?,
        right: boxed(alloc, right)?,
    })
}

// Resumes what waits, with the part that it waited for.
fn resume<'a>(
    alloc: Global,
    waiting: &mut Vec<Waiting>,
    one: Waiting,
    expr: Expr,
    text: &'a [u8],
) -> Result<Step<'a>, NoMemory>
    ensures same { IfOk result (λ step. through_all waiting.new.items (front_of step)
        ≡ through_all waiting.old.items (through one (Some (plain expr, text.now)))) }
    ensures less { IfOk result (λ step. vec_len waiting.new + left_at step ≤ vec_len waiting.old + 3 * length text.now) }
{
    match one {
        Waiting::Negation => Ok(Step::Read(Expr::Negate(boxed(alloc, expr)?), text)),
        Waiting::Closing => match sign(text, b'>') {
            Some(rest) => Ok(Step::Read(expr, rest)),
            None => Ok(Step::Nothing),
        },
        Waiting::More => go_on(waiting, expr, text),
        Waiting::Right(op, left) => {
            let both = binary(alloc, op, left, expr)?;
            go_on(waiting, both, text)
        }
    }
}

// An expression that is a run alone.
#[tactic(auto, using(crate::proofs::Steps::lone_run))]
fn read_run(alloc: Global, text: &[u8]) -> Result<Option<(Expr, &[u8])>, NoMemory>
    ensures { IfOk result (λ read. IfSome read (λ front. expression_at text.now ≡ Some (plain front.0, front.1.now))) }
{
    let from = past_blanks(text);
    let Some((c, _)) = next(from) else {
        return Ok(None);
    };
    let (word, rest) = run(from);
    if !matches!(opened_by(c), Opening::Run) || operator_at(rest).is_some() {
        return Ok(None);
    }
    match term_of_run(alloc, word)? {
        Some(expr) => Ok(Some((expr, rest))),
        None => Ok(None),
    }
}

// An expression by its terms, one after another.
#[tactic(auto, using(crate::proofs::Waits::through_last, crate::proofs::Waits::through_all_none))]
fn read_terms(alloc: Global, text: &[u8]) -> Result<Option<(Expr, &[u8])>, NoMemory>
    ensures { IfOk result (λ read. option_map (λ front. (plain front.0, front.1.now)) read ≡ expression_at text.now) }
{
    let mut waiting = Vec::new(alloc);
    wait(&mut waiting, Waiting::More)?;
    let mut step = Step::Term(text);
    'steps: loop {
        step = match step {
            Step::Term(rest) => begin(alloc, &mut waiting, rest)?,
            Step::Nothing => return Ok(None),
            Step::Read(expr, rest) => match waiting.pop() {
                None => return Ok(Some((expr, rest))),
                Some(one) => resume(alloc, &mut waiting, one, expr, rest)?,
            },
        };
    }
}

/// The expression at the front of a text, blanks before it, and the text after it. None exactly where no expression stands
/// there. It takes memory for the expression, however deep that is, and for what waits while it is read.
#[tactic(auto, using(crate::proofs::Shorter::expression_shorter))]
pub fn read_expression(alloc: Global, text: &[u8]) -> Result<Option<(Expr, &[u8])>, NoMemory>
    ensures value { IfOk result (λ read. option_map (λ front. (plain front.0, front.1.now)) read ≡ expression_at text.now) }
    ensures shorter { IfOk result (λ read. IfSome read (λ front. length front.1.now < length text.now)) }
{
    match read_run(alloc, text)? {
        Some(read) => Ok(Some(read)),
        None => read_terms(alloc, text),
    }
}
