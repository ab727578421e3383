// The statements of a text. What each is lies in one list, the labels of all in a second and the expressions of all in a third.

ghost use Rattle.std.specs.Prelude.{◌≡◌, ◌∷◌, ◌++◌, [], drop, length, take, IfNone, IfSome, MatchOption, OnOk};
ghost use Rattle.bk_asm_text.specs.Flat.{Fits, plain_rest, plain_statement, plain_statements, said};

use crate::statement::{Body, Label, Statement};
use bk_base::NoMemory;
use bk_expr::Expr;
use std::alloc::Global;

// A statement by how many labels and expressions are its.
#[derive(Clone, Copy)]
struct Head<'a> {
    line: u32,
    labels: usize,
    values: usize,
    body: Body<'a>,
}

/// The labels and the expressions of one statement, while it is read.
#[derive(Drop)]
pub(crate) struct Parts<'a> {
    pub(crate) labels: Vec<Label<'a>>,
    pub(crate) values: Vec<Expr>,
}

impl<'a> Parts<'a> {
    pub(crate) fn new(alloc: Global) -> Parts<'a>
        ensures labels { result.labels.items ≡ [] }
        ensures values { result.values.items ≡ [] }
    {
        Parts {
            labels: Vec::new(alloc),
            values: Vec::new(alloc),
        }
    }
}

/// The statements of a text, one for each of its lines.
#[derive(Drop)]
pub struct Statements<'a> {
    heads: Vec<Head<'a>>,
    labels: Vec<Label<'a>>,
    values: Vec<Expr>,
}

impl<'a> Statements<'a> {
    /// No statement.
    pub(crate) fn new(alloc: Global) -> Statements<'a>
        ensures none { plain_statements result ≡ [] }
        ensures fits { Fits result }
    {
        Statements {
            heads: Vec::new(alloc),
            labels: Vec::new(alloc),
            values: Vec::new(alloc),
        }
    }

    /// One more, with the labels and the expressions of `parts`, which is left empty.
    pub(crate) fn push(
        &mut self,
        line: u32,
        parts: &mut Parts<'a>,
        body: Body<'a>,
    ) -> Result<(), NoMemory>
        requires { Fits self.old }
        ensures more { OnOk result (plain_statements self.new ≡ plain_statements self.old ++ said line parts.old.labels.items parts.old.values.items body.entry ∷ []) }
        ensures fits { OnOk result (Fits self.new) }
        ensures labels { OnOk result (parts.new.labels.items ≡ []) }
        ensures values { OnOk result (parts.new.values.items ≡ []) }
    {
        let head = Head {
            line,
            labels: parts.labels.len(),
            values: parts.values.len(),
            body,
        };
        let (Ok(()), Ok(()), Ok(())) = (
            self.heads.push(head),
            self.labels.append(&mut parts.labels),
            self.values.append(&mut parts.values),
        ) else {
            return Err(NoMemory);
        };
        Ok(())
    }

    /// How many they are.
    pub fn len(&self) -> usize
        ensures { result ≡ length (plain_statements self.now) }
    {
        self.heads.len()
    }

    /// All of them, to be taken one after another.
    pub fn all(&self) -> Rest<'_>
        ensures { plain_rest result ≡ plain_statements self.now }
    {
        Rest {
            heads: self.heads.as_slice(),
            labels: self.labels.as_slice(),
            values: self.values.as_slice(),
        }
    }
}

// So many items at the front, or all where they are fewer, and the others.
fn cut<T>(items: &[T], count: usize) -> (&[T], &[T])
    ensures front { result.0.now ≡ take count items.now }
    ensures others { result.1.now ≡ drop count items.now }
{
    items.split_at(count.min(items.len()))
}

// The first, and the others.
fn first_of<'a, 'b>(heads: &'b [Head<'a>]) -> Option<(Head<'a>, &'b [Head<'a>])>
    ensures { MatchOption result (heads.now ≡ []) (λ p. heads.now ≡ p.0 ∷ p.1.now) }
{
    match heads {
        [] => None,
        [head, others @ ..] => Some((*head, others)),
    }
}

/// The statements that are left.
#[derive(Clone, Copy)]
pub struct Rest<'a> {
    heads: &'a [Head<'a>],
    labels: &'a [Label<'a>],
    values: &'a [Expr],
}

impl<'a> Rest<'a> {
    /// Takes the first of them. None exactly where none is left.
    pub fn next(&mut self) -> Option<Statement<'a>>
        ensures none { IfNone result (plain_rest self.old ≡ []) }
        ensures first { IfSome result (λ statement. plain_rest self.old ≡ plain_statement statement ∷ plain_rest self.new) }
    {
        let rest = *self;
        let Some((head, heads)) = first_of(rest.heads) else {
            return None;
        };
        let (labels, other_labels) = cut(rest.labels, head.labels);
        let (values, other_values) = cut(rest.values, head.values);
        *self = Rest {
            heads,
            labels: other_labels,
            values: other_values,
        };
        Some(Statement {
            line: head.line,
            labels,
            values,
            body: head.body,
        })
    }
}
