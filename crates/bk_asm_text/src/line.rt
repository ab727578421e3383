// The statement that a line says.

ghost use Rattle.std.specs.Prelude.{◌≡◌, ◌<◌, [], length, option_map, map, IfOk, IfSome};
ghost use Rattle.std.specs.List.{list_all};
ghost use Rattle.bk_expr.specs.Text.{is_of_text, run_at, sign_at};
ghost use Rattle.bk_expr.specs.Tree.{plain};
ghost use Rattle.bk_asm_text.specs.Flat.{body_with, plain_label, said};
ghost use Rattle.bk_asm_text.specs.Parts.{all_of};
ghost use Rattle.bk_asm_text.specs.Statements as statements;

use crate::directive::{directive_of, read_argument};
use crate::form::read_fields;
use crate::part::is_end;
use crate::statement::{Body, Label};
use crate::statements::Parts;
use crate::value::with_value;
use bk_base::NoMemory;
use bk_expr::{Expr, is_name, is_of_text, local_label, mnemonic, run, sign};
use std::alloc::Global;

/// Whether each byte may stand in the text.
pub(crate) fn are_of_text(line: &[u8]) -> bool
    ensures { result ≡ list_all is_of_text line.now }
{
    line.iter().all(|c| is_of_text(*c))
}

// The label that a run is.
#[tactic(auto, unfolding(crate::specs::Statements::label_of_run))]
fn label_of(run: &[u8]) -> Option<Label<'_>>
    ensures { option_map plain_label result ≡ statements.label_of_run run.now }
{
    if is_name(run) {
        return Some(Label::Name(run));
    }
    let n = local_label(run)?;
    Some(Label::Local(n))
}

// A label and the text after its colon, if one stands first; and the first run with the text after it.
#[tactic(auto, unfolding(crate::specs::Statements::label_at))]
fn read_label(text: &[u8]) -> (Option<(Label<'_>, &[u8])>, (&[u8], &[u8]))
    ensures value { option_map (λ x. (plain_label x.0, x.1.now)) result.0 ≡ statements.label_at text.now }
    ensures run { (result.1.0.now, result.1.1.now) ≡ run_at text.now }
    ensures shorter { IfSome result.0 (λ x. length x.1.now < length text.now) }
{
    let (word, rest) = run(text);
    let Some(after) = sign(rest, b':') else {
        return (None, (word, rest));
    };
    match label_of(word) {
        None => (None, (word, rest)),
        Some(label) => (Some((label, after)), (word, rest)),
    }
}

// The labels of a line; and the text after them, with its first run and the text after that.
#[tactic(auto, using(crate::proofs::Loops::next_label, crate::proofs::Loops::no_label))]
fn read_labels<'a>(
    labels: &mut Vec<Label<'a>>,
    line: &'a [u8],
) -> Result<(&'a [u8], (&'a [u8], &'a [u8])), NoMemory>
    requires { labels.old.items ≡ [] }
    ensures labels { IfOk result (λ read. (map plain_label labels.new.items, read.0.now) ≡ all_of statements.label_at line.now) }
    ensures run { IfOk result (λ read. (read.1.0.now, read.1.1.now) ≡ run_at read.0.now) }
{
    let mut text = line;
    'each: loop {
        let (label, behind) = read_label(text);
        let Some((label, after)) = label else {
            return Ok((text, behind));
        };
        let Ok(()) = labels.push(label) else {
            return Err(NoMemory);
        };
        text = after;
    }
}

// An assignment to a word, from behind its = on.
#[inline(never)]
#[tactic(auto, unfolding(crate::specs::Statements::assignment_at))]
fn read_assignment<'a>(
    alloc: Global,
    values: &mut Vec<Expr>,
    word: &'a [u8],
    text: &'a [u8],
) -> Result<Option<(Body<'a>, &'a [u8])>, NoMemory>
    requires { values.old.items ≡ [] }
    ensures { IfOk result (λ read. option_map (λ x. (body_with x.0 (map plain values.new.items), x.1.now)) read ≡ statements.assignment_at word.now text.now) }
{
    if !is_name(word) {
        return Ok(None);
    }
    with_value(alloc, values, Body::Assign { name: word }, text)
}

// An instruction or a directive, by its word, from behind the word on.
fn read_by_word<'a>(
    alloc: Global,
    values: &mut Vec<Expr>,
    word: &[u8],
    text: &'a [u8],
) -> Result<Option<(Body<'a>, &'a [u8])>, NoMemory>
    requires { values.old.items ≡ [] }
    ensures { IfOk result (λ read. option_map (λ x. (body_with x.0 (map plain values.new.items), x.1.now)) read ≡ statements.by_run word.now text.now) }
{
    if let Some(mnemonic) = mnemonic(word) {
        return read_fields(alloc, values, mnemonic, text);
    }
    match directive_of(alloc, word)? {
        None => Ok(None),
        Some(directive) => read_argument(alloc, values, directive, text),
    }
}

// An assignment, an instruction or a directive, by the run that it begins with and the text after that.
fn read_body<'a>(
    alloc: Global,
    values: &mut Vec<Expr>,
    word: &'a [u8],
    text: &'a [u8],
) -> Result<Option<(Body<'a>, &'a [u8])>, NoMemory>
    requires { values.old.items ≡ [] }
    ensures { IfOk result (λ read. option_map (λ x. (body_with x.0 (map plain values.new.items), x.1.now)) read ≡ statements.after_run word.now text.now (sign_at 61 text.now)) }
{
    match sign(text, b'=') {
        Some(value) => read_assignment(alloc, values, word, value),
        None => read_by_word(alloc, values, word, text),
    }
}

// What stands behind the labels, up to the end of the line.
#[tactic(auto, unfolding(crate::specs::Statements::body_at, crate::specs::Statements::body_of))]
fn read_rest<'a>(
    alloc: Global,
    values: &mut Vec<Expr>,
    text: &'a [u8],
    word: &'a [u8],
    rest: &'a [u8],
) -> Result<Option<Body<'a>>, NoMemory>
    requires run { (word.now, rest.now) ≡ run_at text.now }
    requires none { values.old.items ≡ [] }
    ensures { IfOk result (λ body. option_map (λ body. body_with body (map plain values.new.items)) body ≡ statements.body_of text.now) }
{
    if is_end(text) {
        return Ok(Some(Body::Nothing));
    }
    let Some((body, after)) = read_body(alloc, values, word, rest)? else {
        return Ok(None);
    };
    if !is_end(after) {
        return Ok(None);
    }
    Ok(Some(body))
}

/// The statement that a line says, without its LF, or none where the line is outside the grammar; by whether all its bytes may
/// stand in the text. Its labels and expressions are put into `parts`.
#[tactic(auto, unfolding(crate::specs::Statements::statement_of))]
pub(crate) fn read_statement<'a>(
    alloc: Global,
    parts: &mut Parts<'a>,
    at: u32,
    line: &'a [u8],
    clean: bool,
) -> Result<Option<Body<'a>>, NoMemory>
    requires clean { clean ≡ list_all is_of_text line.now }
    requires labels { parts.old.labels.items ≡ [] }
    requires values { parts.old.values.items ≡ [] }
    ensures { IfOk result (λ body. option_map (said at parts.new.labels.items parts.new.values.items) body ≡ statements.statement_of at line.now) }
{
    if !clean {
        return Ok(None);
    }
    let (text, (word, rest)) = read_labels(&mut parts.labels, line)?;
    read_rest(alloc, &mut parts.values, text, word, rest)
}
