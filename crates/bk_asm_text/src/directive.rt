// Directives, and what follows the word of each.

ghost use Rattle.std.specs.Prelude.{◌≡◌, ◌==◌, ◌<◌, [], length, option_map, map, IfOk, IfNone, IfSome};
ghost use Rattle.std.specs.List.{position};
ghost use Rattle.bk_expr.specs.Tree.{plain};
ghost use Rattle.bk_asm_text.specs.Directives as directives;
ghost use Rattle.bk_asm_text.specs.Flat.{body_with};
ghost use Rattle.bk_asm_text.specs.Read.{ValueRead};

use crate::statement::Body;
use crate::value::{read_value, with_value};
use bk_base::NoMemory;
use bk_expr::{Expr, past_blanks, sign};
use std::alloc::Global;

/// A directive, by its word.
#[derive(Clone, Copy, PartialEq, Eq, Debug)]
pub(crate) enum Directive {
    Word,
    Byte,
    Ascii,
    Asciz,
    Blkw,
    Even,
}

// The directive of a word in upper case.
fn directive_named(word: &[u8]) -> Option<Directive>
    ensures { result ≡ directives.directive_named word.now }
{
    match word {
        b".WORD" => Some(Directive::Word),
        b".BYTE" => Some(Directive::Byte),
        b".ASCII" => Some(Directive::Ascii),
        b".ASCIZ" => Some(Directive::Asciz),
        b".BLKW" => Some(Directive::Blkw),
        b".EVEN" => Some(Directive::Even),
        _ => None,
    }
}

/// The directive of a run, if it is one's word. It takes memory while it looks.
#[inline(never)]
#[tactic(auto, unfolding(crate::specs::Directives::directive_of))]
pub(crate) fn directive_of(alloc: Global, run: &[u8]) -> Result<Option<Directive>, NoMemory>
    ensures { IfOk result (λ directive. directive ≡ directives.directive_of run.now) }
{
    let word = run.to_ascii_uppercase(alloc)?;
    Ok(directive_named(&word))
}

// A comma, and the expression after it, put behind those of its statement.
#[tactic(auto, unfolding(crate::specs::Directives::next_expression_at))]
fn next_expression<'a>(
    alloc: Global,
    values: &mut Vec<Expr>,
    text: &'a [u8],
) -> Result<Option<&'a [u8]>, NoMemory>
    ensures value { IfOk result (λ read. ValueRead (map plain values.old.items) (map plain values.new.items) (option_map (λ rest. rest.now) read) (directives.next_expression_at text.now)) }
    ensures same { IfOk result (λ read. IfNone read (values.new.items ≡ values.old.items)) }
    ensures shorter { IfOk result (λ read. IfSome read (λ rest. length rest.now < length text.now)) }
{
    match sign(text, b',') {
        None => Ok(None),
        Some(rest) => read_value(alloc, values, rest),
    }
}

// One or more expressions, parted by commas.
#[tactic(auto, unfolding(crate::specs::Directives::expressions_at))]
fn expressions<'a>(
    alloc: Global,
    values: &mut Vec<Expr>,
    text: &'a [u8],
) -> Result<Option<&'a [u8]>, NoMemory>
    requires { values.old.items ≡ [] }
    ensures { IfOk result (λ read. option_map (λ rest. (map plain values.new.items, rest.now)) read ≡ directives.expressions_at text.now) }
{
    let Some(mut rest) = read_value(alloc, values, text)? else {
        return Ok(None);
    };
    'each: while let Some(after) = next_expression(alloc, values, rest)? {
        rest = after;
    }
    Ok(Some(rest))
}

// Whether a byte may stand before and after a string; it is no blank.
fn is_delimiter(c: u8) -> bool
    ensures { result ≡ directives.is_delimiter c }
{
    !(c == b';' || c == b'<' || c == b'=' || c == b':')
}

// The place of the first such byte.
fn place_of(text: &[u8], c: u8) -> Option<usize>
    ensures { result ≡ position (λ b. b == c) text.now }
{
    text.iter().position(|b| *b == c)
}

// A string, as it stands between its delimiters.
#[tactic(auto, unfolding(crate::specs::Directives::string_at))]
fn string(text: &[u8]) -> Option<(&[u8], &[u8])>
    ensures { option_map (λ read. (read.0.now, read.1.now)) result ≡ directives.string_at text.now }
{
    let (delimiter, rest) = past_blanks(text).split_first()?;
    if !is_delimiter(*delimiter) {
        return None;
    }
    let place = place_of(rest, *delimiter)?;
    Some((rest.split_at(place).0, rest.split_at(place + 1).1))
}

// `.WORD E,E,..`, from behind its word on.
#[tactic(auto, unfolding(crate::specs::Directives::argument_at))]
fn words<'a>(
    alloc: Global,
    values: &mut Vec<Expr>,
    text: &'a [u8],
) -> Result<Option<(Body<'a>, &'a [u8])>, NoMemory>
    requires { values.old.items ≡ [] }
    ensures { IfOk result (λ read. option_map (λ x. (body_with x.0 (map plain values.new.items), x.1.now)) read ≡ directives.argument_at Directive.Word text.now) }
{
    match expressions(alloc, values, text)? {
        None => Ok(None),
        Some(rest) => Ok(Some((Body::WordList, rest))),
    }
}

// `.BYTE E,E,..`.
#[tactic(auto, unfolding(crate::specs::Directives::argument_at))]
fn bytes<'a>(
    alloc: Global,
    values: &mut Vec<Expr>,
    text: &'a [u8],
) -> Result<Option<(Body<'a>, &'a [u8])>, NoMemory>
    requires { values.old.items ≡ [] }
    ensures { IfOk result (λ read. option_map (λ x. (body_with x.0 (map plain values.new.items), x.1.now)) read ≡ directives.argument_at Directive.Byte text.now) }
{
    match expressions(alloc, values, text)? {
        None => Ok(None),
        Some(rest) => Ok(Some((Body::ByteList, rest))),
    }
}

// `.ASCII` with a string, or `.ASCIZ`.
fn ascii(zero: bool, text: &[u8]) -> Option<(Body<'_>, &[u8])>
    ensures { option_map (λ x. (body_with x.0 [], x.1.now)) result ≡ directives.ascii_at zero text.now }
{
    let (text, rest) = string(text)?;
    Some((Body::Ascii { text, zero }, rest))
}

/// What follows the word of a directive.
#[inline(never)]
#[tactic(auto, unfolding(crate::specs::Directives::argument_at))]
pub(crate) fn read_argument<'a>(
    alloc: Global,
    values: &mut Vec<Expr>,
    directive: Directive,
    text: &'a [u8],
) -> Result<Option<(Body<'a>, &'a [u8])>, NoMemory>
    requires { values.old.items ≡ [] }
    ensures { IfOk result (λ read. option_map (λ x. (body_with x.0 (map plain values.new.items), x.1.now)) read ≡ directives.argument_at directive text.now) }
{
    match directive {
        Directive::Word => words(alloc, values, text),
        Directive::Byte => bytes(alloc, values, text),
        Directive::Ascii => Ok(ascii(false, text)),
        Directive::Asciz => Ok(ascii(true, text)),
        Directive::Blkw => with_value(alloc, values, Body::Blkw, text),
        Directive::Even => Ok(Some((Body::Even, text))),
    }
}
