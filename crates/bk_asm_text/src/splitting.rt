// A text, line by line.

ghost use Rattle.std.specs.Prelude.{◌≡◌, ◌+◌, ◌<◌, ◌≤◌, ◌==◌, ◌∷◌, ◌++◌, [], map, ℕ, List, length, Ok, Err, IfOk, IfErr, IfSome, IfNone, OnOk};
ghost use Rattle.std.specs.List.{list_all, position, prefix_len};
ghost use Rattle.bk_expr.specs.Text.{is_of_text};
ghost use Rattle.bk_base.specs.Faults.{Gives, Refuses};
ghost use Rattle.bk_asm_text.specs.Before.{before_fault, plain_front};
ghost use Rattle.bk_asm_text.specs.Fault.{fault_at};
ghost use Rattle.bk_asm_text.specs.First.{IsFirstOutside};
ghost use Rattle.bk_asm_text.specs.Flat.{plain_statements};
ghost use Rattle.bk_asm_text.specs.Statements.{lines_of, statements_of};
ghost use Rattle.bk_asm_text.specs.declared.fault.AsmFault.{AsmFault};
ghost use Rattle.bk_asm_text.specs.declared.fault.AsmKind.TheVariants as kind;

use crate::fault::{AsmFault, AsmKind, AsmStop};
use crate::line::{are_of_text, read_statement};
use crate::statements::{Parts, Statements};
use bk_base::NoMemory;
use bk_expr::is_of_text;
use std::alloc::Global;

// The place of the first LF.
fn end_of_line(text: &[u8]) -> Option<usize>
    ensures { result ≡ position (λ b. b == 10) text.now }
{
    text.iter().position(|b| *b == b'\n')
}

// How many bytes at the front may stand in a line.
fn text_len(text: &[u8]) -> usize
    ensures value { result ≡ prefix_len is_of_text text.now }
    ensures within { result ≤ length text.now }
{
    text.iter().take_while(|c| is_of_text(**c)).count()
}

// The text after an LF at its front.
fn past_line_feed(text: &[u8]) -> Option<&[u8]>
    ensures { IfSome result (λ after. text.now ≡ 10 ∷ after.now) }
{
    match text {
        [b'\n', after @ ..] => Some(after),
        _ => None,
    }
}

// A line without its LF, whether all its bytes may stand in the text, and the text after it.
#[derive(Clone, Copy)]
struct Line<'a> {
    line: &'a [u8],
    clean: bool,
    after: &'a [u8],
}

// The first line without its LF, and the text after it.
#[tactic(auto, using(crate::proofs::Lines::first_line, crate::proofs::Lines::only_line, crate::proofs::Lines::no_line))]
fn cut_line(text: &[u8]) -> Option<(&[u8], &[u8])>
    ensures found { IfSome result (λ r. lines_of text.now ≡ r.0.now ∷ lines_of r.1.now) }
    ensures shorter { IfSome result (λ r. length r.1.now < length text.now) }
    ensures none { IfNone result (lines_of text.now ≡ []) }
{
    if text.is_empty() {
        return None;
    }
    Some(match end_of_line(text) {
        None => (text, &text[text.len()..]),
        Some(place) => (text.split_at(place).0, text.split_at(place + 1).1),
    })
}

// The first line, by its end.
#[inline(never)]
fn line_by_end(text: &[u8]) -> Option<Line<'_>>
    ensures found { IfSome result (λ r. lines_of text.now ≡ r.line.now ∷ lines_of r.after.now) }
    ensures clean { IfSome result (λ r. r.clean ≡ list_all is_of_text r.line.now) }
    ensures shorter { IfSome result (λ r. length r.after.now < length text.now) }
    ensures none { IfNone result (lines_of text.now ≡ []) }
{
    let (line, after) = cut_line(text)?;
    Some(Line {
        line,
        clean: are_of_text(line),
        after,
    })
}

// The first line. Where its bytes may stand in the text and an LF ends it, they are read but once.
#[tactic(auto, using(crate::proofs::Lines::clean_line, crate::proofs::Lines::clean_bytes, crate::proofs::Lines::clean_shorter))]
fn next_line(text: &[u8]) -> Option<Line<'_>>
    ensures found { IfSome result (λ r. lines_of text.now ≡ r.line.now ∷ lines_of r.after.now) }
    ensures clean { IfSome result (λ r. r.clean ≡ list_all is_of_text r.line.now) }
    ensures shorter { IfSome result (λ r. length r.after.now < length text.now) }
    ensures none { IfNone result (lines_of text.now ≡ []) }
{
    let (line, rest) = text.split_at(text_len(text));
    match past_line_feed(rest) {
        None => line_by_end(text),
        Some(after) => Some(Line {
            line,
            clean: true,
            after,
        }),
    }
}

fn form(line: u32) -> AsmFault
    ensures { result ≡ fault_at line kind.Form }
{
    AsmFault {
        line,
        kind: AsmKind::Form,
    }
}

/// The statements of the lines before the first one outside the grammar, and the fault of that line, if there is one.
#[derive(Drop)]
pub struct Front<'a> {
    pub statements: Statements<'a>,
    pub fault: Option<AsmFault>,
}

/// The statements of assembly text up to its first line outside the grammar.
///
/// Lines end with LF, which the last may lack. The fault has the kind `Form` and the line's number; without one these are the
/// statements of all lines. It takes memory for the statements.
#[tactic(auto, using(crate::proofs::Before::before_none, crate::proofs::Before::before_end))]
pub fn split_front(alloc: Global, text: &[u8]) -> Result<Front<'_>, NoMemory>
    ensures { IfOk result (λ front. plain_front front ≡ before_fault text.now) }
{
    let mut statements = Statements::new(alloc);
    let mut parts = Parts::new(alloc);
    let mut at = 1u32;
    let mut rest = text;
    'each: while let Some(one) = next_line(rest) {
        let Some(body) = read_statement(alloc, &mut parts, at, one.line, one.clean)? else {
            return Ok(Front {
                statements,
                fault: Some(form(at)),
            });
        };
        statements.push(at, &mut parts, body)?;
        at = at.saturating_add(1);
        rest = one.after;
    }
    Ok(Front {
        statements,
        fault: None,
    })
}

#[tactic(auto, using(crate::proofs::Before::statements_whole))]
fn split_lines(alloc: Global, text: &[u8]) -> Result<Statements<'_>, AsmStop>
    ensures { Gives plain_statements result (statements_of text.now) }
{
    let front = split_front(alloc, text)?;
    match front.fault {
        None => Ok(front.statements),
        Some(fault) => Err(AsmStop::Bad(fault)),
    }
}

/// The statements of assembly text, one for each of its lines.
///
/// Lines end with LF, which the last may lack. `Bad` comes exactly at the first line outside the grammar, with the kind `Form`
/// and the line's number. It takes memory for the statements.
pub fn split(alloc: Global, text: &[u8]) -> Result<Statements<'_>, AsmStop>
    ensures ok { IfOk result (λ statements. statements_of text.now ≡ Ok (plain_statements statements)) }
    ensures bad { IfErr result (λ stop. Refuses stop (statements_of text.now)) }

    // One statement a line.
    ensures lines { IfOk result (λ statements. length (plain_statements statements) ≡ length (lines_of text.now)) }
{
    split_lines(alloc, text)
}

/// A text is refused with a fault exactly where that is of its first line outside the grammar.
pub fn law_first_fault()
    ensures refused { (text : List ℕ) (fault : AsmFault) → statements_of text ≡ Err fault → IsFirstOutside text fault }
    ensures only { (text : List ℕ) (fault : AsmFault) → IsFirstOutside text fault → statements_of text ≡ Err fault }
{}
