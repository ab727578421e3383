// Lines of a text, and the fields of a line.

ghost use Rattle.std.specs.Prelude.{◌≡◌, ◌<◌, ◌≤◌, ◌==◌, ◌∷◌, [], not, map, filter, length, IfOk};
ghost use Rattle.std.specs.List.{slice_split};
ghost use Rattle.bk_conf.specs.Ends.{ends_program, is_over};
ghost use Rattle.bk_conf.specs.Lines.{content, fields_of, is_blank, lines_of};
ghost use Rattle.bk_conf.specs.Views.{lines_left, size_left, texts};

use bk_expr::past_blanks;
use bk_report::cut;
use std::alloc::{AllocError, Global};

/// What is left of a text behind some of its lines; none behind the last one.
pub type Left<'a> = Option<&'a [u8]>;

/// The first line, and what is left behind it.
pub fn first_line(text: &[u8]) -> (&[u8], Left<'_>)
    ensures first { lines_of text.now ≡ result.0.now ∷ lines_left result.1 }
    ensures shorter { size_left result.1 ≤ length text.now }
{
    match cut(text, b'\n') {
        Some((line, after)) => (line, Some(after)),
        None => (text, None),
    }
}

// What stands before the comment.
fn content(line: &[u8]) -> &[u8]
    ensures { result.now ≡ content line.now }
{
    match cut(line, b';') {
        Some((front, _comment)) => front,
        None => line,
    }
}

fn is_blank(b: u8) -> bool
    ensures { result ≡ is_blank b }
{
    b == b' ' || b == b'\t'
}

// What blanks part, with an empty part between two blanks.
fn parts_of(alloc: Global, text: &[u8]) -> Result<Vec<&[u8]>, AllocError>
    ensures { IfOk result (λ parts. texts parts.items ≡ slice_split is_blank text.now) }
{
    text.split(|b| is_blank(*b)).collect(alloc)
}

// The parts that aren't empty.
fn some_of<'a>(alloc: Global, parts: &[&'a [u8]]) -> Result<Vec<&'a [u8]>, AllocError>
    ensures { IfOk result (λ fields. texts fields.items ≡ filter (λ field. not (length field == 0)) (texts parts.now)) }
{
    let mut fields = Vec::new(alloc);
    for part in parts {
        if !part.is_empty() {
            fields.push(*part)?;
        }
    }
    Ok(fields)
}

/// The fields of a line. It takes memory for their list.
#[tactic(auto, unfolding(crate::specs::Lines::fields_of))]
pub fn fields_of(alloc: Global, line: &[u8]) -> Result<Vec<&[u8]>, AllocError>
    ensures { IfOk result (λ fields. texts fields.items ≡ fields_of line.now) }
{
    let parts = parts_of(alloc, content(line))?;
    some_of(alloc, &parts)
}

// Whether nothing is left but blanks and a comment.
fn is_over(text: &[u8]) -> bool
    ensures { result ≡ is_over text.now }
{
    match past_blanks(text) {
        [] => true,
        [b, ..] => *b == b';',
    }
}

/// Whether the line ends a program. Its front alone is looked at, since most lines of a configuration are those of programs.
#[tactic(auto, using(crate::proofs::Ends::alone_short, crate::proofs::Ends::alone_cut))]
pub fn ends_program(line: &[u8]) -> bool
    ensures { result ≡ ends_program line.now }
{
    let text = past_blanks(line);
    if text.len() < 10 {
        return false;
    }
    let (word, rest) = text.split_at(10);
    word == b"endprogram".as_slice() && is_over(rest)
}
