use crate::names::{CAUSES, WIDTHS, named};
use crate::numbers::{octal_in, octals, small, small_in};
use bk_case::{CasePage, Content, StepCase, Unread};
use bk_cpu::Event;
use bk_space::{Mode, Ps, Regs, Rights, Width};
use std::alloc::Global;
use std::str::{Lines, SplitWhitespace};

/// The mode of two bits: 01 is supervisor and 11 is user.
fn mode_of(bits: u16) -> Option<Mode> {
    match bits {
        1 => Some(Mode::Supervisor),
        3 => Some(Mode::User),
        _ => None,
    }
}

/// The status of a word, where a process can have it.
fn status_of(word: u16) -> Option<Ps> {
    let mode = mode_of(word >> 14)?;
    let previous = mode_of(word >> 12 & 3)?;
    let ps = Ps::process(mode, previous).with_low((word & 0o37) as u8);
    if ps.word() == word { Some(ps) } else { None }
}

/// R0 to R5, the stack pointers of user and of supervisor mode, PC and PS.
fn regs_in(words: &mut SplitWhitespace<'_>) -> Option<Regs> {
    let general = octals::<6>(words)?;
    let [user, supervisor, pc, status] = octals::<4>(words)?;
    Some(Regs {
        general,
        user,
        supervisor,
        pc,
        ps: status_of(status)?,
    })
}

/// `n`, or `r` or `w` and a number of blocks.
fn page_of(word: &str) -> Option<CasePage> {
    if word == "n" {
        return Some(CasePage {
            rights: Rights::None,
            blocks: 0,
        });
    }
    let (rights, blocks) = match word.strip_prefix("r") {
        Some(blocks) => (Rights::Read, blocks),
        None => (Rights::Write, word.strip_prefix("w")?),
    };
    Some(CasePage {
        rights,
        blocks: small(blocks)?,
    })
}

fn pages_in(alloc: Global, words: &mut SplitWhitespace<'_>) -> Result<Vec<CasePage>, Unread> {
    let mut pages = Vec::new(alloc);
    for word in words {
        pages.push(page_of(word).ok_or(Unread::Form)?)?;
    }
    Ok(pages)
}

/// A word of a page.
fn content_in(words: &mut SplitWhitespace<'_>) -> Option<Content> {
    Some(Content {
        page: small_in(words)?,
        offset: octal_in(words)?,
        width: Width::Word,
        value: octal_in(words)?,
    })
}

/// What the instruction writes to a page.
fn written_in(page: &str, words: &mut SplitWhitespace<'_>) -> Option<Content> {
    Some(Content {
        page: small(page)?,
        offset: octal_in(words)?,
        width: named(&WIDTHS, words)?,
        value: octal_in(words)?,
    })
}

/// What the instruction writes, or `none`.
fn write_in(words: &mut SplitWhitespace<'_>) -> Option<Option<Content>> {
    match words.next()? {
        "none" => Some(None),
        page => Some(Some(written_in(page, words)?)),
    }
}

fn event_in(words: &mut SplitWhitespace<'_>) -> Option<Event> {
    match words.next()? {
        "ran" => Some(Event::Ran),
        "call" => Some(Event::Call(small_in(words)?)),
        "fault" => Some(Event::Fault(named(&CAUSES, words)?)),
        _ => None,
    }
}

/// The words of the next line, after the name that it begins with.
fn line_in<'a>(lines: &mut Lines<'a>, name: &str) -> Option<SplitWhitespace<'a>> {
    let mut words = lines.next()?.split_whitespace();
    if words.next()? == name {
        Some(words)
    } else {
        None
    }
}

/// The words of pages, a line each, and then the registers after the instruction.
fn words_in(alloc: Global, lines: &mut Lines<'_>) -> Result<(Vec<Content>, Regs), Unread> {
    let mut contents = Vec::new(alloc);
    for line in lines {
        let mut words = line.split_whitespace();
        match words.next() {
            Some("word") => {
                contents.push(content_in(&mut words).ok_or(Unread::Form)?)?;
                if words.next().is_some() {
                    return Err(Unread::Form);
                }
            }
            Some("after") => {
                let after = regs_in(&mut words).ok_or(Unread::Form)?;
                return Ok((contents, after));
            }
            _ => return Err(Unread::Form),
        }
    }
    Err(Unread::Form)
}

/// The registers of the next line, under the name that it begins with.
fn regs_line(lines: &mut Lines<'_>, name: &str) -> Option<Regs> {
    regs_in(&mut line_in(lines, name)?)
}

fn write_line(lines: &mut Lines<'_>) -> Option<Option<Content>> {
    write_in(&mut line_in(lines, "write")?)
}

fn references_line(lines: &mut Lines<'_>) -> Option<u64> {
    line_in(lines, "references")?.next()?.parse::<u64>().ok()
}

/// How the instruction ends, in the last line.
fn event_line(lines: &mut Lines<'_>) -> Option<Event> {
    let event = event_in(&mut line_in(lines, "event")?)?;
    match lines.next() {
        Some(_) => None,
        None => Some(event),
    }
}

/// What the instruction writes, how many references it makes, and how it ends.
fn answer_in(lines: &mut Lines<'_>) -> Option<(Option<Content>, u64, Event)> {
    Some((
        write_line(lines)?,
        references_line(lines)?,
        event_line(lines)?,
    ))
}

/// The case that a block of lines spells; numbers are octal, but for the references.
pub fn read_step(alloc: Global, block: &str) -> Result<StepCase, Unread> {
    let mut lines = block.lines();
    let _number = line_in(&mut lines, "case").ok_or(Unread::Form)?;
    let before = regs_line(&mut lines, "regs").ok_or(Unread::Form)?;
    let mut shapes = line_in(&mut lines, "pages").ok_or(Unread::Form)?;
    let pages = pages_in(alloc, &mut shapes)?;
    let (words, after) = words_in(alloc, &mut lines)?;
    let (write, references, event) = answer_in(&mut lines).ok_or(Unread::Form)?;
    Ok(StepCase {
        before,
        pages,
        words,
        after,
        write,
        references,
        event,
    })
}
