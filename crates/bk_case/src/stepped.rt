ghost use Rattle.std.specs.Prelude.{◌≡◌, ◌↔◌, ◌*◌, IsTrue, IfOk, vec_len};
ghost use Rattle.bk_space.specs.Counts.{counted_on};
ghost use Rattle.bk_exec.specs.Exec.{exec};
ghost use Rattle.bk_cpu.specs.Plain.{page_in};
ghost use Rattle.bk_case.specs.Agrees.{IsGiven};

use crate::step_case::{CasePage, Content, StepCase};
use crate::unread::Unread;
use bk_cpu::{Event, PlainBus, WORDS_OF_BLOCK, WORDS_OF_PAGE, step};
use bk_space::{Flags, Mode, PAGES, Ps, Regs, Width, merged};
use std::alloc::{AllocError, Global};

/// The words of a page, all 0.
fn zeros(alloc: Global, blocks: u8) -> Result<Vec<u16>, AllocError>
    ensures { IfOk result (λ words. vec_len words ≡ WORDS_OF_BLOCK * blocks) }
{
    let words = vec![in alloc; 0; WORDS_OF_BLOCK * blocks as usize]?;
    Ok(words)
}

/// Puts a word or a byte into a page's words; false where it is beyond them.
fn put(words: &mut [u16], content: Content) -> bool {
    match words.get_mut(content.offset as usize / 2) {
        Some(word) => {
            *word = match content.width {
                Width::Word => content.value,
                Width::Byte => merged(Width::Byte, content.offset, content.value % 256, *word),
            };
            true
        }
        None => false,
    }
}

/// The words of a page with what the case puts there.
pub fn filled(
    alloc: Global,
    page: u8,
    shape: CasePage,
    contents: &[Content],
) -> Result<Vec<u16>, Unread> {
    let mut words = zeros(alloc, shape.blocks)?;
    for content in contents {
        if content.page == page && !put(words.as_mut_slice(), *content) {
            return Err(Unread::Form);
        }
    }
    Ok(words)
}

/// A bus with the pages of the case.
fn bus_of(alloc: Global, case: &StepCase) -> Result<PlainBus, Unread>
    ensures { IfOk result (λ bus. bus.references ≡ 0) }
{
    let Ok(mut bus) = PlainBus::new(alloc) else {
        return Err(Unread::NoMemory);
    };
    let mut page = 0u8;
    for shape in &case.pages {
        let words = filled(alloc, page, *shape, case.words.as_slice())?;
        if page >= PAGES || words.len() % WORDS_OF_BLOCK != 0 || words.len() > WORDS_OF_PAGE {
            return Err(Unread::Form);
        }
        bus.set_page(page, shape.rights, words);
        page += 1;
    }
    if page == PAGES {
        Ok(bus)
    } else {
        Err(Unread::Form)
    }
}

/// The words of a page after the write of the case.
pub fn words_after(alloc: Global, case: &StepCase, page: u8) -> Result<Vec<u16>, Unread> {
    let Some(shape) = case.pages.get(page as usize) else {
        return Err(Unread::Form);
    };
    let mut words = filled(alloc, page, *shape, case.words.as_slice())?;
    if let Some(write) = case.write {
        if write.page == page && !put(words.as_mut_slice(), write) {
            return Err(Unread::Form);
        }
    }
    Ok(words)
}

/// Whether the pages are those of the case after its write.
fn has_pages(alloc: Global, bus: &PlainBus, case: &StepCase) -> Result<bool, Unread> {
    for page in 0..PAGES {
        let words = words_after(alloc, case, page)?;
        if bus.words(page) != words.as_slice() {
            return Ok(false);
        }
    }
    Ok(true)
}

fn same_words(a: [u16; 6], b: [u16; 6]) -> bool
    ensures { IsTrue result ↔ (a ≡ b) }
{
    a == b
}

fn same_mode(a: Mode, b: Mode) -> bool
    ensures { IsTrue result ↔ (a ≡ b) }
{
    a == b
}

fn same_flags(a: Flags, b: Flags) -> bool
    ensures { IsTrue result ↔ (a ≡ b) }
{
    a == b
}

fn same_status(a: Ps, b: Ps) -> bool
    ensures { IsTrue result ↔ (a ≡ b) }
{
    same_mode(a.mode, b.mode)
        && same_mode(a.previous, b.previous)
        && a.trace == b.trace
        && same_flags(a.flags, b.flags)
}

pub fn same_regs(a: Regs, b: Regs) -> bool
    ensures { IsTrue result ↔ (a ≡ b) }
{
    same_words(a.general, b.general)
        && a.supervisor == b.supervisor
        && a.user == b.user
        && a.pc == b.pc
        && same_status(a.ps, b.ps)
}

pub fn same_event(a: Event, b: Event) -> bool
    ensures { IsTrue result ↔ (a ≡ b) }
{
    a == b
}

/// Whether one instruction gives these registers, this event and this count of references.
fn gives(bus: &mut PlainBus, before: Regs, after: Regs, event: Event, references: u64) -> bool
    ensures { IsTrue result ↔ (((exec (page_in bus.old.pages) before).regs ≡ after) × ((exec (page_in bus.old.pages) before).outcome ≡ event) × (counted_on bus.old.references (exec (page_in bus.old.pages) before).references ≡ references)) }
{
    let mut regs = before;
    let outcome = step(&mut regs, bus);
    same_regs(regs, after) && same_event(outcome, event) && bus.references() == references
}

/// Whether the instruction of the case gives its answer, on a plain bus. That its pages are those of the case, before the
/// instruction and after it, no clause says.
pub fn step_agrees(alloc: Global, case: &StepCase) -> Result<bool, Unread>
    ensures given { IfOk result (λ agrees. IsTrue agrees → IsGiven case.now) }
{
    let mut bus = bus_of(alloc, case)?;
    let gives = gives(
        &mut bus,
        case.before,
        case.after,
        case.event,
        case.references,
    );
    Ok(gives && has_pages(alloc, &bus, case)?)
}
