// A case of one instruction, on the machine.

ghost use Rattle.std.specs.Prelude.{◌≡◌, ◌↔◌, ◌*◌, None, IsNone, IsTrue, IfOk};
ghost use Rattle.bk_space.specs.Counts.{counted_on};
ghost use Rattle.bk_machine.specs.Machine.{instruction_of};
ghost use Rattle.bk_case.specs.Machined.{IsGivenByMachine, with_process};

use crate::step_case::{CasePage, StepCase};
use crate::stepped::{filled, same_event, same_regs, words_after};
use crate::unread::Unread;
use bk_core::{BLOCKS, Core, KERNEL_BLOCKS, WORDS_OF_BLOCK};
use bk_cpu::Event;
use bk_machine::Machine;
use bk_space::{PAGES, Regs, Rights};
use std::alloc::Global;

/// How many blocks of core a page has at most.
const BLOCKS_OF_PAGE: u16 = 128;

/// The first block above the kernel's.
const FIRST: u16 = KERNEL_BLOCKS as u16;

/// Whether the case neither gives a word of the page nor writes to it.
fn is_blank(case: &StepCase, page: u8) -> bool {
    for content in &case.words {
        if content.page == page {
            return false;
        }
    }
    match case.write {
        Some(write) => write.page != page,
        None => true,
    }
}

/// The block of core from which on a page lies. Pages of zeros, of which more than core has can be in a case, lie on the same
/// blocks, the first ones; behind these the other pages lie one after another, the last one of the case first.
fn base_of(case: &StepCase, page: u8) -> u16 {
    if is_blank(case, page) {
        return FIRST;
    }
    let mut base = FIRST + BLOCKS_OF_PAGE;
    for other in 0..PAGES {
        if other > page && !is_blank(case, other) {
            if let Some(shape) = case.pages.get(other as usize) {
                base = base.saturating_add(u16::from(shape.blocks));
            }
        }
    }
    base
}

/// Lays words into core from a block on; false where core ends before them.
fn lay_words(core: &mut Core, base: u16, words: &[u16]) -> bool {
    let mut at = u32::from(base) * WORDS_OF_BLOCK;
    for word in words {
        if at >= BLOCKS * WORDS_OF_BLOCK {
            return false;
        }
        core.set_word(2 * at, *word);
        at += 1;
    }
    true
}

/// Whether these words lie in core from a block on.
fn has_words(core: &Core, base: u16, words: &[u16]) -> bool {
    let mut at = u32::from(base) * WORDS_OF_BLOCK;
    for word in words {
        if at >= BLOCKS * WORDS_OF_BLOCK || core.word(2 * at) != *word {
            return false;
        }
        at += 1;
    }
    true
}

/// Loads a page of the case, unless it has no rights and no blocks; false where the machine can't have it.
fn load(machine: &mut Machine, page: u8, base: u16, shape: CasePage) -> bool
    ensures references { machine.new.references ≡ machine.old.references }
    ensures kernel { machine.new.kernel ≡ machine.old.kernel }
{
    if shape.blocks == 0 {
        return shape.rights == Rights::None;
    }
    if page >= PAGES || base < FIRST || u16::from(shape.blocks) > BLOCKS_OF_PAGE {
        return false;
    }
    if u32::from(base) + u32::from(shape.blocks) > BLOCKS {
        return false;
    }
    machine.load_page(page, base, shape.blocks, shape.rights);
    true
}

/// A machine with the pages of the case.
fn machine_of(alloc: Global, case: &StepCase) -> Result<Machine, Unread>
    ensures references { IfOk result (λ machine. machine.references ≡ 0) }
    ensures kernel { IfOk result (λ machine. machine.kernel ≡ None) }
{
    let Ok(mut machine) = Machine::reserve(alloc) else {
        return Err(Unread::NoMemory);
    };
    let mut page = 0u8;
    for shape in &case.pages {
        let words = filled(alloc, page, *shape, case.words.as_slice())?;
        let base = base_of(case, page);
        if page >= PAGES
            || !lay_words(machine.core_mut(), base, words.as_slice())
            || !load(&mut machine, page, base, *shape)
        {
            return Err(Unread::Form);
        }
        page += 1;
    }
    if page == PAGES {
        Ok(machine)
    } else {
        Err(Unread::Form)
    }
}

/// Whether the pages of the case after its write lie in core.
fn has_pages(alloc: Global, core: &Core, case: &StepCase) -> Result<bool, Unread> {
    for page in 0..PAGES {
        let words = words_after(alloc, case, page)?;
        if !has_words(core, base_of(case, page), words.as_slice()) {
            return Ok(false);
        }
    }
    Ok(true)
}

/// Whether one instruction of the machine, from these registers of its process on, gives the others, this event and this count
/// of references.
fn gives(machine: &mut Machine, before: Regs, after: Regs, event: Event, references: u64) -> bool
    requires { IsNone machine.old.kernel }
    ensures { IsTrue result ↔ (((instruction_of (with_process machine.old before)).regs ≡ after) × ((instruction_of (with_process machine.old before)).outcome ≡ event) × (counted_on machine.old.references (instruction_of (with_process machine.old before)).references ≡ references)) }
{
    machine.set_process(&before);
    let outcome = machine.run_one();
    same_regs(machine.process_regs(), after)
        && same_event(outcome, event)
        && machine.references() == references
}

/// Whether the instruction of the case gives its answer on the machine, whose core has the pages of the case at other blocks
/// than their numbers. That these pages are those of the case, before the instruction and after it, no clause says.
pub fn machine_agrees(alloc: Global, case: &StepCase) -> Result<bool, Unread>
    ensures given { IfOk result (λ agrees. IsTrue agrees → IsGivenByMachine case.now) }
{
    let mut machine = machine_of(alloc, case)?;
    let gives = gives(
        &mut machine,
        case.before,
        case.after,
        case.event,
        case.references,
    );
    Ok(gives && has_pages(alloc, machine.core(), case)?)
}
