ghost use Rattle.std.specs.Prelude.{◌≡◌, ◌+◌, ◌==◌, ◌<◌, ◌≤◌, ◌^◌, length, Ok, IfOk, IfErr};
ghost use Rattle.std.specs.List.{slice_split};
ghost use Rattle.bk_base.specs.Faults.{first_failing, Gives, Refuses};
ghost use Rattle.bk_base.specs.declared.stop.Stop.TheVariants.{Bad};
ghost use Rattle.bk_script.specs.Fault.{fault_at};
ghost use Rattle.bk_script.specs.Lines.{follows, is_below, last, record_checks, end_checks, ended, script_of};
ghost use Rattle.bk_script.specs.Script.{IsScript, parts_of, text_of};

use crate::fault::{ScriptFault, ScriptKind, ScriptStop};
use crate::line::{Line, read_line};
use bk_report::cut;
use bk_state::Image;
use bk_system::{Script, TypedAt, TypedList};
use std::alloc::Global;

/// How many bytes a script has at most.
const MOST_BYTES: usize = 1_048_576;

/// How many slots a script has at most.
const MOST_SLOTS: u32 = 65_535;

/// How many turns all of its slots have at most.
const MOST_TURNS: u64 = 4_194_304;

fn follows(before: &[TypedAt], slot: u32, line: u32) -> bool
    ensures order { result ≡ follows (last before.now) slot line }
{
    match before.last() {
        None => true,
        Some(record) => record.slot < slot || record.slot == slot && u32::from(record.line) < line,
    }
}

fn is_below(before: &[TypedAt], slots: u32) -> bool
    ensures { result ≡ is_below (last before.now) slots }
{
    match before.last() {
        None => true,
        Some(record) => record.slot < slots,
    }
}

fn check_record(
    at: u32,
    lines: u8,
    before: &[TypedAt],
    slot: u32,
    line: u32,
) -> Result<(), ScriptFault>
    ensures exact { result ≡ first_failing (fault_at at) (record_checks lines before.now slot line) }
{
    if MOST_SLOTS <= slot {
        return Err(ScriptFault {
            line: at,
            kind: ScriptKind::Limit,
        });
    }
    if u32::from(lines) <= line {
        return Err(ScriptFault {
            line: at,
            kind: ScriptKind::Line,
        });
    }
    if !follows(before, slot, line) {
        return Err(ScriptFault {
            line: at,
            kind: ScriptKind::Order,
        });
    }
    Ok(())
}

fn check_end(at: u32, turns: u16, before: &[TypedAt], slots: u32) -> Result<(), ScriptFault>
    ensures exact { result ≡ first_failing (fault_at at) (end_checks turns before.now slots) }
{
    if MOST_SLOTS < slots || MOST_TURNS < u64::from(slots) * u64::from(turns) {
        return Err(ScriptFault {
            line: at,
            kind: ScriptKind::Limit,
        });
    }
    if !is_below(before, slots) {
        return Err(ScriptFault {
            line: at,
            kind: ScriptKind::Slot,
        });
    }
    Ok(())
}

fn bad(line: u32, kind: ScriptKind) -> ScriptStop
    ensures { result ≡ Bad (fault_at line kind) }
{
    ScriptStop::Bad(ScriptFault { line, kind })
}

// The script after its END line: nothing follows, or the line numbered `at` is one too many.
#[tactic(auto, using(crate::proofs::Parts::end_lemmas))]
fn ended(at: u32, typed: TypedList, slots: u32, more: &[u8]) -> Result<Script, ScriptStop>
    ensures exact { Gives parts_of result (ended at typed slots (slice_split (λ b. b == 10) more.now)) }
{
    if !more.is_empty() {
        return Err(bad(at, ScriptKind::After));
    }
    Ok(Script { slots, typed })
}

fn read_lines(alloc: Global, bytes: &[u8], lines: u8, turns: u16) -> Result<Script, ScriptStop>
    ensures { Gives parts_of result (script_of lines turns bytes.now) }
{
    if bytes.len() > MOST_BYTES {
        return Err(bad(0, ScriptKind::Long));
    }
    let mut typed = Vec::new(alloc);
    let mut at = 1;
    let mut rest = bytes;
    while let Some((text, more)) = cut(rest, b'\n') {
        match read_line(alloc, text)? {
            None => return Err(bad(at, ScriptKind::Form)),
            Some(
                Line::Record {
                    slot,
                    line,
                    bytes: hex,
                },
            ) => {
                check_record(at, lines, &typed, slot, line)?;
                typed.push(TypedAt {
                    slot,
                    line: line as u8,
                    bytes: hex,
                })?;
            }
            Some(Line::Ends(slots)) => {
                check_end(at, turns, &typed, slots)?;
                return ended(at + 1, TypedList::from_vec(typed), slots, more);
            }
        }
        at += 1;
        rest = more;
    }
    Err(bad(at, ScriptKind::End))
}

/// The script that the bytes spell for an image, or its first fault. It takes memory for the records.
pub fn read_script(alloc: Global, bytes: &[u8], image: &Image) -> Result<Script, ScriptStop>
    ensures ok { IfOk result (λ script. script_of image.now.lines image.now.turns bytes.now ≡ Ok (script.typed, script.slots)) }
    ensures bad { IfErr result (λ stop. Refuses stop (script_of image.now.lines image.now.turns bytes.now)) }

    // What is read is spelt by exactly these bytes, and holds of them.
    ensures spelt { IfOk result (λ script. bytes.now ≡ text_of script.typed script.slots) }
    ensures holds { IfOk result (λ script. IsScript image.now.lines image.now.turns script.typed script.slots) }
{
    read_lines(alloc, bytes, image.lines, image.turns)
}
