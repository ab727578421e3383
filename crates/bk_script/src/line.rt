ghost use Rattle.std.specs.Prelude.{◌≡◌, ◌==◌, ◌<◌, ◌∷◌, [], length, IfSome, IfNone, IfOk};
ghost use Rattle.bk_script.specs.Lines.{line_of, end_of, record_of};

use crate::field::{bytes_of, is_bytes, is_number, number};
use bk_base::{Bytes, NoMemory};
use bk_report::cut;
use std::alloc::Global;

/// What a line says: bytes typed on a line of the image in a slot, or how many slots there are.
#[derive(Drop)]
pub enum Line {
    Record { slot: u32, line: u32, bytes: Bytes },
    Ends(u32),
}

fn read_end(word: &[u8], slots: &[u8]) -> Option<Line>
    ensures { result ≡ end_of word.now slots.now }
{
    if word == b"END".as_slice() && is_number(slots) {
        Some(Line::Ends(number(slots)))
    } else {
        None
    }
}

fn read_record(
    alloc: Global,
    slot: &[u8],
    line: &[u8],
    hex: &[u8],
) -> Result<Option<Line>, NoMemory>
    ensures { IfOk result (λ said. said ≡ record_of slot.now line.now hex.now) }
{
    if is_number(slot) && is_number(line) && is_bytes(hex) {
        Ok(Some(Line::Record {
            slot: number(slot),
            line: number(line),
            bytes: bytes_of(alloc, hex)?,
        }))
    } else {
        Ok(None)
    }
}

/// What a line says, or none where it is neither a record nor an END line.
#[tactic(auto, unfolding(crate::specs::Lines::line_of))]
pub fn read_line(alloc: Global, text: &[u8]) -> Result<Option<Line>, NoMemory>
    ensures { IfOk result (λ said. said ≡ line_of text.now) }
{
    let Some((first, rest)) = cut(text, b' ') else {
        return Ok(None);
    };
    let Some((second, rest)) = cut(rest, b' ') else {
        return Ok(read_end(first, rest));
    };
    match cut(rest, b' ') {
        None => read_record(alloc, first, second, rest),
        Some((_third, _more)) => Ok(None),
    }
}
