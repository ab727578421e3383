ghost use Rattle.std.specs.Prelude.{◌≡◌, ◌++◌, ◌/◌, ◌%◌, ◌^◌, ◌<◌, ◌==◌, bytes_eq, decimal, IfOk, OnOk};
ghost use Rattle.std.specs.List.{slice_split};
ghost use Rattle.bk_report.specs.Lines.{names_in, are_record, kept, has_bit, line_records_of};

use crate::parts::cut;
use bk_base::NoMemory;
use itoa::Buffer;
use std::alloc::{AllocError, Global};

fn is_number(word: &[u8], n: u8) -> bool
    ensures { result ≡ bytes_eq word.now (decimal n) }
{
    word == Buffer::new().format(n).as_bytes()
}

fn has_bit(lines: u16, n: u8) -> bool
    requires { n < 16 }
    ensures value { result ≡ has_bit lines n }
{
    lines >> n & 1 == 1
}

/// The word is the number of a line whose bit is set.
fn is_named(word: &[u8], lines: u16) -> bool
    ensures { result ≡ names_in (has_bit lines) word.now }
{
    for n in 0..16u8 {
        if has_bit(lines, n) && is_number(word, n) {
            return true;
        }
    }
    false
}

/// Whether a line is a record of a line whose bit is set.
fn is_record(text: &[u8], lines: u16) -> bool
    ensures { result ≡ are_record (has_bit lines) (slice_split (λ b. b == 32) text.now) }
{
    let Some((kind, rest)) = cut(text, b' ') else {
        return false;
    };
    let Some((_slot, rest)) = cut(rest, b' ') else {
        return false;
    };
    let Some((_turn, rest)) = cut(rest, b' ') else {
        return false;
    };
    let Some((line, rest)) = cut(rest, b' ') else {
        return false;
    };
    match cut(rest, b' ') {
        None => kind == b"L".as_slice() && is_named(line, lines),
        Some((_byte, _more)) => false,
    }
}

fn keep(records: &mut Vec<u8>, text: &[u8], lines: u16) -> Result<(), AllocError>
    ensures { OnOk result (records.new.items ≡ records.old.items ++ kept (has_bit lines) text.now) }
{
    if is_record(text, lines) {
        records.extend_from_slice(text)?;
        records.extend_from_slice(b"\n")?;
    }
    Ok(())
}

/// The L records of the lines whose bits are set in `lines`, in order. It takes memory for them.
pub fn line_records(alloc: Global, report: &[u8], lines: u16) -> Result<Vec<u8>, NoMemory>
    ensures { IfOk result (λ records. records.items ≡ line_records_of (has_bit lines) report.now) }
{
    let mut records = Vec::new(alloc);
    let mut rest = report;
    while let Some((text, more)) = cut(rest, b'\n') {
        keep(&mut records, text, lines)?;
        rest = more;
    }
    Ok(records)
}
