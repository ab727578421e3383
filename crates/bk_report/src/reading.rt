ghost use Rattle.std.specs.Prelude.{◌≡◌, ◌≢◌, ◌+◌, ◌≤◌, ◌<◌, ◌++◌, ◌^◌, ◌%◌, length, drop, slice_index, IfSome, IfNone, IsTrue, Some, List, ℕ};
ghost use Rattle.bk_report.specs.Text.{text_of, IsLine, IsPrinted};
ghost use Rattle.bk_report.specs.Reading.{front, words_in, answer_in, call_of, fault_of, byte_of, end_of, guess_of, is_answered, read_of};
ghost use Rattle.bk_report.specs.declared.item.ReportItem.{ReportItem as Item};

use crate::item::ReportItem;
use crate::printing::print;

/// The number of the digits in front, and what follows the byte after them.
fn number_in_front(base: u64, bytes: &[u8]) -> (u64, &[u8])
    ensures value { result.0 ≡ (front base 0 bytes.now).0 }
    ensures rest { result.1.now ≡ (front base 0 bytes.now).1 }
{
    let mut n: u64 = 0;
    for i in 0..bytes.len() {
        let b = bytes[i];
        if !b.is_ascii_digit() {
            return (n, &bytes[i + 1..]);
        }
        n = n.wrapping_mul(base).wrapping_add(u64::from(b - b'0'));
    }
    (n, &[])
}

/// What follows the first n bytes.
fn after(bytes: &[u8], n: usize) -> &[u8]
    ensures { result.now ≡ drop n bytes.now }
{
    if n <= bytes.len() { &bytes[n..] } else { &[] }
}

fn first_of(bytes: &[u8]) -> u8
    ensures { result ≡ slice_index bytes.now 0 }
{
    if bytes.is_empty() { 0 } else { bytes[0] }
}

fn low_8(n: u64) -> u8
    ensures { result ≡ n % 2 ^ 8 }
{
    (n % 256) as u8
}

fn low_16(n: u64) -> u16
    ensures { result ≡ n % 2 ^ 16 }
{
    (n % 65_536) as u16
}

fn low_32(n: u64) -> u32
    ensures { result ≡ n % 2 ^ 32 }
{
    (n % 4_294_967_296) as u32
}

/// Six words in front, in octal, and what follows them.
fn words_in_front(bytes: &[u8]) -> ([u16; 6], &[u8])
    ensures words { result.0 ≡ (words_in 6 bytes.now).0 }
    ensures rest { result.1.now ≡ (words_in 6 bytes.now).1 }
{
    let (r0, rest) = number_in_front(8, bytes);
    let (r1, rest) = number_in_front(8, rest);
    let (r2, rest) = number_in_front(8, rest);
    let (r3, rest) = number_in_front(8, rest);
    let (r4, rest) = number_in_front(8, rest);
    let (r5, rest) = number_in_front(8, rest);
    (
        [
            low_16(r0),
            low_16(r1),
            low_16(r2),
            low_16(r3),
            low_16(r4),
            low_16(r5),
        ],
        rest,
    )
}

/// The answer in front, and what follows it.
fn answer_in_front(bytes: &[u8]) -> (u8, &[u8])
    ensures answer { result.0 ≡ (answer_in bytes.now).0 }
    ensures rest { result.1.now ≡ (answer_in bytes.now).1 }
{
    match first_of(bytes) {
        b'y' => (0, after(bytes, 4)),
        b'n' => (1, after(bytes, 3)),
        _ => (2, after(bytes, 2)),
    }
}

fn guess_call(bytes: &[u8]) -> ReportItem
    ensures { result ≡ call_of bytes.now }
{
    let (slot, rest) = number_in_front(10, bytes);
    let (turn, rest) = number_in_front(10, rest);
    let (subject, rest) = number_in_front(10, rest);
    let (number, rest) = number_in_front(8, rest);
    let (regs, rest) = words_in_front(rest);
    let (answer, rest) = answer_in_front(rest);
    let (cause, _) = number_in_front(10, rest);
    ReportItem::Call {
        slot: low_32(slot),
        turn: low_16(turn),
        subject: low_8(subject),
        number: low_8(number),
        regs,
        answer,
        cause: low_8(cause),
    }
}

fn guess_fault(bytes: &[u8]) -> ReportItem
    ensures { result ≡ fault_of bytes.now }
{
    let (slot, rest) = number_in_front(10, bytes);
    let (turn, rest) = number_in_front(10, rest);
    let (subject, rest) = number_in_front(10, rest);
    let (cause, rest) = number_in_front(10, rest);
    let (pc, rest) = number_in_front(8, rest);
    ReportItem::Fault {
        slot: low_32(slot),
        turn: low_16(turn),
        subject: low_8(subject),
        cause: low_8(cause),
        pc: low_16(pc),
        entered: first_of(rest) == b'e',
    }
}

fn guess_byte(bytes: &[u8]) -> ReportItem
    ensures { result ≡ byte_of bytes.now }
{
    let (slot, rest) = number_in_front(10, bytes);
    let (turn, rest) = number_in_front(10, rest);
    let (line, rest) = number_in_front(10, rest);
    let (byte, _) = number_in_front(8, rest);
    ReportItem::Byte {
        slot: low_32(slot),
        turn: low_16(turn),
        line: low_8(line),
        byte: low_8(byte),
    }
}

fn guess_end(bytes: &[u8]) -> ReportItem
    ensures { result ≡ end_of bytes.now }
{
    let (slots, rest) = number_in_front(10, bytes);
    let (turns, rest) = number_in_front(10, rest);
    let (references, rest) = number_in_front(10, rest);
    let (calls, _) = number_in_front(10, rest);
    ReportItem::End {
        slots: low_32(slots),
        turns: low_32(turns),
        references,
        calls: low_32(calls),
    }
}

/// The item that a line can only be.
#[tactic(auto, unfolding(crate::specs::Reading::guess_of))]
fn guess(bytes: &[u8]) -> ReportItem
    ensures { result ≡ guess_of bytes.now }
{
    match first_of(bytes) {
        b'C' => guess_call(after(bytes, 2)),
        b'F' => guess_fault(after(bytes, 2)),
        b'L' => guess_byte(after(bytes, 2)),
        _ => guess_end(after(bytes, 4)),
    }
}

fn is_answered(item: &ReportItem) -> bool
    ensures value { result ≡ is_answered item.now }
{
    match *item {
        ReportItem::Call { answer, cause, .. } => {
            if answer == 0 {
                cause == 0
            } else {
                answer < 3 && cause != 0
            }
        }
        _ => true,
    }
}

/// The guessed item, where its line stands in front.
#[tactic(auto, unfolding(crate::specs::Reading::read_of), using(crate::proofs::Found::answered_from_test))]
fn read_checked(bytes: &[u8]) -> Option<(ReportItem, usize)>
    ensures exact { result ≡ read_of bytes.now }
{
    let item = guess(bytes);
    if !is_answered(&item) {
        return None;
    }
    let line = print(&item);
    if bytes.starts_with(line.as_slice()) {
        Some((item, line.len()))
    } else {
        None
    }
}

/// The item whose line stands in front of the bytes, and the length of that line. None where no item's line does.
pub fn read_item(bytes: &[u8]) -> Option<(ReportItem, usize)>
    ensures found { IfSome result (λ read. IsLine bytes.now read.0 read.1) }
    ensures only { (item : Item) (rest : List ℕ) → IsPrinted item → bytes.now ≡ text_of item ++ rest → result ≡ Some (item, length (text_of item)) }
    ensures none { IfNone result ((item : Item) (rest : List ℕ) → IsPrinted item → bytes.now ≢ text_of item ++ rest) }
{
    read_checked(bytes)
}
