ghost use Rattle.std.specs.Prelude.{◌≡◌, ◌+◌, ◌*◌, ◌/◌, ◌%◌, ◌≤◌, ◌<◌, ◌∷◌, [], ◌++◌, ◌^◌, length, codes, decimal, OnOk, OnErr};
ghost use Rattle.arrayvec.specs.ArrayVec.{array_vec_len};
ghost use Rattle.bk_base.specs.Written.{Took, Broke};
ghost use Rattle.bk_report.specs.Text.{text_of, octal3, octal6, words_of, answer_of, how_of, IsAnswered};

use crate::item::ReportItem;
use arrayvec::ArrayVec;
use bk_base::{Failed, Sink, write_all};
use itoa::{Buffer, Integer};

/// Appends a text to a line.
pub fn put(out: &mut ArrayVec<u8, 96>, text: &[u8])
    requires { array_vec_len out.old + length text.now ≤ 96 }
    ensures items { out.new.items ≡ out.old.items ++ text.now }
    ensures len { array_vec_len out.new ≡ array_vec_len out.old + length text.now }
{
    let _fits = out.try_extend_from_slice(text);
}

/// Appends a number in decimal, without leading zeros.
pub fn put_decimal<I: Integer>(out: &mut ArrayVec<u8, 96>, n: I)
    requires { array_vec_len out.old + I.MAX_STR_LEN ≤ 96 }
    ensures items { out.new.items ≡ out.old.items ++ I.text n }
    ensures len { array_vec_len out.new ≤ array_vec_len out.old + I.MAX_STR_LEN }
{
    let mut buffer = Buffer::new();
    put(out, buffer.format(n).as_bytes());
}

/// The two octal digits of each number below 64.
static PAIRS: [u8; 128] =
    *b"00010203040506071011121314151617202122232425262730313233343536374041424344454647505152535455565760616263646566677071727374757677";

#[inline(always)]
fn pair(n: u16) -> [u8; 2]
    requires { n < 64 }
    ensures { result ≡ (48 + n / 8) ∷ (48 + n % 8) ∷ [] }
{
    let from = n as usize * 2;
    [PAIRS[from], PAIRS[from + 1]]
}

/// The six octal digits of a word.
#[inline(always)]
fn digits(n: u16) -> [u8; 6]
    ensures { result ≡ octal6 n }
{
    let high = pair(n / 4096);
    let middle = pair(n / 64 % 64);
    let low = pair(n % 64);
    [high[0], high[1], middle[0], middle[1], low[0], low[1]]
}

/// Appends a word as six octal digits.
pub fn put_word(out: &mut ArrayVec<u8, 96>, n: u16)
    requires { array_vec_len out.old + 6 ≤ 96 }
    ensures items { out.new.items ≡ out.old.items ++ octal6 n }
    ensures len { array_vec_len out.new ≡ array_vec_len out.old + 6 }
{
    put(out, &digits(n));
}

/// Appends a space and a number in decimal.
fn put_count<I: Integer>(out: &mut ArrayVec<u8, 96>, n: I)
    requires { array_vec_len out.old + 1 + I.MAX_STR_LEN ≤ 96 }
    ensures items { out.new.items ≡ out.old.items ++ codes " " ++ I.text n }
    ensures len { array_vec_len out.new ≤ array_vec_len out.old + 1 + I.MAX_STR_LEN }
{
    put(out, b" ");
    put_decimal(out, n);
}

/// Appends a space and a number in decimal, which mostly has one digit or two.
#[inline(always)]
fn put_number(out: &mut ArrayVec<u8, 96>, n: u32)
    requires { array_vec_len out.old + 11 ≤ 96 }
    ensures items { out.new.items ≡ out.old.items ++ codes " " ++ decimal n }
    ensures len { array_vec_len out.new ≤ array_vec_len out.old + 11 }
{
    if n < 10 {
        put(out, &[b' ', 48 + n as u8]);
    } else if n < 100 {
        put(out, &[b' ', 48 + (n / 10) as u8, 48 + (n % 10) as u8]);
    } else {
        put_count(out, n);
    }
}

/// Appends a space and a byte as three octal digits.
#[inline(always)]
fn put_byte(out: &mut ArrayVec<u8, 96>, n: u8)
    requires { array_vec_len out.old + 4 ≤ 96 }
    ensures items { out.new.items ≡ out.old.items ++ codes " " ++ octal3 n }
    ensures len { array_vec_len out.new ≡ array_vec_len out.old + 4 }
{
    put(out, &[b' ', 48 + n / 64, 48 + n / 8 % 8, 48 + n % 8]);
}

/// Appends a space and a word as six octal digits.
#[inline(always)]
fn put_next(out: &mut ArrayVec<u8, 96>, n: u16)
    requires { array_vec_len out.old + 7 ≤ 96 }
    ensures items { out.new.items ≡ out.old.items ++ codes " " ++ octal6 n }
    ensures len { array_vec_len out.new ≡ array_vec_len out.old + 7 }
{
    let [a, b, c, d, e, f] = digits(n);
    put(out, &[b' ', a, b, c, d, e, f]);
}

/// Appends the six words, each after a space.
fn put_words(out: &mut ArrayVec<u8, 96>, words: &[u16; 6])
    requires { array_vec_len out.old + 42 ≤ 96 }
    ensures items { out.new.items ≡ out.old.items ++ words_of words.now }
    ensures len { array_vec_len out.new ≡ array_vec_len out.old + 42 }
{
    for word in words {
        put_next(out, *word);
    }
}

/// Appends a space and the word for an answer, and after another space its cause, which is 0 for yes.
fn put_answer(out: &mut ArrayVec<u8, 96>, answer: u8, cause: u8)
    requires room { array_vec_len out.old + 15 ≤ 96 }
    requires yes { answer ≡ 0 → cause ≡ 0 }
    ensures items { out.new.items ≡ out.old.items ++ codes " " ++ answer_of answer ++ codes " " ++ decimal cause }
    ensures len { array_vec_len out.new ≤ array_vec_len out.old + 15 }
{
    match answer {
        0 => put(out, b" yes 0"),
        1 => {
            put(out, b" no");
            put_number(out, u32::from(cause));
        }
        _ => {
            put(out, b" ?");
            put_number(out, u32::from(cause));
        }
    }
}

/// Appends a space and the word for what became of a process.
fn put_how(out: &mut ArrayVec<u8, 96>, entered: bool)
    requires { array_vec_len out.old + 6 ≤ 96 }
    ensures items { out.new.items ≡ out.old.items ++ codes " " ++ how_of entered }
    ensures len { array_vec_len out.new ≤ array_vec_len out.old + 6 }
{
    if entered {
        put(out, b" enter");
    } else {
        put(out, b" stop");
    }
}

/// Prints the line of an item, with its LF, on a line that is empty.
pub fn print_on(item: &ReportItem, out: &mut ArrayVec<u8, 96>)
    requires answered { IsAnswered item.now }
    requires empty { array_vec_len out.old ≡ 0 }
    ensures { out.new.items ≡ text_of item.now }
{
    match item {
        ReportItem::Call {
            slot,
            turn,
            subject,
            number,
            regs,
            answer,
            cause,
        } => {
            put(out, b"C");
            put_number(out, *slot);
            put_number(out, u32::from(*turn));
            put_number(out, u32::from(*subject));
            put_byte(out, *number);
            put_words(out, regs);
            put_answer(out, *answer, *cause);
        }
        ReportItem::Fault {
            slot,
            turn,
            subject,
            cause,
            pc,
            entered,
        } => {
            put(out, b"F");
            put_number(out, *slot);
            put_number(out, u32::from(*turn));
            put_number(out, u32::from(*subject));
            put_number(out, u32::from(*cause));
            put_next(out, *pc);
            put_how(out, *entered);
        }
        ReportItem::Byte {
            slot,
            turn,
            line,
            byte,
        } => {
            put(out, b"L");
            put_number(out, *slot);
            put_number(out, u32::from(*turn));
            put_number(out, u32::from(*line));
            put_byte(out, *byte);
        }
        ReportItem::End {
            slots,
            turns,
            references,
            calls,
        } => {
            put(out, b"END");
            put_count(out, *slots);
            put_count(out, *turns);
            put_count(out, *references);
            put_count(out, *calls);
        }
    }
    put(out, b"\n");
}

/// The line of an item, with its LF.
pub fn print(item: &ReportItem) -> ArrayVec<u8, 96>
    requires { IsAnswered item.now }
    ensures { result.items ≡ text_of item.now }
{
    let mut out = ArrayVec::new();
    print_on(item, &mut out);
    out
}

/// Writes the line of an item to a sink.
pub fn write_line<O: Sink>(out: &mut O, item: &ReportItem) -> Result<(), Failed>
    requires { IsAnswered item.now }
    ensures written { OnOk result (Took (O.taken out.old) (O.taken out.new) (O.faults out.old) (O.faults out.new) (text_of item.now)) }
    ensures failed { OnErr result (Broke (O.taken out.old) (O.taken out.new) (O.faults out.old) (O.faults out.new) (text_of item.now)) }
{
    let mut line = ArrayVec::new();
    print_on(item, &mut line);
    write_all(out, line.as_slice())
}
