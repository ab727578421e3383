// The listing of a program.

ghost use Rattle.std.specs.Prelude.{◌≡◌, ◌++◌, ◌≤◌, ◌+◌, ◌*◌, ◌/◌, IfOk, OnOk, length, take, drop, flat_map};
ghost use Rattle.bk_asm.specs.Listing as listing;
ghost use Rattle.bk_asm.specs.Places.{as_value};

use crate::program::{Program, Symbol};
use arrayvec::ArrayVec;
use bk_base::NoMemory;
use bk_report::{put, put_decimal, put_word};
use std::alloc::Global;

// Bytes behind others.
fn push(out: &mut Vec<u8>, bytes: &[u8]) -> Result<(), NoMemory>
    ensures { OnOk result (out.new.items ≡ out.old.items ++ bytes.now) }
{
    let Ok(()) = out.extend_from_slice(bytes) else {
        return Err(NoMemory);
    };
    Ok(())
}

// The line of a program behind others.
fn push_heading(out: &mut Vec<u8>, name: &[u8], program: &Program) -> Result<(), NoMemory>
    ensures { OnOk result (out.new.items ≡ out.old.items ++ listing.heading name.now program.now) }
{
    let mut numbers = ArrayVec::new();
    put(&mut numbers, b" ");
    put_word(&mut numbers, program.origin);
    put(&mut numbers, b" ");
    put_decimal(&mut numbers, program.words.as_slice().len() as u64);
    put(&mut numbers, b"\n");
    push(out, b"PROGRAM ")?;
    push(out, name)?;
    push(out, numbers.as_slice())
}

// The line of a symbol behind others.
fn push_symbol(out: &mut Vec<u8>, symbol: &Symbol) -> Result<(), NoMemory>
    ensures { OnOk result (out.new.items ≡ out.old.items ++ listing.symbol_line symbol.now) }
{
    let mut value = ArrayVec::new();
    put(&mut value, b" ");
    put_word(&mut value, symbol.value);
    put(&mut value, b"\n");
    push(out, symbol.name.as_slice())?;
    push(out, value.as_slice())
}

// A line of up to eight words from an address on, behind others.
fn push_words(out: &mut Vec<u8>, address: u16, words: &[u16]) -> Result<(), NoMemory>
    requires { length words.now ≤ 8 }
    ensures { OnOk result (out.new.items ≡ out.old.items ++ listing.word_line address words.now) }
{
    let mut line = ArrayVec::new();
    put_word(&mut line, address);
    put(&mut line, b":");
    for word in words {
        put(&mut line, b" ");
        put_word(&mut line, *word);
    }
    put(&mut line, b"\n");
    push(out, line.as_slice())
}

// The words of a line, by its number.
fn words_at(words: &[u16], line: usize) -> &[u16]
    requires { 8 * line ≤ length words.now }
    ensures words { result.now ≡ take 8 (drop (8 * line) words.now) }
    ensures few { length result.now ≤ 8 }
{
    let rest = words.split_at(8 * line).1;
    rest.split_at(rest.len().min(8)).0
}

// The address of a line of words, by its number.
fn address_at(origin: u16, line: usize) -> u16
    ensures { result ≡ as_value (origin + 16 * line) }
{
    origin.wrapping_add((line % 4096) as u16 * 16)
}

// The lines of a program's words behind others.
fn push_lines(out: &mut Vec<u8>, program: &Program) -> Result<(), NoMemory>
    ensures { OnOk result (out.new.items ≡ out.old.items ++ listing.word_lines ((length program.now.words + 7) / 8) program.now) }
{
    let words = program.words.as_slice();
    for line in 0..words.len().div_ceil(8) {
        push_words(out, address_at(program.origin, line), words_at(words, line))?;
    }
    Ok(())
}

// The lines of a program's symbols behind others.
fn push_symbols(out: &mut Vec<u8>, program: &Program) -> Result<(), NoMemory>
    ensures { OnOk result (out.new.items ≡ out.old.items ++ flat_map listing.symbol_line program.now.symbols) }
{
    for symbol in program.symbols.as_slice() {
        push_symbol(out, symbol)?;
    }
    Ok(())
}

/// The listing of a program under a name: its heading, its symbols, and its words, eight a line.
#[tactic(auto, unfolding(crate::specs::Listing::listed))]
pub fn listing(alloc: Global, name: &[u8], program: &Program) -> Result<Vec<u8>, NoMemory>
    ensures { IfOk result (λ bytes. bytes.items ≡ listing.listed name.now program.now) }
{
    let mut out = Vec::new(alloc);
    push_heading(&mut out, name, program)?;
    push_symbols(&mut out, program)?;
    push_lines(&mut out, program)?;
    Ok(out)
}
