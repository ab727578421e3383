// Programs: words with their symbols.

ghost use Rattle.std.specs.Prelude.{◌≡◌, ◌+◌, ◌*◌, ◌^◌, ◌∷◌, ◌++◌, [], IfOk, OnOk};
ghost use Rattle.bk_asm.specs.Assembled.{words_of};

use bk_base::{Bytes, NoMemory, Sequence, Words};
use std::alloc::Global;

/// A name and its value. Local labels are no symbols.
#[derive(Drop)]
pub struct Symbol {
    /// In upper case.
    pub name: Bytes,
    pub value: u16,
}

/// Symbols in byte order of names.
pub type Symbols = Sequence<Symbol>;

/// An assembled program.
#[derive(Drop)]
pub struct Program {
    /// The address of the first word.
    pub origin: u16,
    pub words: Words,
    pub symbols: Symbols,
}

// The word of two bytes, low byte first.
fn word_of(low: u8, high: u8) -> u16
    ensures { result ≡ low + 2 ^ 8 * high }
{
    u16::from(low) + 256 * u16::from(high)
}

// A word behind others.
fn push(words: &mut Vec<u16>, word: u16) -> Result<(), NoMemory>
    ensures { OnOk result (words.new.items ≡ words.old.items ++ word ∷ []) }
{
    let Ok(()) = words.push(word) else {
        return Err(NoMemory);
    };
    Ok(())
}

/// Bytes as words, low byte first, with a zero byte where one is missing.
#[tactic(auto, using(crate::proofs::Words::words_of_pair, crate::proofs::Words::words_of_last, crate::proofs::Words::words_of_none))]
pub(crate) fn words_of(alloc: Global, bytes: &[u8]) -> Result<Words, NoMemory>
    ensures { IfOk result (λ words. words ≡ words_of bytes.now) }
{
    let mut words = Vec::with_capacity(alloc, bytes.len().div_ceil(2))?;
    let mut rest = bytes;
    'pairs: while rest.len() >= 2 {
        push(&mut words, word_of(rest[0], rest[1]))?;
        rest = rest.split_at(2).1;
    }
    if !rest.is_empty() {
        push(&mut words, word_of(rest[0], 0))?;
    }
    Ok(Words::from_vec(words))
}
