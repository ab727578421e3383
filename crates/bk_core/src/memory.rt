// The physical words, in one list.

ghost use Rattle.std.specs.Prelude.{◌≡◌, ℕ, ◌+◌, ◌*◌, ◌%◌, ◌<◌, ◌≤◌, length, drop, replicate, IfOk};
ghost use lib.Seq.{paste};
ghost use Rattle.bk_object.specs.Limits.{words_of_block};
ghost use Rattle.bk_core.specs.Memory.{blocks_of_core, bytes_of_core, words_of_core};

use bk_base::NoMemory;
use std::alloc::Global;
use std::marker::Model;

/// How many blocks core has.
pub const BLOCKS: u32 = 3968;

/// How many blocks of core, the first ones, are the kernel's.
pub const KERNEL_BLOCKS: u32 = 64;

/// How many words of 16 bits a block has.
pub const WORDS_OF_BLOCK: u32 = 32;

/// How many bytes a block has.
pub const BYTES_OF_BLOCK: u32 = 2 * WORDS_OF_BLOCK;

/// The 253,952 bytes of core: 3,968 blocks of 32 words of 16 bits.
///
/// An address counts bytes. The byte at an even address is the low half of its word, as on the
/// PDP-11. A clause sees the list of all 126,976 words.
#[derive(Drop)]
pub struct Core {
    words: Vec<u16>,
    ghost full: { length words.items ≡ words_of_core },
}

impl Model for Core {
    ghost use Rattle.bk_core.specs.Memory.{Memory};

    ghost Value = { Memory };

    ghost view = { λ c. record { words = c.words.items; full = c.full } };
}

impl Core {
    ghost use Rattle.bk_core.specs.Memory.{block_words, KeepsOthers, word_at, byte_at, with_word, with_byte, zeroed, slid};

    /// A core in which each word is zero, or NoMemory.
    pub fn reserve(alloc: Global) -> Result<Core, NoMemory>
        ensures { IfOk result (λ core. core.words ≡ replicate words_of_core 0) }
    {
        let words = vec![in alloc; 0u16; (BLOCKS * WORDS_OF_BLOCK) as usize]?;
        Ok(Core { words })
    }

    /// The word at an even address.
    pub fn word(&self, addr: u32) -> u16
        requires even { addr % 2 ≡ 0 }
        requires inside { addr < bytes_of_core }
        ensures { result ≡ word_at self.now.words addr }
    {
        self.words[(addr / 2) as usize]
    }

    /// The word at an even address becomes this one; all others stay.
    pub fn set_word(&mut self, addr: u32, value: u16)
        requires even { addr % 2 ≡ 0 }
        requires inside { addr < bytes_of_core }
        ensures { self.new.words ≡ with_word self.old.words addr value }
    {
        self.words[(addr / 2) as usize] = value;
    }

    /// The byte at an address.
    pub fn byte(&self, addr: u32) -> u8
        requires inside { addr < bytes_of_core }
        ensures { result ≡ byte_at self.now.words addr }
    {
        let word = self.words[(addr / 2) as usize];
        if addr % 2 == 0 {
            (word % 256) as u8
        } else {
            (word / 256) as u8
        }
    }

    /// The byte at an address becomes this one; all others stay, the other half of its word too.
    pub fn set_byte(&mut self, addr: u32, value: u8)
        requires inside { addr < bytes_of_core }
        ensures { self.new.words ≡ with_byte self.old.words addr value }
    {
        let at = (addr / 2) as usize;
        let word = self.words[at];
        self.words[at] = if addr % 2 == 0 {
            word / 256 * 256 + u16::from(value)
        } else {
            u16::from(value) * 256 + word % 256
        };
    }

    /// All words of so many blocks from a first one on become zero; all others stay.
    pub fn zero(&mut self, first: u32, count: u32)
        requires inside { first + count ≤ blocks_of_core }
        ensures words { self.new.words ≡ zeroed self.old.words first count }
        ensures zero { block_words self.new.words first count ≡ replicate (words_of_block * count) 0 }
        ensures others { KeepsOthers first count self.old.words self.new.words }
    {
        let first = first as usize * WORDS_OF_BLOCK as usize;
        let count = count as usize * WORDS_OF_BLOCK as usize;
        zero_words(&mut self.words, first, count);
    }

    /// Copies so many blocks to a lower place, which may lie in part where they stand; the blocks
    /// outside that place keep their words.
    pub fn slide(&mut self, from: u32, to: u32, count: u32)
        requires down { to ≤ from }
        requires inside { from + count ≤ blocks_of_core }
        ensures words { self.new.words ≡ slid self.old.words from to count }
        ensures there { block_words self.new.words to count ≡ block_words self.old.words from count }
        ensures others { KeepsOthers to count self.old.words self.new.words }
    {
        let from = from as usize * WORDS_OF_BLOCK as usize;
        let to = to as usize * WORDS_OF_BLOCK as usize;
        let count = count as usize * WORDS_OF_BLOCK as usize;
        copy_words(&mut self.words, from, to, count);
    }
}

// So many words stand a second time from another place on, as they stood before.
fn copy_words(words: &mut Vec<u16>, from: usize, to: usize, count: usize)
    requires down { to ≤ from }
    requires inside { from + count ≤ length words.old.items }
    ensures { words.new.items ≡ paste words.old.items to (drop from words.old.items) count }
{
    words.as_mut_slice().copy_within(from..from + count, to);
}

// So many words from a place on become zero.
fn zero_words(words: &mut [u16], first: usize, count: usize)
    requires { first + count ≤ length words.old }
    ensures { words.new ≡ paste words.old first (replicate count 0) count }
{
    for i in 0..count {
        words[first + i] = 0;
    }
}
