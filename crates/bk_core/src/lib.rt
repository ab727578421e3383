//! Core: the physical words of the machine, by word, by byte and by block.
//!
//! Model: `specs/Memory.antt` (`Memory`, `word_at`, `byte_at`, `with_word`, `with_byte`, `zeroed`, `slid`, `KeepsOthers`).
//! Calls: `Core::reserve`, `word`, `set_word`, `byte`, `set_byte`, `zero`, `slide`; `law_example`.
//! Proved: each call reads or changes exactly the word, byte or blocks that it names, and a core always has 3,968 blocks.
//! Tested: that a core works, through its calls one after another, on octal words.
//! Neither: nothing.
//! Stands on: `bk_base`, `bk_object`, `bk_space`.
#![tactic(auto)]

mod laws;
mod memory;
#[cfg(test)]
mod tests;

pub use laws::law_example;
pub use memory::{BLOCKS, BYTES_OF_BLOCK, Core, KERNEL_BLOCKS, WORDS_OF_BLOCK};
