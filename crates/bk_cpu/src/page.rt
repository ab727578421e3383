ghost use Rattle.std.specs.Prelude.{◌≡◌, ◌<◌, ◌^◌, ◌/◌, slice_index, vec_len, true, false, OnOk, OnErr};
ghost use Rattle.bk_space.specs.AddrSpace.{refusal, offset_of, content, put, unless};
ghost use Rattle.bk_space.specs.Widths.{bits_of};
ghost use Rattle.bk_space.specs.declared.reference.Width.TheVariants.{Word, Byte};
ghost use Rattle.bk_cpu.specs.Pages.{page_of};

use bk_space::{Abort, Rights, Width, answer, byte_in, merged, offset_of};

/// How many words a block has.
pub const WORDS_OF_BLOCK: usize = 32;

/// How many words a page has at most.
pub const WORDS_OF_PAGE: usize = 4096;

/// A page of a plain bus.
#[derive(Drop)]
pub(crate) struct PlainPage {
    pub(crate) rights: Rights,
    pub(crate) words: Vec<u16>,
}

// The word at an address that is inside the page.
fn word_of(page: &PlainPage, addr: u16) -> u16
    requires { offset_of addr / 2 < vec_len page.now.words }
    ensures { result ≡ slice_index page.now.words.items (offset_of addr / 2) }
{
    page.words[(offset_of(addr) / 2) as usize]
}

/// Reads the word at an address of the page.
pub(crate) fn read_word(page: &PlainPage, addr: u16) -> Result<u16, Abort>
    ensures { result ≡ unless (refusal (page_of page.now) Word addr false) (content (page_of page.now) Word addr) }
{
    answer(page.rights, page.words.len(), Width::Word, addr, false)?;
    Ok(word_of(page, addr))
}

/// Reads the byte at an address of the page.
pub(crate) fn read_byte(page: &PlainPage, addr: u16) -> Result<u8, Abort>
    ensures { result ≡ unless (refusal (page_of page.now) Byte addr false) (content (page_of page.now) Byte addr) }
{
    answer(page.rights, page.words.len(), Width::Byte, addr, false)?;
    Ok(byte_in(addr, word_of(page, addr)))
}

/// Writes at an address of the page.
pub(crate) fn write(page: &mut PlainPage, width: Width, addr: u16, value: u16) -> Result<(), Abort>
    requires { value < 2 ^ bits_of width }
    ensures answer { result ≡ unless (refusal (page_of page.old) width addr true) tt }
    ensures written { OnOk result (page_of page.new ≡ record (page_of page.old) { words = put width addr value page.old.words.items }) }
    ensures kept { OnErr result (page.new ≡ page.old) }
{
    answer(page.rights, page.words.len(), width, addr, true)?;
    let word = merged(width, addr, value, word_of(page, addr));
    page.words[(offset_of(addr) / 2) as usize] = word;
    Ok(())
}
