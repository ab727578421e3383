ghost use Rattle.std.specs.Prelude.{◌≡◌, ◌<◌, ◌≤◌, ◌%◌, IfOk, replicate, slice_set, vec_len};
ghost use Rattle.bk_space.specs.AddrSpace.{Page};
ghost use Rattle.bk_cpu.specs.Pages.{pages_of};
ghost use Rattle.bk_cpu.specs.Plain.{no_page, page_in, pages_written};

use crate::page::{PlainPage, WORDS_OF_BLOCK, WORDS_OF_PAGE, read_byte, read_word, write};
use bk_base::NoMemory;
use bk_space::{Abort, Bus, Mode, PAGES, Rights, Space, Width, page_number};
use std::alloc::{AllocError, Global};
use std::marker::Model;

/// A bus of 32 pages, each with words of its own.
#[derive(Drop)]
pub struct PlainBus {
    pages: Vec<PlainPage>,
    references: u64,
}

impl Model for PlainBus {
    ghost use Rattle.std.specs.Prelude.{◌≡◌, vec_len};
    ghost use Rattle.bk_cpu.specs.Plain.{Plain};
    ghost use Rattle.bk_space.specs.declared.address.TheConstants.{PAGES};
    ghost use Rattle.bk_cpu.specs.Pages.{pages_of};

    ghost Value = { Plain };

    ghost view = { λ b. record { pages = pages_of b.pages.items; references = b.references } };

    ghost invariant = { λ b. vec_len b.pages ≡ PAGES };
}

// 32 pages without rights.
fn free_pages(alloc: Global) -> Result<Vec<PlainPage>, AllocError>
    ensures { IfOk result (λ pages. pages_of pages.items ≡ replicate PAGES no_page) }
{
    let mut pages = Vec::new(alloc);
    'pages: for _n in 0..PAGES {
        pages.push(PlainPage {
            rights: Rights::None,
            words: Vec::new(alloc),
        })?;
    }
    Ok(pages)
}

impl PlainBus {
    /// 32 pages without rights; no reference was made yet.
    pub fn new(alloc: Global) -> Result<PlainBus, NoMemory>
        ensures { IfOk result (λ b. b ≡ record { pages = replicate PAGES no_page; references = 0 }) }
    {
        Ok(PlainBus {
            pages: free_pages(alloc)?,
            references: 0,
        })
    }

    /// Replaces a page: 0 to 31, with a whole number of blocks of 32 words, at most 4,096 words.
    #[tactic(auto, using(crate::proofs::PageLemmas::page_lemmas))]
    pub fn set_page(&mut self, page: u8, rights: Rights, words: Vec<u16>)
        requires page { page < PAGES }
        requires blocks { vec_len words % WORDS_OF_BLOCK ≡ 0 }
        requires most { vec_len words ≤ WORDS_OF_PAGE }
        ensures { self.new ≡ record self.old { pages = slice_set self.old.pages page (record { rights = rights; words = words.items }) } }
    {
        self.pages[page as usize] = PlainPage { rights, words };
    }

    /// The words of a page.
    #[tactic(auto, using(crate::proofs::PageLemmas::page_lemmas))]
    pub fn words(&self, page: u8) -> &[u16]
        requires { page < PAGES }
        ensures { result.now ≡ (page_in self.now.pages page).words }
    {
        self.pages[page as usize].words.as_slice()
    }

    /// How many references were made; the count stands at its last value.
    pub fn references(&self) -> u64
        ensures { result ≡ self.now.references }
    {
        self.references
    }
}

#[tactic(auto, using(crate::proofs::PageLemmas::page_lemmas), unfolding(bk_space::specs::Counts::counted_on, bk_space::specs::AddrSpace::page_at, bk_space::specs::AddrSpace::read_at, bk_space::specs::AddrSpace::write_at, crate::specs::Plain::pages_written))]
impl Bus for PlainBus {
    ghost use Rattle.std.specs.Prelude.{List};

    ghost State = { List Page };

    ghost state = { λ b. b.pages };

    ghost shown = { page_in };

    ghost after = { pages_written };

    ghost references = { λ b. b.references };

    fn read_word(&mut self, mode: Mode, space: Space, addr: u16) -> Result<u16, Abort> {
        self.references = self.references.saturating_add(1);
        read_word(&self.pages[page_number(mode, space, addr) as usize], addr)
    }

    fn read_byte(&mut self, mode: Mode, space: Space, addr: u16) -> Result<u8, Abort> {
        self.references = self.references.saturating_add(1);
        read_byte(&self.pages[page_number(mode, space, addr) as usize], addr)
    }

    fn write_word(&mut self, mode: Mode, space: Space, addr: u16, value: u16) -> Result<(), Abort> {
        self.references = self.references.saturating_add(1);
        let page = &mut self.pages[page_number(mode, space, addr) as usize];
        write(page, Width::Word, addr, value)
    }

    fn write_byte(&mut self, mode: Mode, space: Space, addr: u16, value: u8) -> Result<(), Abort> {
        self.references = self.references.saturating_add(1);
        let page = &mut self.pages[page_number(mode, space, addr) as usize];
        write(page, Width::Byte, addr, u16::from(value))
    }
}
