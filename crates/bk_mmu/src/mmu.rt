ghost use Rattle.std.specs.Prelude.{◌≡◌, ◌<◌, ◌≤◌, ◌+◌, ◌*◌, Err, IfOk, replicate, slice_set};
ghost use Rattle.bk_core.specs.Memory.{blocks_of_core, bytes_of_core, kernel_blocks};
ghost use Rattle.bk_object.specs.Limits.{bytes_of_block, most_blocks};
ghost use Rattle.bk_mmu.specs.ActivePages.{loaded, non_resident, relocated, relocated_in};
ghost use Rattle.bk_mmu.specs.Kept.{kept_as, limit, AreWhole, IsWhole};

use crate::page::Page;
use bk_core::BYTES_OF_BLOCK;
use bk_space::{Abort, Mode, PAGES, Rights, Space, offset_of, page_number};
use std::marker::Model;

// A page that is not there.
const NO_PAGE: Page = Page {
    base: 0,
    readable: 0,
    writable: 0,
};

/// The memory management unit: the registers of the 32 pages, of which each that is there lies in core, above the kernel's
/// blocks. A clause sees them as the KT11-C's, by the fields of the processor handbook.
#[derive(Drop)]
pub struct Mmu {
    pages: [Page; PAGES as usize],
    ghost within: { AreWhole pages },
}

impl Model for Mmu {
    ghost use Rattle.bk_mmu.specs.ActivePages.{ActivePages};
    ghost use Rattle.bk_mmu.specs.Kept.{all_kept_as};

    ghost Value = { ActivePages };

    ghost view = { λ m. record { registers = all_kept_as m.pages; full = m.within.full; placed = m.within.placed } };
}

// Why a reference that reaches too far doesn't complete.
#[cold]
#[tactic(auto, unfolding(crate::specs::ActivePages::relocated))]
fn refusal(page: Page, offset: u16, writes: bool) -> Abort
    requires whole { IsWhole page }
    requires beyond { limit page writes ≤ offset }
    ensures { relocated (kept_as page) offset writes ≡ Err result }
{
    if page.readable == 0 {
        Abort::NonResident
    } else if offset >= page.readable {
        Abort::Length
    } else {
        Abort::ReadOnly
    }
}

// The physical address of the byte at an offset in the page, or why the reference doesn't complete.
#[inline(always)]
#[tactic(auto, unfolding(crate::specs::ActivePages::relocated))]
fn reach(page: Page, offset: u16, writes: bool) -> Result<u32, Abort>
    requires { IsWhole page }
    ensures answer { result ≡ relocated (kept_as page) offset writes }
    ensures inside { IfOk result (λ at. at < bytes_of_core) }
    ensures above { IfOk result (λ at. bytes_of_block * kernel_blocks ≤ at) }
{
    let limit = if writes { page.writable } else { page.readable };
    if offset < limit {
        Ok(page.base + u32::from(offset))
    } else {
        Err(refusal(page, offset, writes))
    }
}

// The page of so many blocks from a first one on, with these rights.
fn page_of(base: u16, blocks: u8, rights: Rights) -> Page
    requires some { 1 ≤ blocks }
    requires most { blocks ≤ most_blocks }
    requires above { kernel_blocks ≤ base }
    requires below { base + blocks ≤ blocks_of_core }
    ensures whole { IsWhole result }
    ensures registers { kept_as result ≡ loaded base blocks rights }
{
    let base = u32::from(base) * BYTES_OF_BLOCK;
    let bytes = u16::from(blocks) * BYTES_OF_BLOCK as u16;
    match rights {
        Rights::None => NO_PAGE,
        Rights::Read => Page {
            base,
            readable: bytes,
            writable: 0,
        },
        Rights::Write => Page {
            base,
            readable: bytes,
            writable: bytes,
        },
    }
}

impl Mmu {
    /// All 32 pages are non-resident.
    pub fn new() -> Mmu
        ensures { result.registers ≡ replicate PAGES non_resident }
    {
        Mmu {
            pages: [NO_PAGE; PAGES as usize],
        }
    }

    /// The page, 0 to 31, becomes so many blocks of 64 bytes of core, 1 to 128, from the block `base` on, all of them above the
    /// kernel's 64 blocks; they may be read, or read and written, or neither, by its rights. All other pages stay.
    pub fn load(&mut self, page: u8, base: u16, blocks: u8, rights: Rights)
        requires page { page < PAGES }
        requires some { 1 ≤ blocks }
        requires most { blocks ≤ most_blocks }
        requires above { kernel_blocks ≤ base }
        requires below { base + blocks ≤ blocks_of_core }
        ensures { self.new.registers ≡ slice_set self.old.registers page (loaded base blocks rights) }
    {
        self.pages[page as usize] = page_of(base, blocks, rights);
    }

    /// The page, 0 to 31, becomes non-resident. All other pages stay.
    pub fn clear(&mut self, page: u8)
        requires { page < PAGES }
        ensures { self.new.registers ≡ slice_set self.old.registers page non_resident }
    {
        self.pages[page as usize] = NO_PAGE;
    }

    /// The physical byte address of a reference, or why it doesn't complete: NonResident where the page's access control is 0,
    /// else Length where the block of the address is behind the page's last one, else ReadOnly where the reference writes and
    /// the access control is 2. Whether a word's address is odd isn't asked.
    #[inline(always)]
    pub fn relocate(&self, mode: Mode, space: Space, addr: u16, write: bool) -> Result<u32, Abort>
        ensures answer { result ≡ relocated_in self.now.registers mode space addr write }
        ensures inside { IfOk result (λ at. at < bytes_of_core) }
        ensures above { IfOk result (λ at. bytes_of_block * kernel_blocks ≤ at) }
    {
        let page = self.pages[page_number(mode, space, addr) as usize];
        reach(page, offset_of(addr), write)
    }
}
