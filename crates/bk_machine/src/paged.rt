// The bus inside the machine, apart from the registers of the process, so that an instruction can change both.

ghost use Rattle.std.specs.Prelude.{◌≡◌, IfOk, OnErr, OnOk, false, is_ok, true};
ghost use Rattle.bk_space.specs.AddrSpace.{page_at, read_at, refusal, write_at};
ghost use Rattle.bk_space.specs.Counts.{counted_on};
ghost use Rattle.bk_space.specs.declared.reference.Mode.TheVariants.{Supervisor};
ghost use Rattle.bk_space.specs.declared.reference.Space.TheVariants.{D};
ghost use Rattle.bk_space.specs.declared.reference.Width.TheVariants.{Byte, Word};
ghost use Rattle.bk_machine.specs.Paged.{Locates, Paged, abort_of, after_write, paged, refused_at, shown_in};

use crate::counts::one_more;
use bk_core::Core;
use bk_mmu::Mmu;
use bk_space::{Abort, Bus, Mode, Space, Width, is_odd};

/// The pages of core that the memory management unit shows, and how many references were made to them; the count stands at
/// its last value.
#[derive(Drop)]
pub(crate) struct PagedBus {
    pub(crate) mmu: Mmu,
    pub(crate) core: Core,
    pub(crate) references: u64,
}

impl PagedBus {
    // The physical address that a reference reaches, or why it doesn't complete.
    #[inline(always)]
    #[tactic(auto, unfolding(bk_space::specs::AddrSpace::page_at))]
    fn located(
        &self,
        mode: Mode,
        space: Space,
        width: Width,
        addr: u16,
        writes: bool,
    ) -> Result<u32, Abort>
        ensures refused { abort_of result ≡ refusal (page_at (shown_in (paged self.now.mmu.registers self.now.core.words)) mode space addr) width addr writes }
        ensures registers { abort_of result ≡ refused_at self.now.mmu.registers mode space width addr writes }
        ensures located { IfOk result (λ at. Locates (paged self.now.mmu.registers self.now.core.words) mode space addr at) }
    {
        if is_odd(width, addr) {
            return Err(Abort::Odd);
        }
        self.mmu.relocate(mode, space, addr, writes)
    }

    // One reference more, and the physical address that it reaches, or why it doesn't complete.
    #[inline(always)]
    fn reach(
        &mut self,
        mode: Mode,
        space: Space,
        width: Width,
        addr: u16,
        writes: bool,
    ) -> Result<u32, Abort>
        ensures refused { abort_of result ≡ refusal (page_at (shown_in (paged self.old.mmu.registers self.old.core.words)) mode space addr) width addr writes }
        ensures registers { abort_of result ≡ refused_at self.old.mmu.registers mode space width addr writes }
        ensures located { IfOk result (λ at. Locates (paged self.old.mmu.registers self.old.core.words) mode space addr at) }
        ensures mmu { self.new.mmu ≡ self.old.mmu }
        ensures core { self.new.core ≡ self.old.core }
        ensures count { self.new.references ≡ counted_on self.old.references 1 }
    {
        self.references = one_more(self.references);
        self.located(mode, space, width, addr, writes)
    }

    /// Whether the word at the address of supervisor D space can be written. To ask makes no reference.
    #[tactic(auto, unfolding(bk_space::specs::AddrSpace::page_at, bk_space::specs::AddrSpace::write_at))]
    pub(crate) fn writable(&self, addr: u16) -> bool
        ensures { result ≡ is_ok (write_at (shown_in (paged self.now.mmu.registers self.now.core.words)) Supervisor D Word addr) }
    {
        match self.located(Mode::Supervisor, Space::D, Width::Word, addr, true) {
            Ok(_) => true,
            Err(_) => false,
        }
    }
}

#[tactic(auto, unfolding(bk_space::specs::AddrSpace::page_at, bk_space::specs::AddrSpace::read_at, bk_space::specs::AddrSpace::write_at))]
impl Bus for PagedBus {
    ghost State = { Paged };

    ghost state = { λ b. paged b.mmu.registers b.core.words };

    ghost shown = { shown_in };

    ghost after = { after_write };

    ghost references = { λ b. b.references };

    #[inline(always)]
    fn read_word(&mut self, mode: Mode, space: Space, addr: u16) -> Result<u16, Abort>
        ensures value { result ≡ read_at (shown_in (paged self.old.mmu.registers self.old.core.words)) mode space Word addr }
        ensures registers { abort_of result ≡ refused_at self.old.mmu.registers mode space Word addr false }
        ensures state { paged self.new.mmu.registers self.new.core.words ≡ paged self.old.mmu.registers self.old.core.words }
        ensures mmu { self.new.mmu ≡ self.old.mmu }
        ensures count { self.new.references ≡ counted_on self.old.references 1 }
    {
        let at = self.reach(mode, space, Width::Word, addr, false)?;
        Ok(self.core.word(at))
    }

    fn read_byte(&mut self, mode: Mode, space: Space, addr: u16) -> Result<u8, Abort>
        ensures value { result ≡ read_at (shown_in (paged self.old.mmu.registers self.old.core.words)) mode space Byte addr }
        ensures registers { abort_of result ≡ refused_at self.old.mmu.registers mode space Byte addr false }
        ensures state { paged self.new.mmu.registers self.new.core.words ≡ paged self.old.mmu.registers self.old.core.words }
        ensures mmu { self.new.mmu ≡ self.old.mmu }
        ensures count { self.new.references ≡ counted_on self.old.references 1 }
    {
        let at = self.reach(mode, space, Width::Byte, addr, false)?;
        Ok(self.core.byte(at))
    }

    #[inline(always)]
    fn write_word(&mut self, mode: Mode, space: Space, addr: u16, value: u16) -> Result<(), Abort>
        ensures answer { result ≡ write_at (shown_in (paged self.old.mmu.registers self.old.core.words)) mode space Word addr }
        ensures registers { abort_of result ≡ refused_at self.old.mmu.registers mode space Word addr true }
        ensures written { OnOk result (paged self.new.mmu.registers self.new.core.words ≡ after_write (paged self.old.mmu.registers self.old.core.words) (record { mode = mode; space = space; width = Word; addr = addr; value = value })) }
        ensures kept { OnErr result (paged self.new.mmu.registers self.new.core.words ≡ paged self.old.mmu.registers self.old.core.words) }
        ensures mmu { self.new.mmu ≡ self.old.mmu }
        ensures count { self.new.references ≡ counted_on self.old.references 1 }
    {
        let at = self.reach(mode, space, Width::Word, addr, true)?;
        self.core.set_word(at, value);
        Ok(())
    }

    fn write_byte(&mut self, mode: Mode, space: Space, addr: u16, value: u8) -> Result<(), Abort>
        ensures answer { result ≡ write_at (shown_in (paged self.old.mmu.registers self.old.core.words)) mode space Byte addr }
        ensures registers { abort_of result ≡ refused_at self.old.mmu.registers mode space Byte addr true }
        ensures written { OnOk result (paged self.new.mmu.registers self.new.core.words ≡ after_write (paged self.old.mmu.registers self.old.core.words) (record { mode = mode; space = space; width = Byte; addr = addr; value = value })) }
        ensures kept { OnErr result (paged self.new.mmu.registers self.new.core.words ≡ paged self.old.mmu.registers self.old.core.words) }
        ensures mmu { self.new.mmu ≡ self.old.mmu }
        ensures count { self.new.references ≡ counted_on self.old.references 1 }
    {
        let at = self.reach(mode, space, Width::Byte, addr, true)?;
        self.core.set_byte(at, value);
        Ok(())
    }
}
