ghost use Rattle.std.specs.Prelude.{◌≡◌, ℕ, ◌+◌, ◌*◌, Bool, List, Some};
ghost use Rattle.bk_space.specs.declared.reference.Mode.{Mode};
ghost use Rattle.bk_space.specs.declared.reference.Space.{Space};
ghost use Rattle.bk_space.specs.declared.reference.Width.{Width};
ghost use Rattle.bk_space.specs.declared.registers.Regs.{Regs};
ghost use Rattle.bk_space.specs.AddrSpace.{page_at, refusal};
ghost use Rattle.bk_space.specs.Status.{mode_bits};
ghost use Rattle.bk_exec.specs.declared.event.Event.{Event};
ghost use Rattle.bk_core.specs.Memory.{Memory};
ghost use Rattle.bk_mmu.specs.ActivePages.{ActivePages};
ghost use Rattle.bk_machine.specs.Paged.{paged, refused_at, shown_in};
ghost use Rattle.bk_machine.specs.Vectors.{HasVectors};
ghost use Rattle.bk_machine.specs.Trap.{entered, vector_of};
ghost use Rattle.bk_machine.specs.Machine.{kernel_words};

/// What the pages of a machine refuse, and why, is what the registers of the page say: no word of core is looked at.
pub fn law_pages()
    ensures { (pages : ActivePages) (core : Memory) (mode : Mode) (space : Space) (width : Width) (addr : ℕ) (writes : Bool) → refusal (page_at (shown_in (paged pages.registers core.words)) mode space addr) width addr writes ≡ refused_at pages.registers mode space width addr writes }
{}

/// The vectors are as they were wherever the kernel's blocks keep their words. Through them kernel mode is entered at the
/// vector's address plus 400, with the status 000340 and the mode of the process as previous mode (own).
pub fn law_vectors()
    ensures kept { (old new : List ℕ) → kernel_words new ≡ kernel_words old → HasVectors old → HasVectors new }
    ensures entered { (words : List ℕ) (event : Event) (process : Regs) (at : ℕ) → HasVectors words → vector_of event ≡ Some at → entered event process words ≡ Some (record { pc = at + 0o400; sp = 0o7774; ps = mode_bits process.ps.mode * 0o10000 + 0o340 }) }
{}
