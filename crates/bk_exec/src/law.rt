ghost use Rattle.std.specs.Prelude.{◌≡◌, ◌≤◌, Some, None, length};
ghost use Rattle.bk_space.specs.declared.cause.Cause.{Cause};
ghost use Rattle.bk_space.specs.declared.cause.Cause.TheVariants.{NonResident};
ghost use Rattle.bk_space.specs.declared.reference.Mode.TheVariants.{User};
ghost use Rattle.bk_space.specs.declared.reference.Rights.TheVariants as rights;
ghost use Rattle.bk_space.specs.declared.reference.Space.TheVariants.{D};
ghost use Rattle.bk_space.specs.declared.reference.Width.TheVariants.{Word};
ghost use Rattle.bk_space.specs.declared.registers.Regs.{Regs};
ghost use Rattle.bk_space.specs.AddrSpace.{AddrSpace};
ghost use Rattle.bk_exec.specs.declared.event.Event.TheVariants.{Fault, Ran};
ghost use Rattle.bk_exec.specs.Example.{pages_with, registers_with};
ghost use Rattle.bk_exec.specs.Exec.{exec};
ghost use Rattle.bk_exec.specs.Laws.{IsCutOff, ChangesNothing, IsAllowed};

/// After the faults 0 to 4 the registers are those before the instruction, and nothing is written.
pub fn law_faults()
    ensures { (pages : AddrSpace) (before : Regs) (cause : Cause) → IsCutOff cause → (exec pages before).outcome ≡ Fault cause → ChangesNothing before (exec pages before) }
{}

/// One instruction makes at most eight references: its word, three for each operand, and the write.
pub fn law_most_references()
    ensures { (pages : AddrSpace) (before : Regs) → (exec pages before).references ≤ 8 }
{}

/// The write of an instruction, where there is one, completes in the pages.
pub fn law_write()
    ensures { (pages : AddrSpace) (before : Regs) → IsAllowed pages (exec pages before).write }
{}

/// An instruction leaves as many general registers as it found.
pub fn law_registers()
    ensures { (pages : AddrSpace) (before : Regs) → length (exec pages before).regs.general ≡ length before.general }
{}

/// A move from (R1)+ to 040000, worked by hand: it makes four references, its word, the source, the address and the write. Where
/// that write is refused, R1 and the program counter are as before.
pub fn law_example()
    ensures moved { exec (pages_with rights.Write) (registers_with 0o020000 0) ≡ record {
      regs = registers_with 0o020002 4;
      write = Some (record { mode = User; space = D; width = Word; addr = 0o040000; value = 0o000123 });
      references = 4;
      outcome = Ran;
    } }
    ensures cut_off { exec (pages_with rights.None) (registers_with 0o020000 0) ≡ record {
      regs = registers_with 0o020000 0;
      write = None;
      references = 4;
      outcome = Fault NonResident;
    } }
{}
