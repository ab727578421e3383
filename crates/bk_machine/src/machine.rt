ghost use Rattle.std.specs.Prelude.{◌≡◌, ◌≤◌, ◌<◌, ◌+◌, ◌↔◌, IfOk, IsNone, IsSome, None, OnErr, OnOk, Some, false, is_ok, replicate, slice_set, true};
ghost use Rattle.bk_space.specs.AddrSpace.{read_at, write_at};
ghost use Rattle.bk_space.specs.Counts.{counted_on};
ghost use Rattle.bk_space.specs.Registers.{registers_of};
ghost use Rattle.bk_space.specs.Status.{status_of};
ghost use Rattle.bk_space.specs.declared.reference.Mode.TheVariants.{Supervisor, User};
ghost use Rattle.bk_space.specs.declared.reference.Space.TheVariants.{D};
ghost use Rattle.bk_space.specs.declared.reference.Width.TheVariants.{Byte, Word};
ghost use Rattle.bk_object.specs.Limits.{most_blocks};
ghost use Rattle.bk_core.specs.Memory.{blocks_of_core, kernel_blocks, words_of_core};
ghost use Rattle.bk_mmu.specs.ActivePages.{loaded, non_resident};
ghost use Rattle.bk_machine.specs.Paged.{Paged, abort_of, after_write, refused_at, shown_in};
ghost use Rattle.bk_machine.specs.Vectors.{HasVectors, with_vectors};
ghost use Rattle.bk_machine.specs.Trap.{entered, trapped};
ghost use Rattle.bk_machine.specs.Machine.{KeepsRest, bus_of, instruction_of, kernel_words, other_words, written_of};

use crate::counts::one_more;
use crate::paged::PagedBus;
use crate::ran::Ran;
use crate::registers::KernelRegs;
use crate::trap::trap;
use crate::vectors::make_vectors;
use bk_base::NoMemory;
use bk_core::Core;
use bk_cpu::step;
use bk_exec::Event;
use bk_mmu::Mmu;
use bk_space::{Abort, Bus, Mode, PAGES, Ps, Regs, Rights, Space};
use std::alloc::Global;
use std::marker::Model;

/// The processor of a process, the pages that it sees, and core. In kernel mode the kernel, which is no PDP-11 code, answers a
/// call or a fault of the process, and then leaves to it.
#[derive(Drop)]
pub struct Machine {
    bus: PagedBus,
    process: Regs,
    kernel: Option<KernelRegs>,
    runs: u64,
    // The last instruction. The registers after it are those of the process until these are set; only then are they kept.
    before: Regs,
    after: Regs,
    event: Event,
    set: bool,
}

impl Model for Machine {
    ghost use Rattle.bk_machine.specs.Machine.{MachineState, last_of};

    ghost Value = { MachineState };

    ghost view = { λ m. record { pages = m.bus.mmu; core = m.bus.core; references = m.bus.references; process = m.process; kernel = m.kernel; runs = m.runs; last = last_of m.runs m.set m.before m.after m.process m.event } };
}

impl Machine {
    ghost use Rattle.std.specs.Borrow.{sem};
    ghost use Rattle.bk_machine.specs.Lending.{LendsCore};

    /// A machine outside kernel mode in which no page is resident, no reference was made and no instruction has run, or
    /// NoMemory. Its core is zero but for the vectors in the kernel's blocks. The registers of its process are zero, and both
    /// modes are user.
    pub fn reserve(alloc: Global) -> Result<Machine, NoMemory>
        ensures pages { IfOk result (λ m. m.pages.registers ≡ replicate PAGES non_resident) }
        ensures core { IfOk result (λ m. m.core.words ≡ with_vectors (replicate words_of_core 0)) }
        ensures vectors { IfOk result (λ m. HasVectors m.core.words) }
        ensures references { IfOk result (λ m. m.references ≡ 0) }
        ensures process { IfOk result (λ m. m.process ≡ registers_of (status_of User User)) }
        ensures kernel { IfOk result (λ m. m.kernel ≡ None) }
        ensures runs { IfOk result (λ m. m.runs ≡ 0) }
        ensures last { IfOk result (λ m. m.last ≡ None) }
    {
        let mut core = Core::reserve(alloc)?;
        make_vectors(&mut core);
        let process = Regs::process(Ps::process(Mode::User, Mode::User));
        Ok(Machine {
            bus: PagedBus {
                mmu: Mmu::new(),
                core,
                references: 0,
            },
            process,
            kernel: None,
            runs: 0,
            before: process,
            after: process,
            event: Event::Ran,
            set: false,
        })
    }

    /// One instruction of the process, outside kernel mode. Where it ends as a call or a fault, the trap sequence enters kernel
    /// mode: the new program counter and status are taken from the event's vector in core, the previous mode of the new status
    /// becomes the mode of the process, and status and program counter of the process are pushed on the kernel's stack. The
    /// registers of the process stay as the instruction left them. A trap makes no reference that is counted.
    pub fn run_one(&mut self) -> Event
        requires { IsNone self.old.kernel }
        ensures event { result ≡ (instruction_of self.old).outcome }
        ensures process { self.new.process ≡ (instruction_of self.old).regs }
        ensures references { self.new.references ≡ counted_on self.old.references (instruction_of self.old).references }
        ensures pages { self.new.pages.registers ≡ self.old.pages.registers }
        ensures core { self.new.core.words ≡ trapped result self.new.process (written_of self.old).words }
        ensures kernel { self.new.kernel ≡ entered result self.new.process (written_of self.old).words }
        ensures vectors { HasVectors self.old.core.words → HasVectors self.new.core.words }
        ensures others { other_words self.new.core.words ≡ other_words (written_of self.old).words }
        ensures runs { self.new.runs ≡ counted_on self.old.runs 1 }
        ensures last { self.new.last ≡ Some (record { before = self.old.process; after = self.new.process; event = result }) }
    {
        self.before = self.process;
        self.set = false;
        let event = step(&mut self.process, &mut self.bus);
        self.event = event;
        self.runs = one_more(self.runs);
        self.kernel = trap(&mut self.bus.core, &self.process, event);
        event
    }

    /// The kernel leaves to the process, whose registers are those that it kept or set. The kernel's stack is empty again.
    pub fn leave(&mut self)
        requires { IsSome self.old.kernel }
        ensures { self.new ≡ record self.old { kernel = None } }
    {
        self.kernel = None;
    }

    /// The registers of kernel mode: None outside kernel mode.
    pub fn kernel_regs(&self) -> Option<KernelRegs>
        ensures { result ≡ self.now.kernel }
    {
        self.kernel
    }

    /// The registers of the process, in kernel mode and outside it.
    pub fn process_regs(&self) -> Regs
        ensures { result ≡ self.now.process }
    {
        self.process
    }

    /// Replaces the registers of the process, in kernel mode and outside it. What `last` tells stays.
    pub fn set_process(&mut self, regs: &Regs)
        ensures { self.new ≡ record self.old { process = regs.now } }
    {
        if !self.set {
            self.after = self.process;
            self.set = true;
        }
        self.process = *regs;
    }

    /// The page, 0 to 31, becomes so many blocks of 64 bytes of core, 1 to 128, from the block `base` on, all of them above the
    /// kernel's 64 blocks, with these rights. All other pages stay.
    pub fn load_page(&mut self, page: u8, base: u16, blocks: u8, rights: Rights)
        requires page { page < PAGES }
        requires some { 1 ≤ blocks }
        requires most { blocks ≤ most_blocks }
        requires above { kernel_blocks ≤ base }
        requires below { base + blocks ≤ blocks_of_core }
        ensures page { self.new.pages.registers ≡ slice_set self.old.pages.registers page (loaded base blocks rights) }
        ensures rest { self.new ≡ record self.old { pages = self.new.pages } }
    {
        self.bus.mmu.load(page, base, blocks, rights);
    }

    /// The page, 0 to 31, becomes non-resident. All other pages stay.
    pub fn clear_page(&mut self, page: u8)
        requires { page < PAGES }
        ensures page { self.new.pages.registers ≡ slice_set self.old.pages.registers page non_resident }
        ensures rest { self.new ≡ record self.old { pages = self.new.pages } }
    {
        self.bus.mmu.clear(page);
    }

    /// All pages become non-resident.
    pub fn clear_pages(&mut self)
        ensures pages { self.new.pages.registers ≡ replicate PAGES non_resident }
        ensures rest { self.new ≡ record self.old { pages = self.new.pages } }
    {
        self.bus.mmu = Mmu::new();
    }

    /// Whether `write_word` of that address in supervisor D space would complete. To ask makes no reference.
    pub fn writable(&self, addr: u16) -> bool
        ensures { result ≡ is_ok (write_at (shown_in (bus_of self.now)) Supervisor D Word addr) }
    {
        self.bus.writable(addr)
    }

    /// How many references were made; the count stands at its last value.
    pub fn references(&self) -> u64
        ensures { result ≡ self.now.references }
    {
        self.bus.references
    }

    /// Core.
    pub fn core(&self) -> &Core
        ensures { result.now ≡ self.now.core }
    {
        &self.bus.core
    }

    /// Core, to be changed; nothing else changes through it.
    pub fn core_mut(&mut self) -> &mut Core
        ensures* alone { sem 𝓛 (LendsCore self.entry result) }
        ensures value { result.now ≡ self.old.core }
    {
        &mut self.bus.core
    }

    /// How many instructions `run_one` has run; the count stands at its last value.
    pub fn runs(&self) -> u64
        ensures { result ≡ self.now.runs }
    {
        self.runs
    }

    /// The last instruction that `run_one` has run: None exactly where there was none.
    pub fn last(&self) -> Option<Ran>
        ensures value { result ≡ self.now.last }
        ensures none { IsNone result ↔ (self.now.runs ≡ 0) }
    {
        if self.runs == 0 {
            None
        } else {
            Some(Ran {
                before: self.before,
                after: if self.set { self.after } else { self.process },
                event: self.event,
            })
        }
    }
}

impl Bus for Machine {
    ghost State = { Paged };

    ghost state = { bus_of };

    ghost shown = { shown_in };

    ghost after = { after_write };

    ghost references = { λ m. m.references };

    fn read_word(&mut self, mode: Mode, space: Space, addr: u16) -> Result<u16, Abort>
        ensures value { result ≡ read_at (shown_in (bus_of self.old)) mode space Word addr }
        ensures registers { abort_of result ≡ refused_at self.old.pages.registers mode space Word addr false }
        ensures state { bus_of self.new ≡ bus_of self.old }
        ensures count { self.new.references ≡ counted_on self.old.references 1 }
        ensures rest { KeepsRest self.old self.new }
    {
        self.bus.read_word(mode, space, addr)
    }

    fn read_byte(&mut self, mode: Mode, space: Space, addr: u16) -> Result<u8, Abort>
        ensures value { result ≡ read_at (shown_in (bus_of self.old)) mode space Byte addr }
        ensures registers { abort_of result ≡ refused_at self.old.pages.registers mode space Byte addr false }
        ensures state { bus_of self.new ≡ bus_of self.old }
        ensures count { self.new.references ≡ counted_on self.old.references 1 }
        ensures rest { KeepsRest self.old self.new }
    {
        self.bus.read_byte(mode, space, addr)
    }

    fn write_word(&mut self, mode: Mode, space: Space, addr: u16, value: u16) -> Result<(), Abort>
        ensures answer { result ≡ write_at (shown_in (bus_of self.old)) mode space Word addr }
        ensures registers { abort_of result ≡ refused_at self.old.pages.registers mode space Word addr true }
        ensures written { OnOk result (bus_of self.new ≡ after_write (bus_of self.old) (record { mode = mode; space = space; width = Word; addr = addr; value = value })) }
        ensures kept { OnErr result (bus_of self.new ≡ bus_of self.old) }
        ensures count { self.new.references ≡ counted_on self.old.references 1 }
        ensures kernel { kernel_words self.new.core.words ≡ kernel_words self.old.core.words }
        ensures rest { KeepsRest self.old self.new }
    {
        self.bus.write_word(mode, space, addr, value)
    }

    fn write_byte(&mut self, mode: Mode, space: Space, addr: u16, value: u8) -> Result<(), Abort>
        ensures answer { result ≡ write_at (shown_in (bus_of self.old)) mode space Byte addr }
        ensures registers { abort_of result ≡ refused_at self.old.pages.registers mode space Byte addr true }
        ensures written { OnOk result (bus_of self.new ≡ after_write (bus_of self.old) (record { mode = mode; space = space; width = Byte; addr = addr; value = value })) }
        ensures kept { OnErr result (bus_of self.new ≡ bus_of self.old) }
        ensures count { self.new.references ≡ counted_on self.old.references 1 }
        ensures kernel { kernel_words self.new.core.words ≡ kernel_words self.old.core.words }
        ensures rest { KeepsRest self.old self.new }
    {
        self.bus.write_byte(mode, space, addr, value)
    }
}
