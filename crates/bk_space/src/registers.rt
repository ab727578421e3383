ghost use Rattle.std.specs.Prelude.{◌≡◌, ◌<◌};

use crate::reference::Mode;
use crate::status::Ps;

/// The registers of a process.
#[derive(Clone, Copy, PartialEq, Eq, Debug)]
pub struct Regs {
    /// R0 to R5, of register set 1.
    pub general: [u16; 6],
    /// The stack pointer of supervisor mode.
    pub supervisor: u16,
    /// The stack pointer of user mode.
    pub user: u16,
    /// The program counter, R7.
    pub pc: u16,
    pub ps: Ps,
}

impl Regs {
    ghost use Rattle.bk_space.specs.Registers.{registers_of, reg, with_reg, stack_of, with_stack};

    /// The registers with which a process of this status starts: all are 0.
    pub fn process(ps: Ps) -> Regs
        ensures { result ≡ registers_of ps }
    {
        Regs {
            general: [0; 6],
            supervisor: 0,
            user: 0,
            pc: 0,
            ps,
        }
    }

    /// R0 to R5, the stack pointer of the current mode (6), or the program counter (7).
    #[tactic(auto, unfolding(crate::specs::Registers::reg))]
    pub fn reg(&self, n: u8) -> u16
        requires { n < 8 }
        ensures { result ≡ reg self.now n }
    {
        match n {
            7 => self.pc,
            6 => self.sp_of(self.ps.mode),
            _ => self.general[n as usize],
        }
    }

    /// Replaces the register that `reg` reads.
    #[tactic(auto, unfolding(crate::specs::Registers::with_reg))]
    pub fn set_reg(&mut self, n: u8, value: u16)
        requires { n < 8 }
        ensures { self.new ≡ with_reg self.old n value }
    {
        match n {
            7 => self.pc = value,
            6 => self.set_sp_of(self.ps.mode, value),
            _ => self.general[n as usize] = value,
        }
    }

    /// The stack pointer of a mode.
    pub fn sp_of(&self, mode: Mode) -> u16
        ensures { result ≡ stack_of mode self.now }
    {
        match mode {
            Mode::Supervisor => self.supervisor,
            Mode::User => self.user,
        }
    }

    /// Replaces the stack pointer of a mode.
    pub fn set_sp_of(&mut self, mode: Mode, value: u16)
        ensures { self.new ≡ with_stack mode self.old value }
    {
        match mode {
            Mode::Supervisor => self.supervisor = value,
            Mode::User => self.user = value,
        }
    }

    /// The processor status.
    pub fn ps(&self) -> Ps
        ensures { result ≡ self.now.ps }
    {
        self.ps
    }

    /// Replaces the processor status.
    pub fn set_ps(&mut self, ps: Ps)
        ensures { self.new ≡ record self.old { ps = ps } }
    {
        self.ps = ps;
    }
}
