ghost use Rattle.std.specs.Prelude.{◌≡◌, ◌<◌, Some, slice_get, slice_index, slice_set};
ghost use Rattle.std.specs.Borrow.{sem};
ghost use Rattle.bk_process.specs.Lending.{LendsRegisters};
ghost use Rattle.bk_process.specs.NewProcess.{entries_of_process, new_process, windows_of_process};

use crate::status::Status9;
use bk_path::Path;
use bk_space::Regs;

/// How many windows a process has: 8 pages for each of two modes and two spaces.
pub const WINDOWS: u8 = 32;

/// How many faults a process can have an entry for.
pub const FAULT_ENTRIES: u8 = 8;

/// What is kept of a process: all that it is but for the space that its windows show.
#[derive(Clone, Copy, Debug)]
pub struct Process {
    pub registers: Regs,
    /// The path that each window shows, or None where it is free. A window grants nothing (own).
    pub windows: [Option<Path>; WINDOWS as usize],
    /// The address at which the process takes each of the faults 0 to 7, or 0 for none (own).
    pub entries: [u16; FAULT_ENTRIES as usize],
    pub status: Status9,
}

impl Process {
    /// A process that begins with these registers: all windows are free, there is no fault entry, and it runs.
    pub fn new(regs: Regs) -> Process
        ensures { result ≡ new_process regs }
    {
        Process {
            registers: regs,
            windows: [None; WINDOWS as usize],
            entries: [0; FAULT_ENTRIES as usize],
            status: Status9::Running,
        }
    }

    /// The registers.
    pub fn regs(&self) -> &Regs
        ensures { result.now ≡ self.now.registers }
    {
        &self.registers
    }

    /// The registers, to be changed; nothing else changes through them.
    pub fn regs_mut(&mut self) -> &mut Regs
        ensures* alone { sem 𝓛 (LendsRegisters self.entry result) }
        ensures value { result.now ≡ self.old.registers }
    {
        &mut self.registers
    }

    /// The path that window n shows, or None where the window is free.
    pub fn window(&self, n: u8) -> Option<Path>
        requires { n < windows_of_process }
        ensures { slice_get self.now.windows n ≡ Some result }
    {
        self.windows[n as usize]
    }

    /// Window n shows the path, or is free.
    pub fn set_window(&mut self, n: u8, path: Option<Path>)
        requires { n < windows_of_process }
        ensures { self.new ≡ record self.old { windows = slice_set self.old.windows n path } }
    {
        self.windows[n as usize] = path;
    }

    /// The address at which the process takes the fault, or 0 where it has no entry for it.
    pub fn fault_entry(&self, fault: u8) -> u16
        requires { fault < entries_of_process }
        ensures { result ≡ slice_index self.now.entries fault }
    {
        self.entries[fault as usize]
    }

    /// The process takes the fault at the address; 0 takes the entry away.
    pub fn set_fault_entry(&mut self, fault: u8, addr: u16)
        requires { fault < entries_of_process }
        ensures { self.new ≡ record self.old { entries = slice_set self.old.entries fault addr } }
    {
        self.entries[fault as usize] = addr;
    }

    /// Whether the process runs.
    pub fn status(&self) -> Status9
        ensures { result ≡ self.now.status }
    {
        self.status
    }

    /// The process runs from now on, is paused or is stopped.
    pub fn set_status(&mut self, status: Status9)
        ensures { self.new ≡ record self.old { status = status } }
    {
        self.status = status;
    }
}
