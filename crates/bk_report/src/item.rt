/// What a line of a report says. Slots and turns are numbered from 0.
#[derive(Clone, Copy, PartialEq, Eq, Debug)]
pub enum ReportItem {
    /// A kernel call and its answer.
    Call {
        slot: u32,
        turn: u16,
        subject: u8,
        /// The number of the call.
        number: u8,
        /// R0 to R5 as the call found them.
        regs: [u16; 6],
        /// 0 for yes, 1 for no, 2 for `?`.
        answer: u8,
        /// Why the answer isn't yes; 0 for yes.
        cause: u8,
    },
    /// A fault of a process.
    Fault {
        slot: u32,
        turn: u16,
        subject: u8,
        /// The number of the fault.
        cause: u8,
        /// The program counter as the fault left it.
        pc: u16,
        /// The process entered its fault entry; else it stopped.
        entered: bool,
    },
    /// A byte that went out on a line.
    Byte {
        slot: u32,
        turn: u16,
        line: u8,
        byte: u8,
    },
    /// The totals of the run, once and last.
    End {
        slots: u32,
        turns: u32,
        references: u64,
        calls: u32,
    },
}
