/// The registers of kernel mode, in which no PDP-11 code runs: they tell how it was entered.
#[derive(Clone, Copy, PartialEq, Eq, Debug)]
pub struct KernelRegs {
    /// The program counter.
    pub pc: u16,
    /// The stack pointer of kernel mode; outside kernel mode it is 010000.
    pub sp: u16,
    /// The processor status as a word, with the mode of the process as previous mode.
    pub ps: u16,
}
