use bk_exec::Event;
use bk_space::Regs;

/// An instruction that the machine has run: the registers of the process before and after it, and how it ended.
#[derive(Clone, Copy, PartialEq, Eq, Debug)]
pub struct Ran {
    pub before: Regs,
    pub after: Regs,
    pub event: Event,
}
