use bk_space::Cause;

/// How an instruction ends.
#[derive(Clone, Copy, PartialEq, Eq, Debug)]
pub enum Event {
    /// It has completed.
    Ran,
    /// EMT, with its number: a call of the kernel. The PC stands after it.
    Call(u8),
    /// A fault. After an abort or a reserved instruction the registers are those before it; after BPT,
    /// IOT and TRAP the PC alone has moved past it; after a trace fault it has completed.
    Fault(Cause),
}
