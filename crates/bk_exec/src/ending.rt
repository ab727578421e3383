/// How an instruction ends that no fault cuts off.
#[derive(Clone, Copy, PartialEq, Eq, Debug)]
pub enum Ending {
    /// It has completed; where T is set after it, the trace fault follows (own, in the same turn).
    Completed,
    /// RTT has completed: no trace fault follows.
    Returned,
    /// EMT, with its number.
    Called(u8),
    /// BPT.
    Broke,
    /// IOT.
    Interrupted,
    /// TRAP.
    Trapped,
}
