/// Whether a process runs (own).
#[derive(Clone, Copy, PartialEq, Eq, Debug)]
pub enum Status9 {
    Running,
    /// It runs again in its next slot.
    Paused,
    /// It never runs again. The number is that of the fault that stopped it, 0 to 7, or 8 for the stop call.
    Stopped(u8),
}
