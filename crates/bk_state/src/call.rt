use crate::Rule;

/// The kernel calls that are none of the ten rules. `Identify` tells the caller its own number and levels.
#[derive(Clone, Copy, PartialEq, Eq, Debug)]
pub enum Service {
    Window,
    Unwindow,
    Deposit,
    Send,
    Receive,
    LineOut,
    LineIn,
    Entry,
    Identify,
    Quota,
    Pause,
    SetFaultEntry,
    Stop,
}

/// A kernel call: one of the ten rules, or another service of the kernel.
#[derive(Clone, Copy, PartialEq, Eq, Debug)]
pub enum Call {
    ByRule(Rule),
    Other(Service),
}
