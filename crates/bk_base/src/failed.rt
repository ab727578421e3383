use std::alloc::AllocError;

/// The outside failed: a source couldn't give, or a sink couldn't take.
#[derive(Clone, Copy, PartialEq, Eq, Debug)]
pub struct Failed;

/// The runtime had no more memory.
#[derive(Clone, Copy, PartialEq, Eq, Debug)]
pub struct NoMemory;

impl From<AllocError> for NoMemory {
    fn from(_: AllocError) -> NoMemory {
        NoMemory
    }
}
