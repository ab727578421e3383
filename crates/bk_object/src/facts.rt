// What is kept of an object beside its contents, and its place in the table of objects.

use crate::{Kind, Row};

/// What is kept of an object beside its path and its contents.
#[derive(Clone, Copy, Debug)]
pub struct Facts {
    pub kind: Kind,
    /// Blocks of 64 bytes: 1 to 128 for a segment, 0 for other kinds.
    pub blocks: u8,
    /// The number of its level in the image's list.
    pub level: u8,
    /// The limit of its quota cell: 1 to 3,904 for root and for a directory whose level isn't its parent's, 0 for all else.
    pub quota: u16,
    pub row: Row,
}

/// A place in the table of objects.
#[derive(Clone, Copy, PartialEq, Eq, Debug)]
pub struct Slot {
    pub n: u16,
}
