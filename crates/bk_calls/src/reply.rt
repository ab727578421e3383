/// The answer to a call: yes; no, with a cause of 1 to 12; or `?`, with a cause of 20 to 25.
#[derive(Clone, Copy, PartialEq, Eq, Debug)]
pub enum Answer {
    Yes,
    No(u8),
    Unknown(u8),
}

/// A byte that goes out on a line.
#[derive(Clone, Copy, PartialEq, Eq, Debug)]
pub struct LineByte {
    pub line: u8,
    pub byte: u8,
}

/// What a call gives besides what it changes: the answer; the byte of a line out that is answered yes; and the number of the
/// level that a raise which is answered yes makes the caller's current one.
#[derive(Clone, Copy, PartialEq, Eq, Debug)]
pub struct Reply {
    pub answer: Answer,
    pub sent: Option<LineByte>,
    pub level: Option<u8>,
}
