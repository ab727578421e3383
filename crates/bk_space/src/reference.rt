/// A mode of the processor in which a process runs; kernel mode is not among them.
#[derive(Clone, Copy, PartialEq, Eq, Debug)]
pub enum Mode {
    Supervisor,
    User,
}

/// The space that a reference is in: instructions or data.
#[derive(Clone, Copy, PartialEq, Eq, Debug)]
pub enum Space {
    I,
    D,
}

/// How much a reference or an instruction takes: a word of 16 bits, or a byte.
#[derive(Clone, Copy, PartialEq, Eq, Debug)]
pub enum Width {
    Word,
    Byte,
}

/// Why a reference doesn't complete. Where several hold, the first of this order is the answer.
#[derive(Clone, Copy, PartialEq, Eq, Debug)]
pub enum Abort {
    /// A word is at an odd address.
    Odd,
    /// The page has no rights.
    NonResident,
    /// The address is beyond the page's length.
    Length,
    /// A write, and the page may only be read.
    ReadOnly,
}

/// What may be done with a page.
#[derive(Clone, Copy, PartialEq, Eq, Debug)]
pub enum Rights {
    None,
    Read,
    /// Read and write.
    Write,
}
