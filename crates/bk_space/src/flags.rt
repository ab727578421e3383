/// The condition codes, bits 3 to 0 of the processor status.
#[derive(Clone, Copy, PartialEq, Eq, Debug)]
pub struct Flags {
    /// The result is negative.
    pub n: bool,
    /// The result is zero.
    pub z: bool,
    /// The result overflowed.
    pub v: bool,
    /// The result carried, or a bit was moved out.
    pub c: bool,
}
