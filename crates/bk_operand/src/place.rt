use bk_space::Space;

/// Where an operand is.
#[derive(Clone, Copy, PartialEq, Eq, Debug)]
pub enum Place {
    /// In R0 to R5, the stack pointer of the current mode (6), or the program counter (7).
    Reg(u8),
    /// At an address of a space.
    Mem { space: Space, addr: u16 },
}
