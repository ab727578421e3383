/// An operand field of an instruction word: an addressing mode and a register, each of 0 to 7 in a word.
#[derive(Clone, Copy, PartialEq, Eq, Debug)]
pub struct Field {
    /// 0 register, 1 deferred, 2 autoincrement, 3 autoincrement deferred, 4 autodecrement,
    /// 5 autodecrement deferred, 6 index, 7 index deferred.
    pub mode: u8,
    pub reg: u8,
}
