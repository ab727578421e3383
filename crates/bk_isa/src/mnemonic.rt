/// How an instruction is written in assembly text, in the order of the assembler's table of forms.
#[derive(Clone, Copy, PartialEq, Eq, Debug)]
pub enum Form {
    /// `OP src,dst`.
    Double,
    /// `OP src,R`: MUL, DIV, ASH, ASHC.
    Eis,
    /// `XOR R,dst`.
    Xor,
    /// `JSR R,dst`.
    Jsr,
    /// `OP dst`.
    Single,
    /// `RTS R`.
    Rts,
    /// `SOB R,E`.
    Sob,
    /// `OP E`.
    Branch,
    /// `MARK E`.
    Mark,
    /// `SPL E`.
    Spl,
    /// EMT or TRAP, with E or nothing for 0.
    Number,
    /// The name alone.
    Alone,
}

/// What a name stands for: its word with all fields 0, and how the fields are written.
#[derive(Clone, Copy, PartialEq, Eq, Debug)]
pub struct Mnemonic {
    pub base: u16,
    pub form: Form,
}
