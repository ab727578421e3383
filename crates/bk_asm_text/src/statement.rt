// What a line says.

use crate::operand::Operand;
use bk_expr::Expr;

/// A label of a statement: a name as it is written, or a local label by its number.
#[derive(Clone, Copy)]
pub enum Label<'a> {
    Name(&'a [u8]),
    Local(u16),
}

/// What a statement is, its labels and its expressions apart. `base` is the instruction's word with all fields 0, and `E` the next
/// of the statement's expressions.
#[derive(Clone, Copy)]
pub enum Body<'a> {
    /// Nothing, or a comment.
    Nothing,
    /// `name=E`, the name as it is written.
    Assign {
        name: &'a [u8],
    },
    /// `OP src,dst`.
    Double {
        base: u16,
        src: Operand,
        dst: Operand,
    },
    /// `OP src,R`: MUL, DIV, ASH, ASHC.
    Eis {
        base: u16,
        src: Operand,
        reg: u8,
    },
    /// `XOR R,dst`.
    Xor {
        reg: u8,
        dst: Operand,
    },
    /// `JSR R,dst`.
    Jsr {
        reg: u8,
        dst: Operand,
    },
    /// `OP dst`.
    Single {
        base: u16,
        dst: Operand,
    },
    /// `RTS R`.
    Rts {
        reg: u8,
    },
    /// `SOB R,E`.
    Sob {
        reg: u8,
    },
    /// A branch to E.
    Branch {
        base: u16,
    },
    /// `MARK E`.
    Mark,
    /// `SPL E`.
    Spl,
    /// EMT or TRAP, with E where it is given.
    Number {
        base: u16,
        given: bool,
    },
    /// An instruction without fields.
    Alone {
        base: u16,
    },
    /// `.WORD E,E,..`.
    WordList,
    /// `.BYTE E,E,..`.
    ByteList,
    /// `.ASCII` with a string, or `.ASCIZ`, which adds a zero byte.
    Ascii {
        text: &'a [u8],
        zero: bool,
    },
    /// `.BLKW E`: so many zero words.
    Blkw,
    /// `.EVEN`.
    Even,
}

/// What a line says. The line's number counts from 1; one past 4,294,967,295 is kept as that number. Labels and expressions stand
/// in their order.
#[derive(Clone, Copy)]
pub struct Statement<'a> {
    pub line: u32,
    pub labels: &'a [Label<'a>],
    pub values: &'a [Expr],
    pub body: Body<'a>,
}
