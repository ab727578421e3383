use crate::operation::{Bin, Cond, EisOp, Un};
use bk_space::{Field, Space, Width};

/// An instruction, with what its word says of operands.
///
/// A register is 0 to 7. The table lists a combination where its width has a form and its fields are in range.
#[derive(Clone, Copy, PartialEq, Eq, Debug)]
pub enum Instr {
    /// `OP src,dst`; SS DD.
    Double {
        op: Bin,
        width: Width,
        src: Field,
        dst: Field,
    },
    /// `OP dst`; DD.
    Single {
        op: Un,
        width: Width,
        dst: Field,
    },
    /// `XOR R,dst`.
    Xor {
        reg: u8,
        dst: Field,
    },
    /// `MUL src,R`, `DIV`, `ASH` or `ASHC`.
    Eis {
        op: EisOp,
        reg: u8,
        src: Field,
    },
    /// `JMP dst`. With mode 0 this is an instruction too, whose execution is reserved.
    Jmp {
        dst: Field,
    },
    /// `JSR R,dst`. With mode 0 this is an instruction too, whose execution is reserved.
    Jsr {
        reg: u8,
        dst: Field,
    },
    /// `RTS R`.
    Rts {
        reg: u8,
    },
    /// `SOB R,E`: back by 0 to 63 words.
    Sob {
        reg: u8,
        back: u8,
    },
    /// `MARK E`: 0 to 63.
    Mark {
        count: u8,
    },
    /// `MFPI src` or `MFPD src`, by the space.
    Mfp {
        space: Space,
        src: Field,
    },
    /// `MTPI dst` or `MTPD dst`, by the space.
    Mtp {
        space: Space,
        dst: Field,
    },
    /// A branch: the offset is a signed number of words, at 8 bits.
    Branch {
        cond: Cond,
        offset: u8,
    },
    /// Sets or clears the condition codes of the mask: N is bit 3, Z 2, V 1 and C 0.
    Codes {
        set: bool,
        mask: u8,
    },
    /// `SPL E`: 0 to 7.
    Spl {
        level: u8,
    },
    Emt {
        n: u8,
    },
    Trap {
        n: u8,
    },
    Halt,
    Wait,
    Rti,
    Bpt,
    Iot,
    Reset,
    Rtt,
}
