/// The operations with a source and a destination field. MOV to BIS have byte forms; ADD and SUB have none.
#[derive(Clone, Copy, PartialEq, Eq, Debug)]
pub enum Bin {
    Mov,
    Cmp,
    Bit,
    Bic,
    Bis,
    Add,
    Sub,
}

/// The operations with one field. All but SWAB and SXT have byte forms.
#[derive(Clone, Copy, PartialEq, Eq, Debug)]
pub enum Un {
    Clr,
    Com,
    Inc,
    Dec,
    Neg,
    Adc,
    Sbc,
    Tst,
    Ror,
    Rol,
    Asr,
    Asl,
    Swab,
    Sxt,
}

/// The operations of a register, or a pair of registers, and a source field.
#[derive(Clone, Copy, PartialEq, Eq, Debug)]
pub enum EisOp {
    Mul,
    Div,
    Ash,
    Ashc,
}

/// When a branch is taken. BHIS is another name of BCC, and BLO of BCS.
#[derive(Clone, Copy, PartialEq, Eq, Debug)]
pub enum Cond {
    Br,
    Bne,
    Beq,
    Bge,
    Blt,
    Bgt,
    Ble,
    Bpl,
    Bmi,
    Bhi,
    Blos,
    Bvc,
    Bvs,
    Bcc,
    Bhis,
    Bcs,
    Blo,
}
