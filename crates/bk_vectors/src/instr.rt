use crate::names::{CONDITIONS, DOUBLES, EXTENDED, SETS, SINGLES, SPACES, WIDTHS, named};
use crate::numbers::small_in;
use bk_isa::Instr;
use bk_space::{Field, Space};
use std::str::SplitWhitespace;

fn field_in(words: &mut SplitWhitespace<'_>) -> Option<Field> {
    Some(Field {
        mode: small_in(words)?,
        reg: small_in(words)?,
    })
}

fn fields_in(words: &mut SplitWhitespace<'_>) -> Option<(Field, Field)> {
    Some((field_in(words)?, field_in(words)?))
}

fn register_and_field(words: &mut SplitWhitespace<'_>) -> Option<(u8, Field)> {
    Some((small_in(words)?, field_in(words)?))
}

fn space_and_field(words: &mut SplitWhitespace<'_>) -> Option<(Space, Field)> {
    Some((named(&SPACES, words)?, field_in(words)?))
}

fn double_in(words: &mut SplitWhitespace<'_>) -> Option<Instr> {
    let op = named(&DOUBLES, words)?;
    let width = named(&WIDTHS, words)?;
    let (src, dst) = fields_in(words)?;
    Some(Instr::Double {
        op,
        width,
        src,
        dst,
    })
}

fn single_in(words: &mut SplitWhitespace<'_>) -> Option<Instr> {
    Some(Instr::Single {
        op: named(&SINGLES, words)?,
        width: named(&WIDTHS, words)?,
        dst: field_in(words)?,
    })
}

fn extended_in(words: &mut SplitWhitespace<'_>) -> Option<Instr> {
    let op = named(&EXTENDED, words)?;
    let (reg, src) = register_and_field(words)?;
    Some(Instr::Eis { op, reg, src })
}

fn branch_in(words: &mut SplitWhitespace<'_>) -> Option<Instr> {
    Some(Instr::Branch {
        cond: named(&CONDITIONS, words)?,
        offset: small_in(words)?,
    })
}

fn codes_in(words: &mut SplitWhitespace<'_>) -> Option<Instr> {
    Some(Instr::Codes {
        set: named(&SETS, words)?,
        mask: small_in(words)?,
    })
}

// An instruction with one field and no operation.
fn fielded_in(name: &str, words: &mut SplitWhitespace<'_>) -> Option<Instr> {
    match name {
        "xor" => {
            let (reg, dst) = register_and_field(words)?;
            Some(Instr::Xor { reg, dst })
        }
        "jsr" => {
            let (reg, dst) = register_and_field(words)?;
            Some(Instr::Jsr { reg, dst })
        }
        "jmp" => Some(Instr::Jmp {
            dst: field_in(words)?,
        }),
        "mfp" => {
            let (space, src) = space_and_field(words)?;
            Some(Instr::Mfp { space, src })
        }
        "mtp" => {
            let (space, dst) = space_and_field(words)?;
            Some(Instr::Mtp { space, dst })
        }
        _ => None,
    }
}

// An instruction of one or two numbers.
fn numbered_in(name: &str, words: &mut SplitWhitespace<'_>) -> Option<Instr> {
    if name == "sob" {
        return Some(Instr::Sob {
            reg: small_in(words)?,
            back: small_in(words)?,
        });
    }
    let n = small_in(words)?;
    match name {
        "rts" => Some(Instr::Rts { reg: n }),
        "mark" => Some(Instr::Mark { count: n }),
        "spl" => Some(Instr::Spl { level: n }),
        "emt" => Some(Instr::Emt { n }),
        "trap" => Some(Instr::Trap { n }),
        _ => None,
    }
}

// An instruction with nothing beside its name.
fn alone(name: &str) -> Option<Instr> {
    match name {
        "halt" => Some(Instr::Halt),
        "wait" => Some(Instr::Wait),
        "rti" => Some(Instr::Rti),
        "bpt" => Some(Instr::Bpt),
        "iot" => Some(Instr::Iot),
        "reset" => Some(Instr::Reset),
        "rtt" => Some(Instr::Rtt),
        _ => None,
    }
}

fn named_in(name: &str, words: &mut SplitWhitespace<'_>) -> Option<Instr> {
    match name {
        "double" => double_in(words),
        "single" => single_in(words),
        "eis" => extended_in(words),
        "branch" => branch_in(words),
        "codes" => codes_in(words),
        "xor" | "jsr" | "jmp" | "mfp" | "mtp" => fielded_in(name, words),
        "rts" | "sob" | "mark" | "spl" | "emt" | "trap" => numbered_in(name, words),
        _ => alone(name),
    }
}

/// The instruction that the words spell, or None where they are `undefined`.
pub fn instr_in(words: &mut SplitWhitespace<'_>) -> Option<Option<Instr>> {
    match words.next()? {
        "undefined" => Some(None),
        name => Some(Some(named_in(name, words)?)),
    }
}
