ghost use Rattle.std.specs.Prelude.{◌≡◌, ◌↔◌, IsTrue};
ghost use Rattle.bk_isa.specs.Codes.{IsField, HasDouble, HasSingle, IsListed, primary};
ghost use Rattle.bk_isa.specs.Decode.{decode_of};

use bk_isa::{Bin, Cond, Instr, Un, decode, encode};
use bk_space::{Field, Width};

fn is_field(field: Field) -> bool
    ensures { IsTrue result ↔ IsField field }
{
    field.mode < 8 && field.reg < 8
}

fn has_double(op: Bin, width: Width) -> bool
    ensures { IsTrue result ↔ HasDouble op width }
{
    !matches!((op, width), (Bin::Add | Bin::Sub, Width::Byte))
}

/// Whether an operation with one field has a form of the width.
pub fn has_single(op: Un, width: Width) -> bool
    ensures { IsTrue result ↔ HasSingle op width }
{
    !matches!((op, width), (Un::Swab | Un::Sxt, Width::Byte))
}

fn is_listed(instr: Instr) -> bool
    ensures { IsTrue result ↔ IsListed instr }
{
    match instr {
        Instr::Double {
            op,
            width,
            src,
            dst,
        } => has_double(op, width) && is_field(src) && is_field(dst),
        Instr::Single { op, width, dst } => has_single(op, width) && is_field(dst),
        Instr::Xor { reg, dst } => reg < 8 && is_field(dst),
        Instr::Eis { reg, src, .. } => reg < 8 && is_field(src),
        Instr::Jmp { dst } => is_field(dst),
        Instr::Jsr { reg, dst } => reg < 8 && is_field(dst),
        Instr::Rts { reg } => reg < 8,
        Instr::Sob { reg, back } => reg < 8 && back < 64,
        Instr::Mark { count } => count < 64,
        Instr::Mfp { src, .. } => is_field(src),
        Instr::Mtp { dst, .. } => is_field(dst),
        Instr::Codes { mask, .. } => mask < 16,
        Instr::Spl { level } => level < 8,
        Instr::Branch { .. } | Instr::Emt { .. } | Instr::Trap { .. } => true,
        Instr::Halt
        | Instr::Wait
        | Instr::Rti
        | Instr::Bpt
        | Instr::Iot
        | Instr::Reset
        | Instr::Rtt => true,
    }
}

/// Whether the instruction is in the form that reads back: BHIS and BLO are not.
fn is_primary(instr: Instr) -> bool
    ensures { IsTrue result ↔ (primary instr ≡ instr) }
{
    match instr {
        Instr::Branch { cond, .. } => !matches!(cond, Cond::Bhis | Cond::Blo),
        _ => true,
    }
}

/// Whether the word is read as the instruction, and both are written as the word; or as none.
pub fn reads_as(word: u16, instr: Option<Instr>) -> bool
    ensures { IsTrue result ↔ (decode_of word ≡ instr) }
{
    match (decode(word), instr) {
        (Some(read), Some(instr)) => {
            encode(read) == word && is_listed(instr) && is_primary(instr) && encode(instr) == word
        }
        (None, None) => true,
        _ => false,
    }
}
