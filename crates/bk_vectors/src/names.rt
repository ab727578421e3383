use bk_isa::{Bin, Cond, EisOp, Un};
use bk_space::{Cause, Space, Width};
use std::str::SplitWhitespace;

/// What the next word names, by a table.
pub fn named<T: Copy>(names: &[(&str, T)], words: &mut SplitWhitespace<'_>) -> Option<T> {
    let word = words.next()?;
    for (name, value) in names {
        if *name == word {
            return Some(*value);
        }
    }
    None
}

pub const WIDTHS: [(&str, Width); 2] = [("word", Width::Word), ("byte", Width::Byte)];

pub const SPACES: [(&str, Space); 2] = [("i", Space::I), ("d", Space::D)];

/// Whether condition codes are set or cleared.
pub const SETS: [(&str, bool); 2] = [("set", true), ("clear", false)];

pub const DOUBLES: [(&str, Bin); 7] = [
    ("mov", Bin::Mov),
    ("cmp", Bin::Cmp),
    ("bit", Bin::Bit),
    ("bic", Bin::Bic),
    ("bis", Bin::Bis),
    ("add", Bin::Add),
    ("sub", Bin::Sub),
];

pub const SINGLES: [(&str, Un); 14] = [
    ("clr", Un::Clr),
    ("com", Un::Com),
    ("inc", Un::Inc),
    ("dec", Un::Dec),
    ("neg", Un::Neg),
    ("adc", Un::Adc),
    ("sbc", Un::Sbc),
    ("tst", Un::Tst),
    ("ror", Un::Ror),
    ("rol", Un::Rol),
    ("asr", Un::Asr),
    ("asl", Un::Asl),
    ("swab", Un::Swab),
    ("sxt", Un::Sxt),
];

pub const EXTENDED: [(&str, EisOp); 4] = [
    ("mul", EisOp::Mul),
    ("div", EisOp::Div),
    ("ash", EisOp::Ash),
    ("ashc", EisOp::Ashc),
];

pub const CONDITIONS: [(&str, Cond); 15] = [
    ("br", Cond::Br),
    ("bne", Cond::Bne),
    ("beq", Cond::Beq),
    ("bge", Cond::Bge),
    ("blt", Cond::Blt),
    ("bgt", Cond::Bgt),
    ("ble", Cond::Ble),
    ("bpl", Cond::Bpl),
    ("bmi", Cond::Bmi),
    ("bhi", Cond::Bhi),
    ("blos", Cond::Blos),
    ("bvc", Cond::Bvc),
    ("bvs", Cond::Bvs),
    ("bcc", Cond::Bcc),
    ("bcs", Cond::Bcs),
];

pub const CAUSES: [(&str, Cause); 8] = [
    ("0", Cause::Odd),
    ("1", Cause::NonResident),
    ("2", Cause::Length),
    ("3", Cause::ReadOnly),
    ("4", Cause::Reserved),
    ("5", Cause::Break),
    ("6", Cause::Iot),
    ("7", Cause::Trap),
];
