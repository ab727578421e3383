// What the lines of a configuration have said.

ghost use Rattle.std.specs.Prelude.{◌≤◌, length};

use crate::line::SubjectLine;
use bk_asm::Program;
use bk_base::{Bytes, Words};
use bk_level::Level;
use bk_object::{Facts, Modes};
use bk_path::Path;
use std::collections::BTreeMap;

/// An object at the start, its row empty, and the program whose words it has.
#[derive(Drop)]
pub struct Placed {
    pub facts: Facts,
    pub program: Option<Bytes>,
}

/// A program and its name.
#[derive(Drop)]
pub struct Named {
    pub name: Bytes,
    pub program: Program,
}

/// What a line names.
#[derive(Drop)]
pub enum Mention {
    Subject(u8),
    Object(Path),
    Program(Bytes),
}

/// What a line names, and the line's number.
#[derive(Drop)]
pub struct Mentioned {
    pub line: u32,
    pub what: Mention,
}

/// What the lines have said.
#[derive(Drop)]
pub struct Said {
    pub turns: Option<u16>,
    pub levels: Vec<Level>,
    pub schedule: Option<Bytes>,
    pub subjects: Vec<SubjectLine>,
    /// The fault entries, by subject and fault.
    pub entries: BTreeMap<(u8, u8), u16>,
    /// The windows, by subject and number.
    pub windows: BTreeMap<(u8, u8), Path>,
    pub objects: BTreeMap<Path, Placed>,
    /// How many objects are lines.
    pub lines: u8,
    /// What objects grant, by path and subject.
    pub rows: BTreeMap<(Path, u8), Modes>,
    /// By which modes objects are held, by subject and path.
    pub holds: BTreeMap<(u8, Path), Modes>,
    /// The programs in their order.
    pub programs: Vec<Named>,
    /// The words of each program without the zeros at their end, by its name.
    pub words: BTreeMap<Vec<u8>, Words>,
    pub mentions: Vec<Mentioned>,

    ghost few_subjects: { length subjects.items ≤ 64 },
    ghost few_lines: { lines ≤ 16 },
}
