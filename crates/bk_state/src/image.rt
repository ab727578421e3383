use bk_base::{Bytes, Sequence, Words};
use bk_level::LevelTable;
use bk_object::{Facts, Modes};
use bk_path::Path;
use bk_space::Mode;

/// A window of a subject at the start: its number and the path that it shows.
#[derive(Clone, Copy, Debug)]
pub struct WindowRec {
    pub index: u8,
    pub path: Path,
}

pub type Windows = Sequence<WindowRec>;

/// A subject at the start: the numbers of its greatest and its current level, and its process.
#[derive(Drop)]
pub struct SubjectRec {
    pub f_s: u8,
    pub f_c: u8,
    pub mode: Mode,
    pub previous: Mode,
    pub regs: [u16; 6],
    pub user_sp: u16,
    pub super_sp: u16,
    pub pc: u16,
    pub entries: [u16; 8],
    pub windows: Windows,
}

pub type Subjects = Sequence<SubjectRec>;

/// An object at the start: its path, its facts and, for a segment, its words without the zeros at their end.
#[derive(Drop)]
pub struct ObjectRec {
    pub path: Path,
    pub facts: Facts,
    pub words: Words,
}

pub type Objects = Sequence<ObjectRec>;

/// The modes by which a subject holds an object at the start.
#[derive(Clone, Copy, Debug)]
pub struct Hold {
    pub subject: u8,
    pub modes: Modes,
    pub path: Path,
}

pub type Holds = Sequence<Hold>;

/// What a run starts from: the turns of a slot, the levels, the number of lines, the subject of each slot in turn, the
/// subjects, the objects in the order of their paths, and who holds what.
#[derive(Drop)]
pub struct Image {
    pub turns: u16,
    pub levels: LevelTable,
    pub lines: u8,
    pub schedule: Bytes,
    pub subjects: Subjects,
    pub objects: Objects,
    pub holds: Holds,
}
