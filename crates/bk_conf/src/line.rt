// What a line says.

use bk_base::Bytes;
use bk_level::Level;
use bk_object::{Facts, Modes};
use bk_path::Path;
use bk_space::Mode;

/// A subject at the start, but for its fault entries and its windows, which have lines of their own.
#[derive(Clone, Copy, Debug)]
pub struct SubjectLine {
    pub f_s: u8,
    pub f_c: u8,
    pub mode: Mode,
    pub previous: Mode,
    pub regs: [u16; 6],
    pub user_sp: u16,
    pub super_sp: u16,
    pub pc: u16,
}

/// What a line says.
#[derive(Drop)]
pub enum Line {
    /// The turns of a slot.
    Turns(u16),
    /// The next level.
    Level(Level),
    /// The subject of each slot in turn.
    Schedule(Bytes),
    /// The next subject.
    Subject(SubjectLine),
    /// A fault entry of a subject.
    Fault {
        subject: u8,
        fault: u8,
        address: u16,
    },
    /// A window of a subject.
    Window {
        subject: u8,
        index: u8,
        path: Path,
    },
    /// An object, its row empty, and the program whose words it has.
    Object {
        path: Path,
        facts: Facts,
        program: Option<Bytes>,
    },
    /// The modes that an object grants to a subject.
    Row {
        path: Path,
        subject: u8,
        modes: Modes,
    },
    /// The modes by which a subject holds an object.
    Hold {
        subject: u8,
        path: Path,
        modes: Modes,
    },
    /// The program that the next lines are; no origin where the one that is given is over 177777.
    Program {
        name: Bytes,
        origin: Option<u16>,
    },
}
