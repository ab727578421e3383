// What images are made from: tables of subjects, of objects, and of who holds what.

use bk_object::Kind;
use bk_space::Mode;

/// Words from a byte address on.
pub type Part<'a> = (u16, &'a [u16]);

/// Subjects, each with a set of access modes.
pub type Holders<'a> = &'a [(u8, u8)];

/// A subject: the numbers of its greatest and current level, its mode, R0 to R5, the stack pointers of user and supervisor
/// mode, the program counter, the fault entries, and its windows, each with the entry of the object that it shows. The
/// previous mode is user.
#[derive(Clone, Copy)]
pub struct Subject<'a> {
    pub greatest: u8,
    pub current: u8,
    pub mode: Mode,
    pub general: [u16; 6],
    pub user: u16,
    pub supervisor: u16,
    pub pc: u16,
    pub entries: [u16; 8],
    pub windows: &'a [(u8, u8)],
}

/// An object below root: its kind, its blocks, the number of its level, its quota, its words, who holds it, and to whom it
/// grants more than is held.
#[derive(Clone, Copy)]
pub struct Object<'a> {
    pub kind: Kind,
    pub blocks: u8,
    pub level: u8,
    pub quota: u16,
    pub words: &'a [Part<'a>],
    pub held: Holders<'a>,
    pub granted: Holders<'a>,
}

/// A system: the turns of a slot, the classes of the levels, none of which has categories, the schedule, the subjects, the
/// quota of root, who holds root, and the objects `/0`, `/1` and so on.
#[derive(Clone, Copy)]
pub struct System<'a> {
    pub turns: u16,
    pub classes: &'a [u8],
    pub schedule: &'a [u8],
    pub subjects: &'a [Subject<'a>],
    pub quota: u16,
    pub root: Holders<'a>,
    pub objects: &'a [Object<'a>],
}

/// A subject of level 0 in user mode with zeros, that sees `/0` from 0 on in I space.
pub const USER: Subject<'static> = Subject {
    greatest: 0,
    current: 0,
    mode: Mode::User,
    general: [0; 6],
    user: 0,
    supervisor: 0,
    pc: 0,
    entries: [0; 8],
    windows: &[(16, 0)],
};

/// One level and one subject, with all room and no objects.
pub const SYSTEM: System<'static> = System {
    turns: 1,
    classes: &[0],
    schedule: &[0],
    subjects: &[USER],
    quota: 3904,
    root: &[],
    objects: &[],
};

/// A segment of level 0 and so many blocks, of which each subject is granted what it holds.
pub fn segment<'a>(blocks: u8, words: &'a [Part<'a>], held: Holders<'a>) -> Object<'a> {
    Object {
        blocks,
        words,
        ..of_kind(Kind::Segment, held)
    }
}

/// An empty mailbox of level 0, of which each subject is granted what it holds.
pub fn mailbox<'a>(held: Holders<'a>) -> Object<'a> {
    of_kind(Kind::Mailbox, held)
}

/// The line of that number at level 0, of which each subject is granted what it holds.
pub fn line<'a>(number: u8, held: Holders<'a>) -> Object<'a> {
    of_kind(Kind::Line(number), held)
}

fn of_kind<'a>(kind: Kind, held: Holders<'a>) -> Object<'a> {
    Object {
        kind,
        blocks: 0,
        level: 0,
        quota: 0,
        words: &[],
        held,
        granted: &[],
    }
}
