// A plain model of a store: a list of objects, in which everything is looked up from the front.

use bk_object::{Kind, MOST_SUBJECTS};
use bk_path::Path;

// An object: of a segment, which has at most 3 blocks, the words; of a mailbox the number of the oldest message, how many
// wait, numbered on from it, and how many were lost; and for each subject the modes that it is granted, and those by which
// it holds the object.
#[derive(Clone, Copy)]
pub(crate) struct Plain {
    pub(crate) path: Path,
    pub(crate) kind: Kind,
    pub(crate) blocks: u8,
    pub(crate) level: u8,
    pub(crate) quota: u16,
    pub(crate) words: [u16; 96],
    pub(crate) oldest: u16,
    pub(crate) waiting: u16,
    pub(crate) lost: u16,
    pub(crate) row: [u8; MOST_SUBJECTS as usize],
    pub(crate) held: [u8; MOST_SUBJECTS as usize],
}

// A new object, which grants nobody anything, and of which nobody holds anything.
pub(crate) fn new_plain(path: Path, kind: Kind, blocks: u8, level: u8, quota: u16) -> Plain {
    Plain {
        path,
        kind,
        blocks,
        level,
        quota,
        words: [0; 96],
        oldest: 0,
        waiting: 0,
        lost: 0,
        row: [0; MOST_SUBJECTS as usize],
        held: [0; MOST_SUBJECTS as usize],
    }
}

pub(crate) fn find(objects: &[Plain], path: Path) -> Option<Plain> {
    for object in objects {
        if object.path == path {
            return Some(*object);
        }
    }
    None
}

// The level of the object at the path, 0 where none is.
pub(crate) fn level(objects: &[Plain], path: Path) -> u8 {
    match find(objects, path) {
        Some(object) => object.level,
        None => 0,
    }
}

// Root, or the nearest of the path and its ancestors that is a directory of another level than its parent.
pub(crate) fn governing(objects: &[Plain], path: Path) -> Path {
    let mut here = path;
    for _ in 0..8 {
        match here.parent() {
            None => return here,
            Some(above) => {
                if level(objects, here) != level(objects, above) {
                    return here;
                }
                here = above;
            }
        }
    }
    here
}

// What an object below a directory of that level is charged.
pub(crate) fn charge(object: &Plain, above: u8) -> u32 {
    match object.kind {
        Kind::Directory if object.level == above => 1,
        Kind::Directory => u32::from(object.quota),
        Kind::Segment => u32::from(object.blocks),
        Kind::Mailbox => 2,
        Kind::Line(_) => 1,
    }
}

// The used number of a cell.
pub(crate) fn used(objects: &[Plain], cell: Path) -> u32 {
    let mut sum = 1u32;
    for object in objects {
        if let Some(above) = object.path.parent() {
            if governing(objects, above) == cell {
                sum = sum.saturating_add(charge(object, level(objects, above)));
            }
        }
    }
    sum
}
