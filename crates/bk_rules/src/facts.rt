// What the rules look at.

use bk_level::Level;
use bk_object::{Kind, Modes};

/// What a rule looks at, for a call of a subject on an object. A rule looks at its own part alone.
#[derive(Clone, Copy, Debug)]
pub struct RuleFacts {
    /// The object is root, or the caller holds its parent, a directory, by read or by write.
    pub named: bool,
    /// There is such an object.
    pub there: bool,
    /// It is root.
    pub root: bool,
    /// What it is.
    pub kind: Kind,
    /// The caller's modes in its row.
    pub row: Modes,
    /// The caller's greatest level.
    pub f_s: Level,
    /// The caller's current level.
    pub f_c: Level,
    /// The object's level.
    pub f_o: Level,
    /// The caller holds the parent by write.
    pub parent_write: bool,
    /// The parent's level.
    pub parent_level: Level,
    /// The level that a new object is to have, or that is to become the caller's current one.
    pub new_level: Level,
    /// An object is there already.
    pub taken: bool,
    /// The new object's charge fits into the cell that governs the parent.
    pub fits: bool,
    /// What the caller holds by write and append may be held so at its new level.
    pub rises: bool,
    /// The modes that are to be given or rescinded.
    pub modes: Modes,
}
