// Tests of what no clause says: stores with ample memory, through their calls one after another.

mod allowed;
mod mixed;
mod plain;

ghost use Rattle.std.specs.Prelude.{◌≡◌};
ghost use Rattle.bk_object.specs.Rows.{empty_row};

use crate::levels::level;
use allowed::{
    Call, cell, change, create, delete_group, put_message, take_byte, take_message, word,
    write_word,
};
use bitflags::Flags;
use bk_core::Core;
use bk_level::LevelTable;
use bk_object::{Facts, Kind, Modes, Row};
use bk_path::Path;
use bk_queue::Message;
use bk_store::Store;
use bk_tree::TreeNo;
use std::alloc::Global;

fn root() -> Facts
    ensures { result ≡ record { kind = Kind.Directory; blocks = 0; level = 0; quota = 16; row = empty_row } }
{
    facts_of(Kind::Directory, 0, 0, 16)
}

// The facts of an object that grants nobody anything.
fn facts_of(kind: Kind, blocks: u8, level: u8, quota: u16) -> Facts
    ensures { result ≡ record { kind = kind; blocks = blocks; level = level; quota = quota; row = empty_row } }
{
    Facts {
        kind,
        blocks,
        level,
        quota,
        row: Row::new(),
    }
}

// A store of root alone, with that quota, at the first of two levels.
fn begun(alloc: Global, quota: u16) -> Option<Store> {
    let mut levels = LevelTable::new();
    levels.push(level(3, 1)).ok()?;
    levels.push(level(1, 0)).ok()?;
    if quota == 0 || quota > 3904 {
        return None;
    }
    Store::reserve(alloc, levels, facts_of(Kind::Directory, 0, 0, quota), 2).ok()
}

// After a call on root for the last subject: by which modes it holds root, by which the one before it does, and which the
// row grants the last one.
fn modes_after(store: &mut Store, call: Call, bits: u8) -> Option<[u8; 3]> {
    change(store, call, Path::root(), 63, Modes::from_bits_retain(bits))?;
    let facts = store.facts(Path::root())?;
    Some([
        store.held(63, Path::root()).bits(),
        store.held(30, Path::root()).bits(),
        facts.row.get(63).bits(),
    ])
}

// Whether no object is at the path, nobody holds it, and root is no segment; releasing the path changes nothing.
fn is_nothing_at(store: &mut Store, path: Path) -> bool {
    store.release(63, path, Modes::R);
    store.facts(path).is_none()
        && store.extent(Path::root()).is_none()
        && store.held(63, path).bits() == 0
}

// The limit and the used number of root's cell, and the class of the first level: None where there is a third level, or an
// object below root.
fn numbers_of_root(store: &mut Store) -> Option<[u16; 3]> {
    let other = Path::root().child(5)?;
    if !is_nothing_at(store, other) || store.level(2).is_some() {
        return None;
    }
    let own = cell(store, Path::root())?;
    Some([own.limit(), own.used(), u16::from(store.level(0)?.class)])
}

// The modes after each of four calls.
fn modes_by_and_by(store: &mut Store) -> Option<[[u8; 3]; 4]> {
    Some([
        modes_after(store, Call::Give, 5)?,
        modes_after(store, Call::Hold, 5)?,
        modes_after(store, Call::Rescind, 4)?,
        modes_after(store, Call::Release, 1)?,
    ])
}

// Root with a limit of 16, of which 1 is used; the last subject is given r and w (1 and 4), holds both, loses w of both, and
// releases r.
#[test]
fn gives_holds_and_rescinds(rt: HostRuntime) {
    let mut store = begun(rt.alloc(), 16).expect(&rt, "memory");
    let want = [[0, 0, 5], [5, 0, 5], [1, 0, 1], [0, 0, 1]];
    assert_eq!(rt; modes_by_and_by(&mut store), Some(want));
    assert_eq!(rt; numbers_of_root(&mut store), Some([16, 1, 3]));
}

// The used number of the cell that governs the directory.
fn used(store: &Store, path: Path) -> Option<u16> {
    Some(cell(store, path)?.used())
}

// The used number of a cell without a group.
fn used_without(store: &mut Store, group: Path, cell: Path) -> Option<u16> {
    delete_group(store, group)?;
    used(store, cell)
}

// An object is created: None where it is refused.
fn made(store: &mut Store, core: &mut Core, path: Path, facts: Facts) -> Option<()> {
    create(store, core, path, facts)?.ok()
}

// A directory with a quota of 5 takes four segments of one block, and no fifth, nor one that is there: None where an answer
// is another.
fn four_segments(store: &mut Store, core: &mut Core, upper: Path) -> Option<()> {
    for (entry, want) in [
        (0, Ok(())),
        (1, Ok(())),
        (2, Ok(())),
        (3, Ok(())),
        (4, Err(TreeNo::Quota)),
        (3, Err(TreeNo::Taken)),
    ] {
        let path = upper.child(entry)?;
        if create(store, core, path, facts_of(Kind::Segment, 1, 1, 0)) != Some(want) {
            return None;
        }
    }
    Some(())
}

// The used number of root's cell with a directory of another level, which has a quota of 5; that of the directory's cell with
// its segments, and without one of them; and that of root's cell without the directory.
fn used_by_and_by(store: &mut Store, core: &mut Core) -> Option<[u16; 4]> {
    let upper = Path::root().child(1)?;
    made(store, core, upper, facts_of(Kind::Directory, 0, 1, 5))?;
    let with_upper = used(store, Path::root())?;
    four_segments(store, core, upper)?;
    let with_all = used(store, upper)?;
    let path = upper.child(2)?;
    let with_three = used_without(store, path, upper)?;
    let alone = used_without(store, upper, Path::root())?;
    if store.facts(path).is_some() {
        return None;
    }
    Some([with_upper, with_all, with_three, alone])
}

// Root with a quota of 16; below it a directory of another level with a quota of 5, for which root pays.
#[test]
fn counts_cells_over_the_objects_as_they_are(rt: HostRuntime) {
    let mut core = Core::reserve(rt.alloc()).expect(&rt, "memory");
    let mut store = begun(rt.alloc(), 16).expect(&rt, "memory");
    assert_eq!(rt; used_by_and_by(&mut store, &mut core), Some([6, 5, 4, 1]));
}

// Nothing waits in a new mailbox, and seventeen messages, numbered from 0, go to it.
fn put_seventeen(store: &mut Store, path: Path) -> Option<()> {
    if take_message(store, path)?.is_some() {
        return None;
    }
    for n in 0..17 {
        put_message(store, path, [n, 1, 2, 3])?;
    }
    Some(())
}

// How many of them are taken in their order, the first with the count of the lost one, before none is left.
fn messages_in_order(store: &mut Store, path: Path) -> Option<u16> {
    for n in 0..16 {
        let message = Message {
            words: [n, 1, 2, 3],
            lost: if n == 0 { 1 } else { 0 },
        };
        if take_message(store, path)? != Some(message) {
            return Some(n);
        }
    }
    match take_message(store, path)? {
        Some(_) => None,
        None => Some(16),
    }
}

// The same of a mailbox below root.
fn messages_of_mailbox(store: &mut Store, core: &mut Core) -> Option<u16> {
    let path = Path::root().child(2)?;
    made(store, core, path, facts_of(Kind::Mailbox, 0, 1, 0))?;
    put_seventeen(store, path)?;
    messages_in_order(store, path)
}

// Seventeen messages: sixteen wait, and the first that is taken tells of one that was lost.
#[test]
fn loses_and_counts_the_seventeenth_message(rt: HostRuntime) {
    let mut core = Core::reserve(rt.alloc()).expect(&rt, "memory");
    let mut store = begun(rt.alloc(), 16).expect(&rt, "memory");
    assert_eq!(rt; messages_of_mailbox(&mut store, &mut core), Some(16));
}

// Bytes of line 0 and of one that is none are lost, and 65 bytes, numbered from 0, are typed on line 1, which the path has.
fn type_bytes(store: &mut Store, path: Path) -> Option<()> {
    store.type_byte(0, 7);
    store.type_byte(9, 7);
    if take_byte(store, path)?.is_some() {
        return None;
    }
    for n in 0..65 {
        store.type_byte(1, n);
    }
    Some(())
}

// How many of them are taken in their order, before none is left.
fn bytes_in_order(store: &mut Store, path: Path) -> Option<u8> {
    type_bytes(store, path)?;
    for n in 0..64 {
        if take_byte(store, path)? != Some(n) {
            return Some(n);
        }
    }
    match take_byte(store, path)? {
        Some(_) => None,
        None => Some(64),
    }
}

// The same of a store of root and the line below it.
fn bytes_of_line(alloc: Global, core: &mut Core) -> Option<u8> {
    let mut levels = LevelTable::new();
    levels.push(level(0, 0)).ok()?;
    let path = Path::root().child(3)?;
    match Store::reserve(alloc, levels, root(), 2) {
        Ok(mut store) => {
            store
                .create(core, path, facts_of(Kind::Line(1), 0, 0, 0))
                .ok()?;
            bytes_in_order(&mut store, path)
        }
        Err(_) => None,
    }
}

// 65 bytes are typed on line 1, of which 64 wait; the bytes of line 0, which no object has, are lost.
#[test]
fn keeps_64_typed_bytes_of_a_line(rt: HostRuntime) {
    let mut core = Core::reserve(rt.alloc()).expect(&rt, "memory");
    assert_eq!(rt; bytes_of_line(rt.alloc(), &mut core), Some(64));
}

// The directories 0 and 0/17 (octal) below root.
fn make_directories(store: &mut Store, core: &mut Core, upper: Path, lower: Path) -> Option<()> {
    made(store, core, upper, facts_of(Kind::Directory, 0, 0, 0))?;
    made(store, core, lower, facts_of(Kind::Directory, 0, 0, 0))
}

// 31 segments in them: 30 of 128 blocks and one of 61. With them the whole quota of 3,904 is used.
fn fill(store: &mut Store, core: &mut Core, upper: Path, lower: Path) -> Option<()> {
    for n in 0..31u8 {
        let path = if n < 15 {
            upper.child(n)?
        } else {
            lower.child(n - 15)?
        };
        let blocks = if n < 30 { 128 } else { 61 };
        made(store, core, path, facts_of(Kind::Segment, blocks, 0, 0))?;
    }
    Some(())
}

// Whether a segment more is refused for want of quota.
fn is_full(store: &mut Store, core: &mut Core) -> Option<bool> {
    let more = Path::root().child(1)?;
    let made = create(store, core, more, facts_of(Kind::Segment, 1, 0, 0))?;
    Some(made == Err(TreeNo::Quota))
}

// The last word of the segment, and what it is when 123 (octal) was written there.
fn last_word(store: &Store, core: &mut Core, path: Path) -> Option<[u16; 2]> {
    let old = word(store, core, path, 0o17776)?;
    write_word(store, core, path, 0o17776, 0o123)?;
    let new = word(store, core, path, 0o17776)?;
    Some([old, new])
}

// What root's cell uses when all is taken; the last word of the first segment, before and after it is written; and what
// root's cell uses when all is given back: None where one more segment was had, or the first is still there.
fn one_round(store: &mut Store, core: &mut Core) -> Option<(u16, [u16; 2], u16)> {
    let upper = Path::root().child(0)?;
    let lower = upper.child(15)?;
    make_directories(store, core, upper, lower)?;
    fill(store, core, upper, lower)?;
    let full = used(store, Path::root())?;
    let first = upper.child(0)?;
    let words = last_word(store, core, first)?;
    let was_full = is_full(store, core)?;
    let empty = used_without(store, upper, Path::root())?;
    if !was_full || store.extent(first).is_some() {
        return None;
    }
    Some((full, words, empty))
}

// All blocks that root's quota can pay for are taken, given back with one group, and taken again: the words that were there
// are gone.
#[test]
fn fills_core_and_empties_it_and_fills_it_again(rt: HostRuntime) {
    let mut core = Core::reserve(rt.alloc()).expect(&rt, "memory");
    let mut store = begun(rt.alloc(), 3904).expect(&rt, "memory");
    for _round in 0..2u8 {
        let numbers = one_round(&mut store, &mut core);
        assert_eq!(rt; numbers, Some((3904, [0, 0o123], 1)));
    }
}
