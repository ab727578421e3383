// Calls of a store that ask for their conditions first, and answer None where one doesn't hold.

ghost use Rattle.std.specs.Prelude.{◌≡◌, IsTrue};
ghost use Rattle.bk_object.specs.Kinds.{is_directory as has_children, is_any_line};
ghost use Rattle.bk_tree.specs.Kept.{HasBlocks, HasQuota};

use bk_core::Core;
use bk_object::{Facts, Kind, LARGEST_QUOTA, MOST_SUBJECTS, Modes};
use bk_path::Path;
use bk_queue::Message;
use bk_quota::Cell;
use bk_store::Store;
use bk_tree::TreeNo;

// Creates an object that is no line.
pub(crate) fn create(
    store: &mut Store,
    core: &mut Core,
    path: Path,
    facts: Facts,
) -> Option<Result<(), TreeNo>> {
    let above = path.parent()?;
    let parent = store.facts(above)?;
    let upgraded = is_directory(facts.kind) && parent.level != facts.level;
    if !is_directory(parent.kind) || is_line(facts.kind) || store.level(facts.level).is_none() {
        return None;
    }
    if !has_blocks(facts.kind, facts.blocks) || !has_quota(upgraded, facts.quota) {
        return None;
    }
    Some(store.create(core, path, facts))
}

fn is_directory(kind: Kind) -> bool
    ensures { result ≡ has_children kind }
{
    kind == Kind::Directory
}

fn is_line(kind: Kind) -> bool
    ensures { result ≡ is_any_line kind }
{
    match kind {
        Kind::Line(_) => true,
        Kind::Directory | Kind::Segment | Kind::Mailbox => false,
    }
}

fn has_blocks(kind: Kind, blocks: u8) -> bool
    ensures { IsTrue result → HasBlocks kind blocks }
{
    match kind {
        Kind::Segment => 1 <= blocks && blocks <= 128,
        Kind::Directory | Kind::Mailbox | Kind::Line(_) => blocks == 0,
    }
}

fn has_quota(upgraded: bool, quota: u16) -> bool
    ensures { IsTrue result → HasQuota upgraded quota }
{
    if upgraded {
        1 <= quota && quota <= LARGEST_QUOTA
    } else {
        quota == 0
    }
}

pub(crate) fn delete_group(store: &mut Store, path: Path) -> Option<()> {
    path.parent()?;
    store.facts(path)?;
    store.delete_group(path);
    Some(())
}

// A call that changes what is granted and held.
#[derive(Clone, Copy)]
pub(crate) enum Call {
    Give,
    Hold,
    Rescind,
    Release,
}

// The call for these modes of the object at the path.
pub(crate) fn change(
    store: &mut Store,
    call: Call,
    path: Path,
    subject: u8,
    modes: Modes,
) -> Option<()> {
    store.facts(path)?;
    if subject >= MOST_SUBJECTS {
        return None;
    }
    match call {
        Call::Give => store.give(path, subject, modes),
        Call::Hold => store.hold(subject, path, modes),
        Call::Rescind => store.rescind(path, subject, modes),
        Call::Release => store.release(subject, path, modes),
    }
    Some(())
}

pub(crate) fn cell(store: &Store, path: Path) -> Option<Cell> {
    let facts = store.facts(path)?;
    if !is_directory(facts.kind) {
        return None;
    }
    Some(store.cell(path))
}

pub(crate) fn word(store: &Store, core: &Core, path: Path, offset: u16) -> Option<u16> {
    let facts = store.facts(path)?;
    if facts.kind != Kind::Segment || offset % 2 != 0 || offset >= u16::from(facts.blocks) * 64 {
        return None;
    }
    Some(store.word(core, path, offset))
}

pub(crate) fn write_word(
    store: &Store,
    core: &mut Core,
    path: Path,
    offset: u16,
    value: u16,
) -> Option<()> {
    let facts = store.facts(path)?;
    if facts.kind != Kind::Segment || offset % 2 != 0 || offset >= u16::from(facts.blocks) * 64 {
        return None;
    }
    store.write_word(core, path, offset, value);
    Some(())
}

pub(crate) fn put_message(store: &mut Store, path: Path, words: [u16; 4]) -> Option<()> {
    let facts = store.facts(path)?;
    if facts.kind != Kind::Mailbox {
        return None;
    }
    let _ = store.put_message(path, words);
    Some(())
}

pub(crate) fn take_message(store: &mut Store, path: Path) -> Option<Option<Message>> {
    let facts = store.facts(path)?;
    if facts.kind != Kind::Mailbox {
        return None;
    }
    Some(store.take_message(path))
}

pub(crate) fn take_byte(store: &mut Store, path: Path) -> Option<Option<u8>> {
    let facts = store.facts(path)?;
    if !is_line(facts.kind) {
        return None;
    }
    Some(store.take_byte(path))
}
