// The store of the sample, with its core and the process of a caller.

ghost use Rattle.std.specs.Prelude.{◌≡◌, IfSome};
ghost use Rattle.bk_object.specs.declared.kind.Kind.TheVariants.{Line};
ghost use Rattle.bk_object.specs.Rows.{empty_row};
ghost use Rattle.bk_store.specs.Stored.{IsFreeLine};

use super::steps::FIRST;
use super::{CHILD_0, CHILD_1, CHILD_2, ROOT};
use crate::levels::level;
use bitflags::Flags;
use bk_calls::{Answer, Caller, LineByte, call};
use bk_core::Core;
use bk_level::LevelTable;
use bk_object::{Facts, Kind, MOST_SUBJECTS, Modes, Row};
use bk_path::Path;
use bk_process::Process;
use bk_space::{Mode, Ps, Regs};
use bk_store::Store;
use std::alloc::Global;
use std::process::Abort;

#[derive(Drop)]
pub(crate) struct System {
    pub(crate) store: Store,
    pub(crate) core: Core,
    pub(crate) process: Process,
    pub(crate) caller: Caller,
    pub(crate) sent: Option<LineByte>,
    pub(crate) level: Option<u8>,
}

// The facts of an object that grants nobody anything.
fn facts_of(kind: Kind, blocks: u8, level: u8, quota: u16) -> Facts
    ensures { result ≡ record { kind = kind; blocks = blocks; level = level; quota = quota; row = empty_row } }
{
    Facts {
        kind,
        blocks,
        level,
        quota,
        row: Row::new(),
    }
}

// A subject, the first word of a path, the modes that the object there grants it, and those by which it holds it.
type Grant = (u8, u16, u8, u8);

const GRANTS: [Grant; 6] = [
    (0, ROOT, 5, 5),
    (0, CHILD_0, 3, 2),
    (0, CHILD_1, 4, 4),
    (1, ROOT, 1, 1),
    (1, CHILD_0, 3, 2),
    (1, CHILD_2, 4, 4),
];

// The sample, but that the first subject holds root by w too: root with a quota of 16, a segment of one block as `/0` and
// line 0 as `/1`, all at level 0, and line 1 as `/2` at level 1, which dominates level 0. Both subjects are granted r on root
// and hold it, and are granted r and e on `/0` and hold it by e; the first is granted w on `/1` and the second on `/2`, and
// they hold that. The first calls, at level 0.
pub(crate) fn sample(rt: &impl Abort, alloc: Global) -> System {
    let mut core = Core::reserve(alloc).ok().expect(rt, "memory");
    let mut store = with_line(alloc, levels(rt), &mut core).expect(rt, "memory");
    add_line(&mut store, &mut core, CHILD_1).expect(rt, "a line");
    add_segment(&mut store, &mut core, CHILD_0).expect(rt, "a segment");
    grant_all(&mut store, &GRANTS).expect(rt, "objects");
    System {
        store,
        core,
        process: Process::new(Regs::process(Ps::process(Mode::User, Mode::User))),
        caller: FIRST,
        sent: None,
        level: None,
    }
}

// Three levels, of which each dominates those before it.
fn levels(rt: &impl Abort) -> LevelTable {
    let mut levels = LevelTable::new();
    for class in 0..3 {
        levels.push(level(class, 0)).ok().expect(rt, "room");
    }
    levels
}

// A store of root and of line 1 as `/2` at level 1.
fn with_line(alloc: Global, levels: LevelTable, core: &mut Core) -> Option<Store>
    ensures { IfSome result (λ store. IsFreeLine store (Line 0)) }
{
    if levels.len() < 2 {
        return None;
    }
    let path = Path::root().child(2)?;
    match Store::reserve(alloc, levels, facts_of(Kind::Directory, 0, 0, 16), 2) {
        Ok(mut store) => match store.create(core, path, facts_of(Kind::Line(1), 0, 1, 0)) {
            Ok(()) => Some(store),
            Err(_) => None,
        },
        Err(_) => None,
    }
}

// Line 0, at level 0, as the path with that first word.
fn add_line(store: &mut Store, core: &mut Core, first: u16) -> Option<()>
    requires { IsFreeLine store.old (Line 0) }
{
    let path = Path::unpack(first, 0)?;
    let parent = store.facts(path.parent()?)?;
    if parent.kind != Kind::Directory || store.level(0).is_none() {
        return None;
    }
    store
        .create(core, path, facts_of(Kind::Line(0), 0, 0, 0))
        .ok()
}

// A segment of one block, at level 0, as the path with that first word.
fn add_segment(store: &mut Store, core: &mut Core, first: u16) -> Option<()> {
    let path = Path::unpack(first, 0)?;
    let parent = store.facts(path.parent()?)?;
    if parent.kind != Kind::Directory || store.level(0).is_none() {
        return None;
    }
    store
        .create(core, path, facts_of(Kind::Segment, 1, 0, 0))
        .ok()
}

fn grant_all(store: &mut Store, grants: &[Grant]) -> Option<()> {
    for grant in grants {
        give_and_hold(store, grant)?;
    }
    Some(())
}

fn give_and_hold(store: &mut Store, grant: &Grant) -> Option<()> {
    let (subject, first, row, held) = *grant;
    let path = Path::unpack(first, 0)?;
    store.facts(path)?;
    if subject >= MOST_SUBJECTS {
        return None;
    }
    store.give(path, subject, Modes::from_bits_retain(row));
    store.facts(path)?;
    store.hold(subject, path, Modes::from_bits_retain(held));
    Some(())
}

// The answer to the call with these registers.
pub(crate) fn ask(system: &mut System, number: u8, general: [u16; 6]) -> Option<Answer> {
    let caller = system.caller;
    if caller.subject >= caller.subjects || caller.subjects > MOST_SUBJECTS {
        return None;
    }
    system.store.level(caller.f_s)?;
    system.store.level(caller.f_c)?;
    system.process.registers.general = general;
    let reply = call(
        &mut system.store,
        &mut system.core,
        &mut system.process,
        &caller,
        number,
    );
    system.sent = reply.sent;
    system.level = reply.level;
    Some(reply.answer)
}
