// What create looks at, and the object that it makes.

ghost use Rattle.std.specs.Prelude.{◌≡◌, ◌==◌, ◌<◌, ◌&&◌, not, nat_le, ℕ, List, if◌then◌else◌, length, slice_index};
ghost use Rattle.bk_object.specs.Kinds.{is_directory};
ghost use Rattle.bk_path.specs.Paths.{parent};
ghost use Rattle.bk_rules.specs.Decisions.{facts_of, refusal_by};
ghost use Rattle.bk_state.specs.KernelCall.{has_room};
ghost use Rattle.bk_state.specs.Request as model;
ghost use Rattle.bk_state.specs.TreeCalls.{is_no_object};
ghost use Rattle.bk_store.specs.Stored as stored;
ghost use Rattle.bk_calls.specs.Made.{seen_by, IsCaller};

use crate::asking::{is_directory, modes_of};
use crate::caller::Caller;
use crate::facts::{facts_there, level_at, level_of};
use bk_object::{Facts, Kind, LARGEST_QUOTA, MOST_BLOCKS, Row};
use bk_path::Path;
use bk_process::Process;
use bk_quota::charge_of;
use bk_rules::{Rule, RuleFacts};
use bk_store::Store;

/// What create looks at: the object at the path, its parent, and the object that is to come.
pub(crate) fn facts_of_new(
    store: &Store,
    process: &Process,
    caller: &Caller,
    path: Path,
) -> RuleFacts
    requires caller { IsCaller caller.now store.now }
    requires path { model.path_in process.now.registers.general ≡ path }
    requires level { slice_index process.now.registers.general 4 < length store.now.levels }
    ensures { (words : List ℕ) → refusal_by result Rule.Create ≡ refusal_by (facts_of (seen_by caller.now store.now words) caller.now.subject Rule.Create (model.request_in process.now.registers.general)) Rule.Create }
{
    store.law_levels();
    let above = path.above();
    let level = process.registers.general[4] as u8;
    let mut facts = facts_there(store, caller, path, modes_of(process));
    facts.parent_level = level_of(store, store.facts(above));
    facts.new_level = level_at(store, level);
    facts.fits = has_room(store, process, above);
    facts
}

// Whether a directory is there, and the charge of the new object fits into the cell that governs it.
fn has_room(store: &Store, process: &Process, above: Path) -> bool
    requires { slice_index process.now.registers.general 4 < length store.now.levels }
    ensures { stored.HasDirectory store.now above → (caller : Caller) (words : List ℕ) → parent (model.path_in process.now.registers.general) ≡ above →
        result ≡ has_room (seen_by caller store.now words) (model.request_in process.now.registers.general) }
{
    if !is_directory(store, above) {
        return false;
    }
    store.law_levels();
    let number = level_number(store, above);
    let charge = charge_of(&new_facts(process, number), number);
    let cell = store.cell(above);
    u32::from(cell.used()) + u32::from(charge) <= u32::from(cell.limit())
}

/// The facts of the object that create asks for, below a directory of that level: an empty row, and a quota in an upgraded
/// directory alone.
pub(crate) fn new_facts(process: &Process, above: u8) -> Facts
    requires { slice_index process.now.registers.general 4 < 256 }
    ensures { result ≡ model.new_facts (model.request_in process.now.registers.general) above }
{
    let general = process.registers.general;
    let kind = kind_from(general[3] / 256);
    let level = general[4] as u8;
    Facts {
        kind,
        blocks: (general[3] % 256) as u8,
        level,
        quota: quota_for(kind, level, above, general[5]),
        row: Row::new(),
    }
}

// An upgraded directory keeps its quota.
fn quota_for(kind: Kind, level: u8, above: u8, quota: u16) -> u16
    ensures { result ≡ (if is_directory kind && not (level == above) then quota else 0) }
{
    if kind == Kind::Directory && level != above {
        quota
    } else {
        0
    }
}

// The kind with that number.
fn kind_from(number: u16) -> Kind
    ensures { result ≡ model.kind_from number }
{
    match number {
        1 => Kind::Segment,
        2 => Kind::Mailbox,
        _ => Kind::Directory,
    }
}

/// The number of the level of the object at the path; 0 where no object is there.
pub(crate) fn level_number(store: &Store, path: Path) -> u8
    ensures { result ≡ stored.level_number store.now path }
{
    match store.facts(path) {
        Some(facts) => facts.level,
        None => 0,
    }
}

/// Whether the list of levels has that number.
pub(crate) fn has_level(store: &Store, n: u16) -> bool
    ensures { result ≡ not (nat_le (length store.now.levels) n) }
{
    store.law_levels();
    n < 256 && store.level(n as u8).is_some()
}

/// Whether nobody creates such an object: a kind over 2, a number of blocks that isn't the kind's, or a directory with a
/// quota that isn't 1 to 3,904.
pub(crate) fn is_no_object(kind: u16, blocks: u16, quota: u16) -> bool
    ensures { result ≡ is_no_object kind blocks quota }
{
    match kind {
        0 => blocks != 0 || quota < 1 || quota > LARGEST_QUOTA,
        1 => blocks < 1 || blocks > u16::from(MOST_BLOCKS),
        2 => blocks != 0,
        _ => true,
    }
}
