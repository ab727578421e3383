// What the rules look at, of an object and of its parent.

ghost use Rattle.std.specs.Prelude.{◌≡◌, ◌<◌, ℕ, List, option_map, unwrap_or};
ghost use Rattle.bk_level.specs.Levels.{level_at, lowest};
ghost use Rattle.bk_object.specs.Modes.{no_modes};
ghost use Rattle.bk_object.specs.Rows.{in_row, most_subjects};
ghost use Rattle.bk_state.specs.Request.{Request};
ghost use Rattle.bk_state.specs.declared.rule.Rule.{Rule};
ghost use Rattle.bk_calls.specs.Decided.{facts_there};
ghost use Rattle.bk_calls.specs.Made.{seen_by, IsCaller};

use crate::asking::{is_named, writes};
use crate::caller::Caller;
use bitflags::Flags;
use bk_level::Level;
use bk_object::{Facts, Kind, Modes};
use bk_path::Path;
use bk_rules::RuleFacts;
use bk_store::Store;

/// What every rule of an object that is there looks at, for the object at the path and these modes; of a new object, and of a
/// level to rise to, nothing is said.
pub(crate) fn facts_there(store: &Store, caller: &Caller, path: Path, modes: Modes) -> RuleFacts
    requires { IsCaller caller.now store.now }
    ensures { (words : List ℕ) (rule : Rule) (request : Request) → request.path ≡ path → request.modes ≡ modes →
        result ≡ facts_there (seen_by caller.now store.now words) caller.now.subject rule request }
{
    let object = store.facts(path);
    RuleFacts {
        named: is_named(store, caller.subject, path),
        there: object.is_some(),
        root: path.is_root(),
        kind: kind_of(object),
        row: row_of(object, caller.subject),
        f_s: level_at(store, caller.f_s),
        f_c: level_at(store, caller.f_c),
        f_o: level_of(store, object),
        parent_write: writes(store, caller.subject, path.above()),
        parent_level: Level::lowest(),
        new_level: Level::lowest(),
        taken: object.is_some(),
        fits: false,
        rises: false,
        modes,
    }
}

// What the object is; a directory where there is none.
fn kind_of(object: Option<Facts>) -> Kind
    ensures { result ≡ unwrap_or (option_map (λ facts. facts.kind) object) Kind.Directory }
{
    match object {
        Some(facts) => facts.kind,
        None => Kind::Directory,
    }
}

// The subject's modes in the object's row; none where there is no object.
fn row_of(object: Option<Facts>, subject: u8) -> Modes
    requires { subject < most_subjects }
    ensures { result ≡ unwrap_or (option_map (λ facts. in_row facts.row subject) object) no_modes }
{
    match object {
        Some(facts) => facts.row.get(subject),
        None => Modes::from_bits_retain(0),
    }
}

// The object's level; the lowest where there is no object.
pub(crate) fn level_of(store: &Store, object: Option<Facts>) -> Level
    ensures { result ≡ unwrap_or (option_map (λ facts. level_at store.now.levels facts.level) object) lowest }
{
    match object {
        Some(facts) => level_at(store, facts.level),
        None => Level::lowest(),
    }
}

// The level with that number; the lowest where the list has none.
pub(crate) fn level_at(store: &Store, n: u8) -> Level
    ensures { result ≡ level_at store.now.levels n }
{
    store.level(n).unwrap_or(Level::lowest())
}
