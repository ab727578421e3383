// The calls that tell the caller something and change nothing else: a directory's entry, the caller itself, a quota.

ghost use Rattle.std.specs.Prelude.{◌≡◌, ◌<◌, ◌+◌, ◌*◌, ◌∷◌, ℕ, List, Some, None, length, nat_lt, option_map, if◌then◌else◌};
ghost use Rattle.bk_object.specs.Kinds.{kind_number, blocks_or_line};
ghost use Rattle.bk_object.specs.Rows.{most_subjects};
ghost use Rattle.bk_state.specs.TellingCalls.{entry_values};
ghost use Rattle.bk_store.specs.Stored.{facts_in};
ghost use Rattle.bk_calls.specs.declared.caller.Caller.{Caller as CallerValue};
ghost use Rattle.bk_calls.specs.Made.{made_by, seen_by, IsMade, IsMadeWithin};

use crate::answering::{agree, refuse};
use crate::caller::Caller;
use crate::reach::{Asked, Needs, Reached, Sort, reach};
use crate::reply::Reply;
use bitflags::Flags;
use bk_object::{Facts, Kind};
use bk_path::Path;
use bk_process::Process;
use bk_state::{Call, CallCause, Service};
use bk_store::Store;

// Of the child in R3 of the directory at the path, of which the caller holds r or w: its kind and blocks, the number of its
// level, the modes by which the caller holds it, and those that its row grants the caller.
pub(crate) fn entry(store: &Store, process: &mut Process, caller: &Caller) -> Reply
    requires { caller.now.subject < most_subjects }
    ensures { (words : List ℕ) → IsMade store.now store.now words words process.new result (made_by caller.now store.now words process.old (Call.Other Service.Entry)) }
{
    let entry = process.registers.general[3];
    let asked = Asked {
        is_wrong: entry > 15,
        sort: Sort::Directory,
        needs: Needs::ReadOrWrite,
    };
    match reach(store, process, caller, asked) {
        Err(cause) => refuse(process, cause),
        Ok(reached) => {
            match find_child(store, reached.path, entry as u8) {
                Some(child) => {
                    let values = values_of(store, caller.subject, child.path, &child.facts);
                    agree(process, &values)
                }
                None => refuse(process, CallCause::Empty),
            }
        }
    }
}

// The child of that entry, and its facts, where one is there; a path of seven entries has none.
fn find_child(store: &Store, path: Path, entry: u8) -> Option<Reached>
    requires { entry < 16 }
    ensures { result ≡ option_map (λ facts. record { path = entry ∷ path; facts = facts }) (if nat_lt (length path) 7 then facts_in store.now (entry ∷ path) else None) }
{
    if path.depth() == 7 {
        return None;
    }
    let child = path.child(entry)?;
    let facts = store.facts(child)?;
    Some(Reached { path: child, facts })
}

// What the subject is told of a child with these facts.
fn values_of(store: &Store, subject: u8, child: Path, facts: &Facts) -> [u16; 6]
    requires { subject < most_subjects }
    ensures { (caller : CallerValue) (words : List ℕ) → result ≡ entry_values (seen_by caller store.now words) subject child (Some facts.now) }
{
    [
        0,
        0,
        kind_word(facts),
        u16::from(facts.level),
        u16::from(store.held(subject, child).bits()),
        u16::from(facts.row.get(subject).bits()),
    ]
}

// The number of the kind in the high byte; in the low one the blocks, or the number of the line.
fn kind_word(facts: &Facts) -> u16
    ensures { result ≡ 256 * kind_number facts.now.kind + blocks_or_line facts.now.kind facts.now.blocks }
{
    let low = facts.kind.blocks_or_line(facts.blocks);
    256 * u16::from(facts.kind.number()) + u16::from(low)
}

// The limit of the cell that governs the directory at the path, of which the caller holds r or w, and how much is used.
pub(crate) fn quota(store: &Store, process: &mut Process, caller: &Caller) -> Reply
    requires { caller.now.subject < most_subjects }
    ensures { (words : List ℕ) → IsMade store.now store.now words words process.new result (made_by caller.now store.now words process.old (Call.Other Service.Quota)) }
{
    let asked = Asked {
        is_wrong: false,
        sort: Sort::Directory,
        needs: Needs::ReadOrWrite,
    };
    match reach(store, process, caller, asked) {
        Err(cause) => refuse(process, cause),
        Ok(reached) => {
            let cell = store.cell(reached.path);
            agree(process, &[0, 0, cell.limit(), cell.used()])
        }
    }
}

// The caller's number, and the numbers of its current and its greatest level.
#[tactic(auto, unfolding(bk_state::specs::Calls::call_refusal, bk_state::specs::Answers::outcome, bk_state::specs::Answers::reply))]
pub(crate) fn identify(process: &mut Process, caller: &Caller) -> Reply
    requires { caller.now.subject < caller.now.subjects }
    ensures { IsMadeWithin caller.now process.old process.new result (Call.Other Service.Identify) }
{
    agree(
        process,
        &[
            0,
            0,
            u16::from(caller.subject),
            u16::from(caller.f_c),
            u16::from(caller.f_s),
        ],
    )
}
