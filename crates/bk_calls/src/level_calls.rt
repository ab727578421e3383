// The call by which a subject raises its current level.

ghost use Rattle.std.specs.Prelude.{◌≡◌, ◌<◌, ℕ, List, length};
ghost use Rattle.bk_calls.specs.Decided.{facts_of_raise};
ghost use Rattle.bk_calls.specs.Made.{made_by, seen_by, IsCaller, IsMade};

use crate::answering::{agree, refuse};
use crate::caller::Caller;
use crate::facts::level_at;
use crate::new_object::has_level;
use crate::reply::Reply;
use bitflags::Flags;
use bk_level::Level;
use bk_object::{Kind, Modes};
use bk_process::Process;
use bk_rules::{Rule, RuleFacts, refusal};
use bk_state::{Call, CallCause};
use bk_store::Store;

// The caller's current level becomes the one with the number in R3. No path is looked at.
pub(crate) fn raise_level(store: &Store, process: &mut Process, caller: &Caller) -> Reply
    requires { IsCaller caller.now store.now }
    ensures { (words : List ℕ) → IsMade store.now store.now words words process.new result (made_by caller.now store.now words process.old (Call.ByRule Rule.RaiseLevel)) }
{
    let number = process.registers.general[3];
    if !has_level(store, number) {
        return refuse(process, CallCause::BadArgument);
    }
    store.law_levels();
    let level = number as u8;
    match refusal(&facts_of_raise(store, caller, level), Rule::RaiseLevel) {
        Some(cause) => refuse(process, cause),
        None => {
            let reply = agree(process, &[0, 0]);
            Reply {
                level: Some(level),
                ..reply
            }
        }
    }
}

// What the rule looks at, for that level; of objects nothing is said.
fn facts_of_raise(store: &Store, caller: &Caller, level: u8) -> RuleFacts
    requires caller { IsCaller caller.now store.now }
    requires level { level < length store.now.levels }
    ensures { (words : List ℕ) → result ≡ facts_of_raise (seen_by caller.now store.now words) caller.now.subject level }
{
    RuleFacts {
        named: false,
        there: false,
        root: false,
        kind: Kind::Directory,
        row: Modes::from_bits_retain(0),
        f_s: level_at(store, caller.f_s),
        f_c: level_at(store, caller.f_c),
        f_o: Level::lowest(),
        parent_write: false,
        parent_level: Level::lowest(),
        new_level: level_at(store, level),
        taken: false,
        fits: false,
        rises: store.may_rise(caller.subject, level),
        modes: Modes::from_bits_retain(0),
    }
}
