// The calls by which a subject comes to hold an object by a mode, or gives it up.

ghost use Rattle.std.specs.Prelude.{◌≡◌, ℕ, List, IsTrue, slice_index};
ghost use Rattle.bk_rules.specs.Decisions.{is_get};
ghost use Rattle.bk_state.specs.Request.{is_outside};
ghost use Rattle.bk_calls.specs.Made.{made_by, IsCaller, IsMade};
ghost use Rattle.bk_calls.specs.Shown.{SameExtents};

use crate::allowing::allowed;
use crate::answering::{agree, refuse};
use crate::asking::modes_of;
use crate::caller::Caller;
use crate::reply::Reply;
use bk_process::Process;
use bk_rules::{Rule, mode_of};
use bk_state::Call;
use bk_store::Store;

// The caller comes to hold the object by the rule's mode.
pub(crate) fn get(store: &mut Store, process: &mut Process, caller: &Caller, rule: Rule) -> Reply
    requires get { IsTrue (is_get rule) }
    requires caller { IsCaller caller.now store.old }
    ensures made { (words : List ℕ) → IsMade store.old store.new words words process.new result (made_by caller.now store.old words process.old (Call.ByRule rule)) }
    ensures extents { SameExtents store.old store.new }
{
    match allowed(store, process, caller, rule, false) {
        Err(cause) => refuse(process, cause),
        Ok(path) => {
            store.hold(caller.subject, path, mode_of(rule));
            agree(process, &[0, 0])
        }
    }
}

// The caller no longer holds the object by the modes in R3.
pub(crate) fn release(store: &mut Store, process: &mut Process, caller: &Caller) -> Reply
    requires { IsCaller caller.now store.old }
    ensures made { (words : List ℕ) → IsMade store.old store.new words words process.new result (made_by caller.now store.old words process.old (Call.ByRule Rule.Release)) }
    ensures extents { SameExtents store.old store.new }
{
    let are_wrong = are_no_modes(process);
    match allowed(store, process, caller, Rule::Release, are_wrong) {
        Err(cause) => refuse(process, cause),
        Ok(path) => {
            store.release(caller.subject, path, modes_of(process));
            agree(process, &[0, 0])
        }
    }
}

/// Whether the modes in R3 are none of 1 to 15.
pub(crate) fn are_no_modes(process: &Process) -> bool
    ensures { result ≡ is_outside 1 15 (slice_index process.now.registers.general 3) }
{
    let modes = process.registers.general[3];
    modes < 1 || modes > 15
}
