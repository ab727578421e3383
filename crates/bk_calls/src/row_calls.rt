// The calls by which a subject that holds an object's parent by write changes the object's row.

ghost use Rattle.std.specs.Prelude.{◌≡◌, ℕ, List};
ghost use Rattle.bk_state.specs.Request.{request_in};
ghost use Rattle.bk_state.specs.RowCalls as model;
ghost use Rattle.bk_store.specs.Stored.{Stored};
ghost use Rattle.bk_calls.specs.Made.{made_by, seen_by, IsCaller, IsMade};
ghost use Rattle.bk_calls.specs.Shown.{SameExtents};

use crate::access_calls::are_no_modes;
use crate::allowing::allowed;
use crate::answering::{agree, refuse};
use crate::asking::modes_of;
use crate::caller::Caller;
use crate::reply::Reply;
use bk_process::Process;
use bk_rules::Rule;
use bk_state::Call;
use bk_store::Store;

// The object grants the modes in R3 to the subject in R4 too.
pub(crate) fn give(store: &mut Store, process: &mut Process, caller: &Caller) -> Reply
    requires { IsCaller caller.now store.old }
    ensures made { (words : List ℕ) → IsMade store.old store.new words words process.new result (made_by caller.now store.old words process.old (Call.ByRule Rule.Give)) }
    ensures extents { SameExtents store.old store.new }
{
    let is_wrong = is_wrong_grant(process, caller);
    match allowed(store, process, caller, Rule::Give, is_wrong) {
        Err(cause) => refuse(process, cause),
        Ok(path) => {
            store.give(path, process.registers.general[4] as u8, modes_of(process));
            agree(process, &[0, 0])
        }
    }
}

// The object no longer grants the modes in R3 to the subject in R4, who no longer holds it by them.
pub(crate) fn rescind(store: &mut Store, process: &mut Process, caller: &Caller) -> Reply
    requires { IsCaller caller.now store.old }
    ensures made { (words : List ℕ) → IsMade store.old store.new words words process.new result (made_by caller.now store.old words process.old (Call.ByRule Rule.Rescind)) }
    ensures extents { SameExtents store.old store.new }
{
    let is_wrong = is_wrong_grant(process, caller);
    match allowed(store, process, caller, Rule::Rescind, is_wrong) {
        Err(cause) => refuse(process, cause),
        Ok(path) => {
            store.rescind(path, process.registers.general[4] as u8, modes_of(process));
            agree(process, &[0, 0])
        }
    }
}

// Whether the modes in R3 are none of 1 to 15, or there is no subject with the number in R4.
fn is_wrong_grant(process: &Process, caller: &Caller) -> bool
    ensures { (store : Stored) (words : List ℕ) → result ≡ model.is_wrong_grant (seen_by caller.now store words) (request_in process.now.registers.general) }
{
    are_no_modes(process) || process.registers.general[4] >= u16::from(caller.subjects)
}
