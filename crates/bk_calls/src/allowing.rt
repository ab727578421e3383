// The checks that the rules of an object have in common: the path, the arguments, and those that the rule decides.

ghost use Rattle.std.specs.Prelude.{◌≡◌, ◌<◌, ℕ, List, IsTrue, length, slice_index};
ghost use Rattle.bk_state.specs.Calls as model;
ghost use Rattle.bk_state.specs.Request.{path_in, request_in};
ghost use Rattle.bk_calls.specs.Decided.{has_path, Allows};
ghost use Rattle.bk_calls.specs.Made.{seen_by, IsCaller};

use crate::asking::{modes_of, path_of};
use crate::caller::Caller;
use crate::facts::facts_there;
use crate::new_object::facts_of_new;
use bk_path::Path;
use bk_process::Process;
use bk_rules::{Rule, refusal};
use bk_state::CallCause;
use bk_store::Store;

// The path of the object where the rule answers yes, or else the cause. The caller says whether an argument of the rule is
// outside its range.
pub(crate) fn allowed(
    store: &Store,
    process: &Process,
    caller: &Caller,
    rule: Rule,
    is_wrong: bool,
) -> Result<Path, CallCause>
    requires path { IsTrue (has_path rule) }
    requires caller { IsCaller caller.now store.now }
    requires argument { (words : List ℕ) → (model.rule_call rule).is_wrong (seen_by caller.now store.now words) (request_in process.now.registers.general) ≡ is_wrong }
    ensures { Allows caller.now store.now rule process.now.registers.general result }
{
    let Some(path) = path_of(process) else {
        return Err(CallCause::NoPath);
    };
    if is_wrong {
        return Err(CallCause::BadArgument);
    }
    match decided(store, process, caller, path, rule) {
        None => Ok(path),
        Some(cause) => Err(cause),
    }
}

// What the rule decides on the object at the path: the first of its checks that fails.
fn decided(
    store: &Store,
    process: &Process,
    caller: &Caller,
    path: Path,
    rule: Rule,
) -> Option<CallCause>
    requires of_object { IsTrue (has_path rule) }
    requires caller { IsCaller caller.now store.now }
    requires path { path_in process.now.registers.general ≡ path }
    requires level { rule ≡ Rule.Create → slice_index process.now.registers.general 4 < length store.now.levels }
    ensures { (words : List ℕ) → result ≡ model.refusal (seen_by caller.now store.now words) caller.now.subject rule (request_in process.now.registers.general) }
{
    match rule {
        Rule::Create => refusal(&facts_of_new(store, process, caller, path), rule),
        _ => refusal(&facts_there(store, caller, path, modes_of(process)), rule),
    }
}
