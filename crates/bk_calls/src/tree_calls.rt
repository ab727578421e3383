// The calls by which objects come and go.

ghost use Rattle.std.specs.Prelude.{◌≡◌, ◌≢◌, ℕ, List};
ghost use Rattle.bk_state.specs.Request.{request_in};
ghost use Rattle.bk_state.specs.TreeCalls as model;
ghost use Rattle.bk_calls.specs.Made.{made_by, seen_by, IsCaller, IsMade};
ghost use Rattle.bk_calls.specs.Shown.{SameExtents};

use crate::allowing::allowed;
use crate::answering::{agree, refuse};
use crate::caller::Caller;
use crate::new_object::{has_level, is_no_object, level_number, new_facts};
use crate::reply::{Answer, Reply};
use bk_core::Core;
use bk_process::Process;
use bk_rules::Rule;
use bk_state::Call;
use bk_store::Store;

// A new object is at the path, below a directory.
pub(crate) fn create(
    store: &mut Store,
    core: &mut Core,
    process: &mut Process,
    caller: &Caller,
) -> Reply
    requires { IsCaller caller.now store.old }
    ensures made { IsMade store.old store.new core.old.words core.new.words process.new result (made_by caller.now store.old core.old.words process.old (Call.ByRule Rule.Create)) }
    ensures extents { result.answer ≢ Answer.Yes → SameExtents store.old store.new }
{
    let is_wrong = is_wrong_object(store, process);
    match allowed(store, process, caller, Rule::Create, is_wrong) {
        Err(cause) => refuse(process, cause),
        Ok(path) => {
            store.law_levels();
            let facts = new_facts(process, level_number(store, path.above()));
            store.create(core, path, facts).unwrap();
            agree(process, &[0, 0])
        }
    }
}

// The object and all its inferiors go.
pub(crate) fn delete_group(store: &mut Store, process: &mut Process, caller: &Caller) -> Reply
    requires { IsCaller caller.now store.old }
    ensures made { (words : List ℕ) → IsMade store.old store.new words words process.new result (made_by caller.now store.old words process.old (Call.ByRule Rule.DeleteGroup)) }
    ensures extents { result.answer ≢ Answer.Yes → SameExtents store.old store.new }
{
    match allowed(store, process, caller, Rule::DeleteGroup, false) {
        Err(cause) => refuse(process, cause),
        Ok(path) => {
            store.delete_group(path);
            agree(process, &[0, 0])
        }
    }
}

// Whether nobody creates the object that R3 and R5 tell, or there is no level with the number in R4.
fn is_wrong_object(store: &Store, process: &Process) -> bool
    ensures { (caller : Caller) (words : List ℕ) → result ≡ model.create.is_wrong (seen_by caller store.now words) (request_in process.now.registers.general) }
{
    let [_, _, _, kind_and_blocks, level, quota] = process.registers.general;
    is_no_object(kind_and_blocks / 256, kind_and_blocks % 256, quota) || !has_level(store, level)
}
