// The calls that are for segments: windows that show them, and a word that is put into one.

ghost use Rattle.std.specs.Prelude.{◌≡◌, ◌<◌, ℕ, List, nat_le, slice_index};
ghost use Rattle.bk_object.specs.Rows.{most_subjects};
ghost use Rattle.bk_process.specs.NewProcess.{windows_of_process};
ghost use Rattle.bk_calls.specs.Made.{made_by, IsMade, IsMadeAlone};

use crate::answering::{agree, refuse};
use crate::caller::Caller;
use crate::reach::{Asked, Needs, Sort, reach};
use crate::reply::Reply;
use bk_core::Core;
use bk_object::BYTES_OF_BLOCK;
use bk_process::{Process, WINDOWS};
use bk_state::{Call, CallCause, Service};
use bk_store::Store;

// The window in R3 shows the segment at the path, of which the caller holds r, e or w.
pub(crate) fn window(store: &Store, process: &mut Process, caller: &Caller) -> Reply
    requires { caller.now.subject < most_subjects }
    ensures { (words : List ℕ) → IsMade store.now store.now words words process.new result (made_by caller.now store.now words process.old (Call.Other Service.Window)) }
{
    let window = process.registers.general[3];
    let asked = Asked {
        is_wrong: is_no_window(process),
        sort: Sort::Segment,
        needs: Needs::ReadExecuteOrWrite,
    };
    match reach(store, process, caller, asked) {
        Err(cause) => refuse(process, cause),
        Ok(reached) => {
            process.set_window(window as u8, Some(reached.path));
            agree(process, &[0, 0])
        }
    }
}

// The window in R3 is free.
#[tactic(auto, unfolding(bk_state::specs::Calls::call_refusal, bk_state::specs::Answers::outcome, bk_state::specs::Answers::reply))]
pub(crate) fn unwindow(process: &mut Process) -> Reply
    ensures { IsMadeAlone process.old process.new result (Call.Other Service.Unwindow) }
{
    let window = process.registers.general[3];
    if is_no_window(process) {
        return refuse(process, CallCause::BadArgument);
    }
    process.set_window(window as u8, None);
    agree(process, &[0, 0])
}

// Whether a process has no window with the number in R3.
fn is_no_window(process: &Process) -> bool
    ensures { result ≡ nat_le windows_of_process (slice_index process.now.registers.general 3) }
{
    process.registers.general[3] >= u16::from(WINDOWS)
}

// The word at the offset in R3 of the segment at the path, of which the caller holds w or a, becomes that in R4.
pub(crate) fn deposit(
    store: &Store,
    core: &mut Core,
    process: &mut Process,
    caller: &Caller,
) -> Reply
    requires { caller.now.subject < most_subjects }
    ensures { IsMade store.now store.now core.old.words core.new.words process.new result (made_by caller.now store.now core.old.words process.old (Call.Other Service.Deposit)) }
{
    let offset = process.registers.general[3];
    let asked = Asked {
        is_wrong: offset % 2 == 1,
        sort: Sort::Segment,
        needs: Needs::WriteOrAppend,
    };
    match reach(store, process, caller, asked) {
        Err(cause) => refuse(process, cause),
        Ok(reached) => {
            let word = process.registers.general[4];
            if offset < BYTES_OF_BLOCK * u16::from(reached.facts.blocks) {
                store.write_word(core, reached.path, offset, word);
                agree(process, &[0, 0])
            } else {
                refuse(process, CallCause::TooLong)
            }
        }
    }
}
