// A kernel call, by its number.

ghost use Rattle.std.specs.Prelude.{◌≡◌, false, Some};
ghost use Rattle.bk_state.specs.Answers.{called};
ghost use Rattle.bk_state.specs.Calls as model;
ghost use Rattle.bk_calls.specs.Made.{made_by, seen_by, IsCaller, IsMade};
ghost use Rattle.bk_calls.specs.Shown as shown;
ghost use Rattle.bk_calls.specs.Shown.{KeepsPages, SameExtents};

use crate::access_calls::{get, release};
use crate::answering::refuse;
use crate::caller::Caller;
use crate::level_calls::raise_level;
use crate::process_calls::{pause, set_fault_entry, stop};
use crate::queue_calls::{line_in, line_out, receive, send};
use crate::reply::{Answer, Reply};
use crate::row_calls::{give, rescind};
use crate::segment_calls::{deposit, unwindow, window};
use crate::telling_calls::{entry, identify, quota};
use crate::tree_calls::{create, delete_group};
use bk_core::Core;
use bk_process::Process;
use bk_state::{Call, CallCause, Rule, Service};
use bk_store::Store;

/// The call of that number, by the caller, with its registers as they are in the process: the checks in their order, the
/// first that fails being the cause; on yes the call's change, and its values in the registers. A refused call changes R0
/// and R1 alone. No memory is taken, and core blocks 0 to 63 keep their words. Where `changes_pages` is false of number and
/// answer, all that pages are made of stays.
pub fn call(
    store: &mut Store,
    core: &mut Core,
    process: &mut Process,
    caller: &Caller,
    number: u8,
) -> Reply
    requires { IsCaller caller.now store.old }
    ensures made { IsMade store.old store.new core.old.words core.new.words process.new result (called (seen_by caller.now store.old core.old.words) caller.now.subject process.old number) }
    ensures pages { shown.changes_pages number result.answer ≡ false → KeepsPages store.old store.new process.old process.new }
{
    match call_of(number) {
        Some(Call::ByRule(rule)) => decide_rule(store, core, process, caller, rule),
        Some(Call::Other(service)) => serve(store, core, process, caller, service),
        None => refuse(process, CallCause::NoCall),
    }
}

/// Whether a call of that number, answered so, may have changed what a page shows: by what is held, by where a segment
/// stands, or by a window of the caller. A refused call never has.
pub fn changes_pages(number: u8, answer: Answer) -> bool
    ensures { result ≡ shown.changes_pages number answer }
{
    match answer {
        Answer::Yes => changes_on_yes(call_of(number)),
        Answer::No(_) | Answer::Unknown(_) => false,
    }
}

// Whether the call, answered yes, may have changed what a page shows.
fn changes_on_yes(call: Option<Call>) -> bool
    ensures { result ≡ shown.call_changes_pages call }
{
    match call {
        Some(Call::ByRule(rule)) => !matches!(rule, Rule::Give | Rule::RaiseLevel),
        Some(Call::Other(service)) => matches!(service, Service::Window | Service::Unwindow),
        None => false,
    }
}

// The call with the number: None for 0 and from 30 (octal) on.
fn call_of(number: u8) -> Option<Call>
    ensures { result ≡ model.call_of number }
{
    match number {
        0o1 => Some(Call::ByRule(Rule::GetRead)),
        0o2 => Some(Call::ByRule(Rule::GetAppend)),
        0o3 => Some(Call::ByRule(Rule::GetExecute)),
        0o4 => Some(Call::ByRule(Rule::GetWrite)),
        0o5 => Some(Call::ByRule(Rule::Release)),
        0o6 => Some(Call::ByRule(Rule::Give)),
        0o7 => Some(Call::ByRule(Rule::Rescind)),
        0o10 => Some(Call::ByRule(Rule::Create)),
        0o11 => Some(Call::ByRule(Rule::DeleteGroup)),
        0o12 => Some(Call::Other(Service::Window)),
        0o13 => Some(Call::Other(Service::Unwindow)),
        0o14 => Some(Call::Other(Service::Deposit)),
        0o15 => Some(Call::Other(Service::Send)),
        0o16 => Some(Call::Other(Service::Receive)),
        0o17 => Some(Call::Other(Service::LineOut)),
        0o20 => Some(Call::Other(Service::LineIn)),
        0o21 => Some(Call::Other(Service::Entry)),
        0o22 => Some(Call::Other(Service::Identify)),
        0o23 => Some(Call::Other(Service::Quota)),
        0o24 => Some(Call::Other(Service::Pause)),
        0o25 => Some(Call::Other(Service::SetFaultEntry)),
        0o26 => Some(Call::Other(Service::Stop)),
        0o27 => Some(Call::ByRule(Rule::RaiseLevel)),
        _ => None,
    }
}

// A call of one of the ten rules.
fn decide_rule(
    store: &mut Store,
    core: &mut Core,
    process: &mut Process,
    caller: &Caller,
    rule: Rule,
) -> Reply
    requires { IsCaller caller.now store.old }
    ensures made { IsMade store.old store.new core.old.words core.new.words process.new result (made_by caller.now store.old core.old.words process.old (Call.ByRule rule)) }
    ensures extents { shown.answered_changes_pages (Some (Call.ByRule rule)) result.answer ≡ false → SameExtents store.old store.new }
{
    match rule {
        Rule::GetRead | Rule::GetAppend | Rule::GetExecute | Rule::GetWrite => {
            get(store, process, caller, rule)
        }
        Rule::Release => release(store, process, caller),
        Rule::Give => give(store, process, caller),
        Rule::Rescind => rescind(store, process, caller),
        Rule::Create => create(store, core, process, caller),
        Rule::DeleteGroup => delete_group(store, process, caller),
        Rule::RaiseLevel => raise_level(store, process, caller),
    }
}

// A call of another service.
fn serve(
    store: &mut Store,
    core: &mut Core,
    process: &mut Process,
    caller: &Caller,
    service: Service,
) -> Reply
    requires { IsCaller caller.now store.old }
    ensures made { IsMade store.old store.new core.old.words core.new.words process.new result (made_by caller.now store.old core.old.words process.old (Call.Other service)) }
    ensures extents { SameExtents store.old store.new }
{
    match service {
        Service::Window => window(store, process, caller),
        Service::Unwindow => unwindow(process),
        Service::Deposit => deposit(store, core, process, caller),
        Service::Send => send(store, process, caller),
        Service::Receive => receive(store, process, caller),
        Service::LineOut => line_out(store, process, caller),
        Service::LineIn => line_in(store, process, caller),
        Service::Entry => entry(store, process, caller),
        Service::Identify => identify(process, caller),
        Service::Quota => quota(store, process, caller),
        Service::Pause => pause(process),
        Service::SetFaultEntry => set_fault_entry(process),
        Service::Stop => stop(process),
    }
}
