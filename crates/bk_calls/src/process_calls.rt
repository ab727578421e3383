// The calls by which a process changes itself alone.

ghost use Rattle.bk_calls.specs.Made.{IsMadeAlone};

use crate::answering::{agree, refuse};
use crate::reply::Reply;
use bk_process::{FAULT_ENTRIES, Process, Status9};
use bk_state::{Call, CallCause, Service};

// The process does nothing until its next slot.
#[tactic(auto, unfolding(bk_state::specs::Calls::call_refusal, bk_state::specs::Answers::outcome, bk_state::specs::Answers::reply))]
pub(crate) fn pause(process: &mut Process) -> Reply
    ensures { IsMadeAlone process.old process.new result (Call.Other Service.Pause) }
{
    process.set_status(Status9::Paused);
    agree(process, &[0, 0])
}

// The process takes the fault in R3 at the address in R4.
#[tactic(auto, unfolding(bk_state::specs::Calls::call_refusal, bk_state::specs::Answers::outcome, bk_state::specs::Answers::reply))]
pub(crate) fn set_fault_entry(process: &mut Process) -> Reply
    ensures { IsMadeAlone process.old process.new result (Call.Other Service.SetFaultEntry) }
{
    let fault = process.registers.general[3];
    let addr = process.registers.general[4];
    if fault >= u16::from(FAULT_ENTRIES) || addr % 2 == 1 {
        return refuse(process, CallCause::BadArgument);
    }
    process.set_fault_entry(fault as u8, addr);
    agree(process, &[0, 0])
}

// The process never runs again.
#[tactic(auto, unfolding(bk_state::specs::Calls::call_refusal, bk_state::specs::Answers::outcome, bk_state::specs::Answers::reply))]
pub(crate) fn stop(process: &mut Process) -> Reply
    ensures { IsMadeAlone process.old process.new result (Call.Other Service.Stop) }
{
    process.set_status(Status9::Stopped(8));
    agree(process, &[0, 0])
}
