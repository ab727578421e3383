// Turns of a subject.

ghost use Rattle.std.specs.Prelude.{◌≡◌, ◌≤◌, ◌+◌, ℕ, All, Option, Some, option_map, option_to_list, true};
ghost use Rattle.bk_space.specs.Counts.{counted_on};
ghost use Rattle.bk_process.specs.declared.process.Process.{Process};
ghost use Rattle.bk_exec.specs.declared.event.Event.TheVariants.{Fault as Faults};
ghost use Rattle.bk_report.specs.Text.{IsAnswered};
ghost use Rattle.bk_report.specs.declared.item.ReportItem.TheVariants.{Call, Fault};
ghost use Rattle.bk_state.specs.State.{process_of};
ghost use Rattle.bk_state.specs.Answers.{called};
ghost use Rattle.bk_state.specs.Causes.{answer_in, cause_in};
ghost use Rattle.bk_state.specs.declared.cause.CallCause.{CallCause};
ghost use Rattle.bk_calls.specs.Made.{answer_of, line_byte};
ghost use Rattle.bk_system.specs.Turn.{byte_item, settled, ended};
ghost use Rattle.bk_kernel.specs.Items.{items_of, IsInOrder};
ghost use Rattle.bk_kernel.specs.Stretch.{IsStretch};
ghost use Rattle.bk_kernel.specs.Tables.{runs, RanNothing};

use crate::tables::Tables;
use bk_calls::{Answer, LineByte};
use bk_exec::Event;
use bk_pages::Faulted;
use bk_report::ReportItem;
use bk_space::Cause;
use bk_system::At;

/// The items of a turn, at most two, in their order.
pub(crate) type Items = (Option<ReportItem>, Option<ReportItem>);

/// Turns that were made, of which all but the last gave no item: how many, and the items of the last.
#[derive(Clone, Copy)]
pub(crate) struct Stretch {
    pub(crate) turns: u16,
    pub(crate) items: Items,
}

// The item of a call that found these registers.
fn call_item(at: At, number: u8, regs: [u16; 6], answer: Answer) -> ReportItem
    ensures item { (cause : Option CallCause) → answer ≡ answer_of cause → result ≡ Call at.slot at.turn at.subject number regs (answer_in cause) (cause_in cause) }
    ensures answered { (cause : Option CallCause) → answer ≡ answer_of cause → IsAnswered result }
{
    let (answer, cause) = match answer {
        Answer::Yes => (0, 0),
        Answer::No(cause) => (1, cause),
        Answer::Unknown(cause) => (2, cause),
    };
    ReportItem::Call {
        slot: at.slot,
        turn: at.turn,
        subject: at.subject,
        number,
        regs,
        answer,
        cause,
    }
}

// The item of a byte that went out on a line.
fn byte_item(at: At, sent: Option<LineByte>) -> Option<ReportItem>
    ensures item { (x : Option (ℕ × ℕ)) → sent ≡ option_map line_byte x → option_to_list result ≡ byte_item at x }
    ensures answered { All IsAnswered (option_to_list result) }
{
    match sent {
        None => None,
        Some(sent) => Some(ReportItem::Byte {
            slot: at.slot,
            turn: at.turn,
            line: sent.line,
            byte: sent.byte,
        }),
    }
}

// The item of a fault.
fn fault_item(at: At, fault: Faulted) -> ReportItem
    ensures item { result ≡ Fault at.slot at.turn at.subject fault.number fault.pc fault.taken }
    ensures answered { IsAnswered result }
{
    ReportItem::Fault {
        slot: at.slot,
        turn: at.turn,
        subject: at.subject,
        cause: fault.number,
        pc: fault.pc,
        entered: fault.taken,
    }
}

impl Tables {
    // A call: its item, and the byte that goes out.
    fn settle(&mut self, at: At, number: u8) -> Items
        requires { at.subject ≡ self.old.loaded }
        ensures state { (p : Process) → process_of self.old.state at.subject ≡ Some p → self.new.state ≡ (settled self.old.state at p number 0 (called self.old.state at.subject p number)).state }
        ensures items { (p : Process) → process_of self.old.state at.subject ≡ Some p → items_of result ≡ (settled self.old.state at p number 0 (called self.old.state at.subject p number)).items }
        ensures order { IsInOrder result }
        ensures answered { All IsAnswered (items_of result) }
        ensures loaded { self.new.loaded ≡ self.old.loaded }
        ensures nothing { RanNothing self.old.machine self.new.machine }
    {
        let found = self.general();
        let reply = self.call(number);
        let item = call_item(at, number, found, reply.answer);
        let sent = byte_item(at, reply.sent);
        (Some(item), sent)
    }

    // A fault, which the process takes at its entry with two references, or which stops it.
    fn end_in(&mut self, at: At, cause: Cause) -> Items
        requires { at.subject ≡ self.old.loaded }
        ensures state { (p : Process) → process_of self.old.state at.subject ≡ Some p → self.new.state ≡ (ended self.old.state at p 0 (Faults cause)).state }
        ensures items { (p : Process) → process_of self.old.state at.subject ≡ Some p → items_of result ≡ (ended self.old.state at p 0 (Faults cause)).items }
        ensures references { (p : Process) → process_of self.old.state at.subject ≡ Some p → self.new.machine.references ≡ counted_on self.old.machine.references (ended self.old.state at p 0 (Faults cause)).references }
        ensures order { IsInOrder result }
        ensures answered { All IsAnswered (items_of result) }
        ensures loaded { self.new.loaded ≡ self.old.loaded }
        ensures runs { self.new.machine.runs ≡ self.old.machine.runs }
        ensures last { self.new.machine.last ≡ self.old.machine.last }
    {
        let fault = self.fault(cause);
        (Some(fault_item(at, fault)), None)
    }

    // What an instruction that ended so does.
    fn end(&mut self, at: At, event: Event) -> Items
        requires { at.subject ≡ self.old.loaded }
        ensures state { (p : Process) → process_of self.old.state at.subject ≡ Some p → self.new.state ≡ (ended self.old.state at p 0 event).state }
        ensures items { (p : Process) → process_of self.old.state at.subject ≡ Some p → items_of result ≡ (ended self.old.state at p 0 event).items }
        ensures references { (p : Process) → process_of self.old.state at.subject ≡ Some p → self.new.machine.references ≡ counted_on self.old.machine.references (ended self.old.state at p 0 event).references }
        ensures order { IsInOrder result }
        ensures answered { All IsAnswered (items_of result) }
        ensures runs { self.new.machine.runs ≡ self.old.machine.runs }
        ensures last { self.new.machine.last ≡ self.old.machine.last }
    {
        match event {
            Event::Ran => (None, None),
            Event::Call(number) => self.settle(at, number),
            Event::Fault(cause) => self.end_in(at, cause),
        }
    }

    // Turns of the loaded subject, whose process runs.
    fn go_on(&mut self, at: At, most: u16) -> Stretch
        requires loaded { at.subject ≡ self.old.loaded }
        requires running { runs (process_of self.old.state at.subject) ≡ true }
        requires some { 1 ≤ most }
        requires numbered { at.turn + most ≤ 65536 }
        ensures made { IsStretch self.old self.new at most result.turns result.items }
        ensures order { IsInOrder result.items }
        ensures answered { All IsAnswered (items_of result.items) }
    {
        let ran = self.run(most);
        let last = At {
            turn: at.turn + (ran.turns - 1),
            ..at
        };
        Stretch {
            turns: ran.turns,
            items: self.end(last, ran.event),
        }
    }

    /// Turns of a subject, from that one on: at least one and at most so many, up to the first that gives items.
    pub(crate) fn stretch(&mut self, at: At, most: u16) -> Stretch
        requires some { 1 ≤ most }
        requires numbered { at.turn + most ≤ 65536 }
        ensures made { IsStretch self.old self.new at most result.turns result.items }
        ensures order { IsInOrder result.items }
        ensures answered { All IsAnswered (items_of result.items) }
    {
        if self.runs(at.subject) {
            self.load(at.subject);
            self.go_on(at, most)
        } else {
            Stretch {
                turns: most,
                items: (None, None),
            }
        }
    }
}
