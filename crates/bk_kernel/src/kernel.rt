// The kernel: the state of the system, and the counts of what has been done.

ghost use Rattle.std.specs.Prelude.{◌≡◌, OnOk, OnErr, All, option_to_list};
ghost use Rattle.bk_base.specs.Written.{Took, Broke};
ghost use Rattle.bk_report.specs.Text.{IsAnswered, lines_of};
ghost use Rattle.std.specs.Prelude.{◌≤◌, ◌<◌, ◌+◌, length, slice_get, IfSome, Some};
ghost use Rattle.bk_machine.specs.Machine.{bus_of};
ghost use Rattle.bk_machine.specs.Paged.{shown_in};
ghost use Rattle.bk_process.specs.declared.process.Process.{Process};
ghost use Rattle.bk_state.specs.State.{process_of};
ghost use Rattle.bk_store.specs.Stored.{Stored};
ghost use Rattle.bk_system.specs.Slot.{subject_of};
ghost use Rattle.bk_system.specs.Report.{calls_in};
ghost use Rattle.bk_system.specs.Space.{space_of};
ghost use Rattle.bk_space.specs.Counts.{counted_on};
ghost use Rattle.bk_kernel.specs.Items.{items_of, IsInOrder};
ghost use Rattle.bk_kernel.specs.Progress.{next_turn, after_turn, after_end, next_slot, after_slot, with_arrived, with_turns, IsCutOff};
ghost use Rattle.bk_kernel.specs.StandsFor.{StandsFor};
ghost use Rattle.bk_kernel.specs.Stretch.{at_next, turns_from, HasStretched};
ghost use Rattle.bk_kernel.specs.Tables.{last_after, runs_after};

use crate::tables::Tables;
use crate::turn::{Items, Stretch};
use bk_base::{Failed, Sink};
use bk_machine::Machine;
use bk_process::Status9;
use bk_report::{ReportItem, write_line};
use bk_system::{At, TypedAt};
use std::marker::Model;

/// The totals since boot: the slots that have ended, the turns made, the references, and the calls.
#[derive(Clone, Copy, PartialEq, Eq, Debug)]
pub struct Summary {
    pub slots: u32,
    pub turns: u32,
    pub references: u64,
    pub calls: u32,
}

/// A kernel, seen as the state of the system with the totals so far, and the machine, in which the process of one subject is
/// loaded.
#[derive(Drop)]
pub struct Kernel {
    pub(crate) tables: Tables,
    pub(crate) slots: u32,
    pub(crate) since: u16,
    pub(crate) turns: u32,
    pub(crate) calls: u32,
}

impl Model for Kernel {
    ghost use Rattle.bk_kernel.specs.Progress.{KernelState};

    ghost Value = { KernelState };

    ghost use Rattle.std.specs.Coded.{codes};
    ghost use Rattle.std.specs.FinMap as map;
    ghost use Rattle.std.specs.FinSet as set;

    ghost coded = { Prim.hlevel (codes, map.code, set.code) };

    ghost use Rattle.bk_kernel.specs.Progress.{kernel_from};

    ghost view = { λ k. kernel_from k.tables k.slots k.since k.turns k.calls };
}

fn call_count(item: &Option<ReportItem>) -> u32
    ensures value { result ≡ calls_in (option_to_list item.now) }
    ensures small { result ≤ 1 }
{
    match item {
        Some(ReportItem::Call { .. }) => 1,
        _ => 0,
    }
}

fn calls_in(items: &Items) -> u32
    ensures { result ≡ calls_in (items_of items.now) }
{
    call_count(&items.0) + call_count(&items.1)
}

/// Writes the line of an item.
fn write_item<O: Sink>(out: &mut O, item: &Option<ReportItem>) -> Result<(), Failed>
    requires { All IsAnswered (option_to_list item.now) }
    ensures written { OnOk result (Took (O.taken out.old) (O.taken out.new) (O.faults out.old) (O.faults out.new) (lines_of (option_to_list item.now))) }
    ensures failed { OnErr result (Broke (O.taken out.old) (O.taken out.new) (O.faults out.old) (O.faults out.new) (lines_of (option_to_list item.now))) }
{
    match item {
        None => Ok(()),
        Some(item) => write_line(out, item),
    }
}

/// Writes the lines of a turn.
fn write_items<O: Sink>(out: &mut O, items: &Items) -> Result<(), Failed>
    requires { All IsAnswered (items_of items.now) }
    ensures written { OnOk result (Took (O.taken out.old) (O.taken out.new) (O.faults out.old) (O.faults out.new) (lines_of (items_of items.now))) }
    ensures failed { OnErr result (Broke (O.taken out.old) (O.taken out.new) (O.faults out.old) (O.faults out.new) (lines_of (items_of items.now))) }
{
    write_item(out, &items.0)?;
    write_item(out, &items.1)
}

impl Kernel {
    // The number of the next turn.
    fn number(&self) -> u16
        ensures { result ≡ self.now.progress.since }
    {
        self.since
    }

    // The turns that come next, which are the subject's: at least one and at most so many, up to the first that gives items.
    fn stretch(&mut self, subject: u8, most: u16) -> Stretch
        requires some { 1 ≤ most }
        requires numbered { self.old.progress.since + most ≤ 65536 }
        ensures made { HasStretched self.old self.new subject most result.turns result.items }
        ensures after { self.new.progress ≡ with_turns self.old.progress (turns_from (at_next self.old.progress subject) self.old.progress.state result.turns) result.turns }
        ensures order { IsInOrder result.items }
        ensures answered { All IsAnswered (items_of result.items) }
    {
        let at = At {
            slot: self.slots,
            turn: self.since,
            subject,
        };
        // The count of references is below 2^64, so that it rises as the sum over a run does.
        let _references = self.tables.references();
        let made = self.tables.stretch(at, most);
        self.since = self.since.saturating_add(made.turns);
        self.turns = self.turns.saturating_add(u32::from(made.turns));
        self.calls = self.calls.saturating_add(calls_in(&made.items));
        made
    }

    /// The next turn, which is the subject's: a turn of a paused or stopped process, or of no subject, does nothing. Where the
    /// process runs, the machine runs one instruction of it, and tells that.
    #[tactic(auto, unfolding(crate::specs::Progress::after_turn))]
    pub fn turn(&mut self, subject: u8) -> (Option<ReportItem>, Option<ReportItem>)
        ensures after { self.new.progress ≡ after_turn self.old.progress subject }
        ensures items { items_of result ≡ (next_turn self.old.progress subject).items }
        ensures first { result.0 ≡ slice_get (next_turn self.old.progress subject).items 0 }
        ensures second { result.1 ≡ slice_get (next_turn self.old.progress subject).items 1 }
        ensures answered { All IsAnswered (items_of result) }
        ensures references { self.new.machine.references ≡ counted_on self.old.machine.references (next_turn self.old.progress subject).references }
        ensures runs { self.new.machine.runs ≡ runs_after self.old.progress.state subject self.old.machine.runs }
        ensures last { self.new.machine.last ≡ last_after self.old.progress.state subject self.old.machine.last }
    {
        // The number of a turn is below 65,536, so that one more can be numbered.
        let _number = self.number();
        self.stretch(subject, 1).items
    }

    /// The slot ends: each paused process runs again, and the turns are numbered from 0.
    #[tactic(auto, unfolding(crate::specs::Progress::after_end))]
    pub fn end_slot(&mut self)
        ensures after { self.new.progress ≡ after_end self.old.progress }
        ensures machine { self.new.machine ≡ self.old.machine }
    {
        self.tables.end_slot();
        self.slots = self.slots.saturating_add(1);
        self.since = 0;
    }

    fn arrive(&mut self, typed: &[TypedAt])
        ensures { self.new.progress ≡ with_arrived self.old.progress typed.now }
    {
        self.tables.type_records(typed);
    }

    fn subject(&self) -> u8
        ensures { result ≡ subject_of self.now.progress.state.fixed self.now.progress.slots }
    {
        self.tables.subject_of(self.slots)
    }

    fn turns_of_slot(&self) -> u16
        ensures { result ≡ self.now.progress.state.fixed.turns }
    {
        self.tables.turns()
    }

    /// The next slot: the records typed for it arrive, its subject has its turns, and the lines of their items go out as
    /// they arise. Where a write fails, the turn of that line has been made, no further turn is made, and the slot hasn't
    /// ended.
    pub fn slot<O: Sink>(&mut self, typed: &[TypedAt], out: &mut O) -> Result<(), Failed>
        requires { self.old.progress.since ≡ 0 }
        ensures after { OnOk result (self.new.progress ≡ after_slot self.old.progress typed.now) }
        ensures written { OnOk result (Took (O.taken out.old) (O.taken out.new) (O.faults out.old) (O.faults out.new) (lines_of (next_slot self.old.progress typed.now).items)) }
        ensures failed { OnErr result (Broke (O.taken out.old) (O.taken out.new) (O.faults out.old) (O.faults out.new) (lines_of (next_slot self.old.progress typed.now).items)) }
        ensures left { OnErr result (IsCutOff self.old.progress self.new.progress typed.now (O.taken out.old) (O.taken out.new)) }
    {
        let subject = self.subject();
        let turns = self.turns_of_slot();
        self.arrive(typed);
        let mut left = turns;
        while left > 0 {
            let made = self.stretch(subject, left);
            left -= made.turns;
            write_items(out, &made.items)?;
        }
        self.end_slot();
        Ok(())
    }

    /// The totals since boot.
    pub fn summary(&self) -> Summary
        ensures { result ≡ record { slots = self.now.progress.slots; turns = self.now.progress.turns; references = self.now.progress.references; calls = self.now.progress.calls } }
    {
        Summary {
            slots: self.slots,
            turns: self.turns,
            references: self.tables.references(),
            calls: self.calls,
        }
    }

    /// The machine.
    pub fn machine(&self) -> &Machine
        ensures { result.now ≡ self.now.machine }
    {
        self.tables.machine()
    }

    /// Between turns a store and the machine stand for the state of the system: facts, current access set, words and queues are
    /// the state's, the machine has the registers of the loaded subject's process, and its pages show the space of the subject.
    pub fn law_stands_for(&self)
        ensures stands { (store : Stored) × StandsFor store self.now.machine self.now.loaded self.now.progress.state }
        ensures space { (p : Process) → process_of self.now.progress.state self.now.loaded ≡ Some p → shown_in (bus_of self.now.machine) ≡ space_of self.now.progress.state self.now.loaded p.windows }
    {
        self.tables.law_stands_for();
    }

    /// Whether the subject's process runs.
    pub fn status(&self, subject: u8) -> Status9
        requires { subject < length self.now.progress.state.processes }
        ensures { IfSome (process_of self.now.progress.state subject) (λ process. result ≡ process.status) }
    {
        match self.tables.status(subject) {
            Some(found) => found,
            None => Status9::Running,
        }
    }
}
