// The loaded subject on the machine: its instructions, its calls and its faults.

ghost use Rattle.std.specs.Prelude.{◌≡◌, ◌<◌, ◌≤◌, ℕ, Some, length, option_map, slice_index, slice_set, false, ◌↔◌, if◌then◌else◌};
ghost use Rattle.bk_object.specs.Rows.{most_subjects};
ghost use Rattle.bk_space.specs.Counts.{counted_on};
ghost use Rattle.bk_exec.specs.declared.event.Event.TheVariants.{Ran};
ghost use Rattle.bk_process.specs.declared.process.Process.{Process};
ghost use Rattle.bk_state.specs.State.{State, process_of};
ghost use Rattle.bk_state.specs.Answers.{called};
ghost use Rattle.bk_store.specs.Stands.{StandsFor};
ghost use Rattle.bk_calls.specs.Made.{answer_of, line_byte};
ghost use Rattle.bk_system.specs.Turn.{fault_number, is_reflected};
ghost use Rattle.bk_pages.specs.Pages.{pages_for};
ghost use Rattle.bk_pages.specs.StandsFor.{IsLoaded, kept_in};
ghost use Rattle.bk_kernel.specs.Instructions.{HasRun, WentOn};
ghost use Rattle.bk_kernel.specs.Tables.{interrupted, risen, served, RanNothing};

use crate::tables::Tables;
use bk_calls::{Caller, Reply, call, changes_pages};
use bk_exec::Event;
use bk_machine::{Machine, law_vectors};
use bk_pages::{Faulted, fault, run, set_pages};
use bk_process::Process;
use bk_space::Cause;
use bk_state::Clearance;
use bk_store::Store;

/// Instructions that have run: how many, and how the last of them ended. All others ended as ran.
#[derive(Clone, Copy)]
pub(crate) struct Running {
    pub(crate) turns: u16,
    pub(crate) event: Event,
}

// Whether an instruction ended as a call or a fault.
#[inline(always)]
fn traps(event: Event) -> bool
    ensures { (result ≡ false) ↔ (event ≡ Ran) }
{
    !matches!(event, Event::Ran)
}

// Instructions of the loaded subject, through the windows of the process: at most so many, up to the first that ends as a call or
// a fault. The registers stay in the machine.
fn run_on(
    machine: &mut Machine,
    store: &Store,
    subject: u8,
    process: &Process,
    most: u16,
) -> Running
    requires subject { subject < most_subjects }
    requires some { 1 ≤ most }
    requires loaded { IsLoaded machine.old store.now subject (kept_in machine.old process.now) }
    ensures went { (v : State) → StandsFor store.now machine.old.core.words v → WentOn store.now machine.old machine.new v subject process.now.windows result.turns result.event }
    ensures some { 1 ≤ result.turns }
    ensures few { result.turns ≤ most }
    ensures runs { machine.new.runs ≡ counted_on machine.old.runs result.turns }
    ensures loaded { IsLoaded machine.new store.now subject (kept_in machine.new process.now) }
{
    let mut turns = 0;
    loop {
        let event = run(machine, store, subject, process);
        turns += 1;
        if turns == most || traps(event) {
            return Running { turns, event };
        }
    }
}

// The process gets the registers that the machine has.
fn save(machine: &Machine, process: &mut Process)
    ensures { process.new ≡ kept_in machine.now process.old }
{
    process.registers = machine.process_regs();
}

// Sets the pages of the subject, where what they show may have changed since they were set.
fn set_changed(machine: &mut Machine, store: &Store, subject: u8, process: &Process, changed: bool)
    requires subject { subject < most_subjects }
    requires kept { changed ≡ false → machine.old.pages.registers ≡ pages_for store.now subject process.now.windows }
    ensures pages { machine.new.pages.registers ≡ pages_for store.now subject process.now.windows }
    ensures rest { machine.new ≡ record machine.old { pages = machine.new.pages } }
{
    if changed {
        set_pages(machine, store, subject, &process.windows);
    }
}

// The levels of a subject with these that rises to that one, if it rises.
fn risen(levels: Clearance, level: Option<u8>) -> Clearance
    ensures { result ≡ risen level levels }
{
    Clearance {
        current: level.unwrap_or(levels.current),
        ..levels
    }
}

// The subject has these levels.
fn set_levels(clearances: &mut Vec<Clearance>, subject: u8, levels: Clearance)
    requires { subject < length clearances.old.items }
    ensures { clearances.new.items ≡ slice_set clearances.old.items subject levels }
{
    clearances[subject as usize] = levels;
}

impl Tables {
    /// The subject is loaded, if another one was. No instruction runs.
    pub(crate) fn load(&mut self, subject: u8)
        requires { subject < length self.old.state.processes }
        ensures state { self.new.state ≡ self.old.state }
        ensures loaded { self.new.loaded ≡ subject }
        ensures nothing { RanNothing self.old.machine self.new.machine }
    {
        if self.loaded != subject {
            let next = &self.processes[subject as usize];
            self.machine.set_process(&next.registers);
            set_pages(&mut self.machine, &self.store, subject, &next.windows);
            self.loaded = subject;
        }
    }

    /// Instructions of the loaded subject, at most so many, up to the first that ends as a call or a fault.
    pub(crate) fn run(&mut self, most: u16) -> Running
        requires { 1 ≤ most }
        ensures ran { (p : Process) → process_of self.old.state self.old.loaded ≡ Some p → HasRun self.old self.new p result.turns result.event }
        ensures some { 1 ≤ result.turns }
        ensures few { result.turns ≤ most }
        ensures runs { self.new.machine.runs ≡ counted_on self.old.machine.runs result.turns }
        ensures loaded { self.new.loaded ≡ self.old.loaded }
    {
        let process = &mut self.processes[self.loaded as usize];
        let ran = run_on(&mut self.machine, &self.store, self.loaded, process, most);
        save(&self.machine, process);
        ran
    }

    /// R0 to R5 of the loaded subject's process.
    pub(crate) fn general(&self) -> [u16; 6]
        ensures value { (p : Process) → process_of self.now.state self.now.loaded ≡ Some p → result ≡ p.registers.general }
        ensures there { self.now.loaded < length self.now.state.processes }
    {
        self.processes[self.loaded as usize].registers.general
    }

    /// A kernel call of the loaded subject, by the registers of its process. A level that it rises to is its current one from
    /// now on; its pages are set anew where the call may have changed what one of them shows.
    pub(crate) fn call(&mut self, number: u8) -> Reply
        ensures state { (p : Process) → process_of self.old.state self.old.loaded ≡ Some p → self.new.state ≡ served self.old.state self.old.loaded (called self.old.state self.old.loaded p number) }
        ensures answer { (p : Process) → process_of self.old.state self.old.loaded ≡ Some p → result.answer ≡ answer_of (called self.old.state self.old.loaded p number).cause }
        ensures sent { (p : Process) → process_of self.old.state self.old.loaded ≡ Some p → result.sent ≡ option_map line_byte (called self.old.state self.old.loaded p number).sent }
        ensures loaded { self.new.loaded ≡ self.old.loaded }
        ensures nothing { RanNothing self.old.machine self.new.machine }
    {
        let subject = self.loaded;
        let levels = self.clearances[subject as usize];
        let caller = Caller {
            subject,
            f_s: levels.greatest,
            f_c: levels.current,
            subjects: self.clearances.len() as u8,
        };
        let process = &mut self.processes[subject as usize];
        let core = self.machine.core_mut();
        let reply = call(&mut self.store, core, process, &caller, number);
        set_levels(&mut self.clearances, subject, risen(levels, reply.level));
        law_vectors();
        self.machine.set_process(&process.registers);
        let changed = changes_pages(number, reply.answer);
        set_changed(&mut self.machine, &self.store, subject, process, changed);
        reply
    }

    /// A fault of the loaded subject, which its process takes at its entry, or which stops it.
    pub(crate) fn fault(&mut self, cause: Cause) -> Faulted
        ensures number { result.number ≡ fault_number cause }
        ensures pc { (p : Process) → process_of self.old.state self.old.loaded ≡ Some p → result.pc ≡ p.registers.pc }
        ensures taken { (p : Process) → process_of self.old.state self.old.loaded ≡ Some p → result.taken ≡ is_reflected self.old.state self.old.loaded p (slice_index p.entries (fault_number cause)) }
        ensures state { (p : Process) → process_of self.old.state self.old.loaded ≡ Some p → self.new.state ≡ interrupted self.old.state self.old.loaded p (fault_number cause) (slice_index p.entries (fault_number cause)) result.taken }
        ensures references { self.new.machine.references ≡ counted_on self.old.machine.references (if result.taken then 2 else 0) }
        ensures loaded { self.new.loaded ≡ self.old.loaded }
        ensures runs { self.new.machine.runs ≡ self.old.machine.runs }
        ensures last { self.new.machine.last ≡ self.old.machine.last }
    {
        let process = &mut self.processes[self.loaded as usize];
        fault(&mut self.machine, &self.store, self.loaded, process, cause)
    }
}
