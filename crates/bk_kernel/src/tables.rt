// What the kernel keeps: what is fixed, the store, the processes, and the machine.

ghost use Rattle.std.specs.Prelude.{◌≡◌, [], ◌∷◌, Some, length, map, option_map};
ghost use Rattle.bk_process.specs.declared.process.Process.{Process};
ghost use Rattle.bk_space.specs.declared.address.TheConstants.{PAGES as pages};
ghost use Rattle.bk_machine.specs.Machine.{bus_of};
ghost use Rattle.bk_machine.specs.Paged.{shown_in};
ghost use Rattle.bk_state.specs.State.{process_of};
ghost use Rattle.bk_store.specs.Stored.{Stored};
ghost use Rattle.bk_system.specs.Arrivals.{arrived};
ghost use Rattle.bk_system.specs.Event.{slot_ended, with_resumed};
ghost use Rattle.bk_system.specs.Loops.{all_arrived};
ghost use Rattle.bk_system.specs.Slot.{subject_of};
ghost use Rattle.bk_system.specs.Space.{space_of};
ghost use Rattle.bk_kernel.specs.StandsFor.{StandsFor};
ghost use Rattle.bk_kernel.specs.Tables.{runs};

use bk_machine::Machine;
use bk_pages::law_space;
use bk_path::Path;
use bk_process::{Process, Status9, WINDOWS};
use bk_state::Clearance;
use bk_store::Store;
use bk_system::TypedAt;
use std::marker::Model;

/// The state of the system: the store; of each subject, 0 to 63, the numbers of its levels and its process; of each line the
/// number of its level; and the machine, with core, in which the process of one subject is loaded.
#[derive(Drop)]
pub(crate) struct Tables {
    pub(crate) clearances: Vec<Clearance>,
    pub(crate) lines: Vec<u8>,
    pub(crate) turns: u16,
    pub(crate) schedule: Vec<u8>,
    pub(crate) processes: Vec<Process>,
    pub(crate) store: Store,
    pub(crate) machine: Machine,
    pub(crate) loaded: u8,
}

impl Model for Tables {
    ghost use Rattle.bk_kernel.specs.Tables.{TablesState};

    ghost Value = { TablesState };

    ghost use Rattle.std.specs.Coded.{codes};
    ghost use Rattle.std.specs.FinMap as map;
    ghost use Rattle.std.specs.FinSet as set;

    ghost coded = { Prim.hlevel (codes, map.code, set.code) };

    ghost use Rattle.bk_kernel.specs.Tables.{tables_kept, AreKept};

    ghost view = { tables_kept };

    ghost invariant = { AreKept };
}

impl Tables {
    /// The turns of a slot.
    pub(crate) fn turns(&self) -> u16
        ensures { result ≡ self.now.state.fixed.turns }
    {
        self.turns
    }

    /// The subject whose slot it is.
    pub(crate) fn subject_of(&self, slot: u32) -> u8
        ensures { result ≡ subject_of self.now.state.fixed slot }
    {
        let places = self.schedule.len();
        if places == 0 {
            0
        } else {
            self.schedule[slot as usize % places]
        }
    }

    /// The status of the subject's process: None where there is no such subject.
    pub(crate) fn status(&self, subject: u8) -> Option<Status9>
        ensures { result ≡ option_map (λ process. process.status) (process_of self.now.state subject) }
    {
        self.processes
            .get(subject as usize)
            .map(|process| process.status)
    }

    /// How many references the machine has made.
    pub(crate) fn references(&self) -> u64
        ensures { result ≡ self.now.machine.references }
    {
        self.machine.references()
    }

    /// The machine.
    pub(crate) fn machine(&self) -> &Machine
        ensures { result.now ≡ self.now.machine }
    {
        &self.machine
    }

    /// Store and machine stand for the state, and the pages show what the loaded subject sees.
    pub(crate) fn law_stands_for(&self)
        ensures stands { (store : Stored) × StandsFor store self.now.machine self.now.loaded self.now.state }
        ensures space { (p : Process) → process_of self.now.state self.now.loaded ≡ Some p → shown_in (bus_of self.now.machine) ≡ space_of self.now.state self.now.loaded p.windows }
    {
        self.store.law_contents();
        law_space(&self.store);
        law_windows(&self.processes[self.loaded as usize].windows);
    }

    /// Whether there is such a subject, and its process runs.
    pub(crate) fn runs(&self, subject: u8) -> bool
        ensures { result ≡ runs (process_of self.now.state subject) }
    {
        match self.processes.get(subject as usize) {
            Some(process) => process.status == Status9::Running,
            None => false,
        }
    }
}

// There is a window for each page.
fn law_windows(windows: &[Option<Path>; WINDOWS as usize])
    ensures { length windows.now ≡ pages }
{
    let _windows = windows.len();
}

fn resume(process: &mut Process)
    ensures { process.new ≡ with_resumed process.old }
{
    if process.status == Status9::Paused {
        process.status = Status9::Running;
    }
}

fn resume_all(processes: &mut [Process])
    ensures { processes.new ≡ map with_resumed processes.old }
{
    for process in processes.iter_mut() {
        resume(process);
    }
}

impl Tables {
    /// A byte arrives on a line.
    #[tactic(auto, unfolding(bk_system::specs::Arrivals::arrived))]
    fn type_byte(&mut self, line: u8, byte: u8)
        ensures state { self.new.state ≡ arrived self.old.state line (byte ∷ []) }
        ensures rest { (self.new.machine ≡ self.old.machine) × (self.new.loaded ≡ self.old.loaded) }
    {
        self.store.type_byte(line, byte);
    }

    /// Bytes arrive on a line, in order.
    fn type_bytes(&mut self, line: u8, bytes: &[u8])
        ensures state { self.new.state ≡ arrived self.old.state line bytes.now }
        ensures rest { (self.new.machine ≡ self.old.machine) × (self.new.loaded ≡ self.old.loaded) }
    {
        for byte in bytes {
            self.type_byte(line, *byte);
        }
    }

    /// The bytes of records arrive on their lines, in order.
    pub(crate) fn type_records(&mut self, typed: &[TypedAt])
        ensures state { self.new.state ≡ all_arrived self.old.state typed.now }
        ensures rest { (self.new.machine ≡ self.old.machine) × (self.new.loaded ≡ self.old.loaded) }
    {
        for record in typed {
            self.type_bytes(record.line, record.bytes.as_slice());
        }
    }

    /// A slot ends: each paused process runs again.
    #[tactic(auto, unfolding(bk_system::specs::Event::slot_ended))]
    pub(crate) fn end_slot(&mut self)
        ensures state { self.new.state ≡ slot_ended self.old.state }
        ensures rest { (self.new.machine ≡ self.old.machine) × (self.new.loaded ≡ self.old.loaded) }
    {
        resume_all(&mut self.processes);
    }
}
