// One instruction of the process that is loaded.

ghost use Rattle.std.specs.Prelude.{◌≡◌, ◌<◌, IsNone, None, Some};
ghost use Rattle.bk_object.specs.Rows.{most_subjects};
ghost use Rattle.bk_space.specs.AddrSpace.{applied};
ghost use Rattle.bk_space.specs.Counts.{counted_on};
ghost use Rattle.bk_state.specs.State.{State};
ghost use Rattle.bk_exec.specs.Exec.{exec};
ghost use Rattle.bk_store.specs.Stands.{StandsFor};
ghost use Rattle.bk_system.specs.Space.{space_of};
ghost use Rattle.bk_system.specs.Turn.{written};
ghost use Rattle.bk_machine.specs.Machine.{instruction_of, other_words, written_of};
ghost use Rattle.bk_machine.specs.Vectors.{HasVectors};
ghost use Rattle.bk_pages.specs.StandsFor.{IsLoaded, kept_in};

use crate::windows::law_windows;
use bk_exec::Event;
use bk_machine::Machine;
use bk_process::Process;
use bk_store::Store;

// One instruction of the machine; kernel mode, where a trap has entered it, is left at once.
#[inline(always)]
fn run_and_leave(machine: &mut Machine) -> Event
    requires { IsNone machine.old.kernel }
    ensures event { result ≡ (instruction_of machine.old).outcome }
    ensures process { machine.new.process ≡ (instruction_of machine.old).regs }
    ensures references { machine.new.references ≡ counted_on machine.old.references (instruction_of machine.old).references }
    ensures pages { machine.new.pages.registers ≡ machine.old.pages.registers }
    ensures outside { machine.new.kernel ≡ None }
    ensures vectors { HasVectors machine.old.core.words → HasVectors machine.new.core.words }
    ensures others { other_words machine.new.core.words ≡ other_words (written_of machine.old).words }
    ensures runs { machine.new.runs ≡ counted_on machine.old.runs 1 }
    ensures last { machine.new.last ≡ Some (record { before = machine.old.process; after = machine.new.process; event = result }) }
{
    let event = machine.run_one();
    if !matches!(event, Event::Ran) {
        machine.leave();
    }
    event
}

/// One instruction of the loaded subject, by the registers that the machine has and through the windows of the process. Of each
/// state that store and core stand for, it leaves the registers, the event, the references and the write of the defined
/// instruction; kernel mode, entered by a trap, is left at once, so that the subject is still loaded.
#[inline(always)]
pub fn run(machine: &mut Machine, store: &Store, subject: u8, process: &Process) -> Event
    requires subject { subject < most_subjects }
    requires loaded { IsLoaded machine.old store.now subject (kept_in machine.old process.now) }
    ensures event { (v : State) → StandsFor store.now machine.old.core.words v →
        result ≡ (exec (space_of v subject process.now.windows) machine.old.process).outcome }
    ensures registers { (v : State) → StandsFor store.now machine.old.core.words v →
        machine.new.process ≡ (exec (space_of v subject process.now.windows) machine.old.process).regs }
    ensures references { (v : State) → StandsFor store.now machine.old.core.words v →
        machine.new.references ≡ counted_on machine.old.references (exec (space_of v subject process.now.windows) machine.old.process).references }
    ensures state { (v : State) → StandsFor store.now machine.old.core.words v →
        StandsFor store.now machine.new.core.words (applied (written process.now.windows) v
        (exec (space_of v subject process.now.windows) machine.old.process).write) }
    ensures loaded { IsLoaded machine.new store.now subject (kept_in machine.new process.now) }
    ensures runs { machine.new.runs ≡ counted_on machine.old.runs 1 }
    ensures last { machine.new.last ≡ Some (record { before = machine.old.process; after = machine.new.process; event = result }) }
{
    store.law_contents();
    law_windows(&process.windows);
    run_and_leave(machine)
}
