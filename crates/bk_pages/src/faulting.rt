// How an instruction that ends as a fault goes on.

ghost use Rattle.std.specs.Prelude.{◌≡◌, ◌<◌, ◌≤◌, slice_index, if◌then◌else◌};
ghost use Rattle.bk_object.specs.Rows.{most_subjects};
ghost use Rattle.bk_space.specs.Counts.{counted_on};
ghost use Rattle.bk_process.specs.declared.status.Status9.TheVariants.{Stopped};
ghost use Rattle.bk_state.specs.State.{State};
ghost use Rattle.bk_store.specs.Stands.{StandsFor};
ghost use Rattle.bk_system.specs.Turn.{entered, fault_number, is_reflected, with_pushes};
ghost use Rattle.bk_pages.specs.StandsFor.{IsLoaded};

use crate::reflection::reflect;
use crate::windows::law_windows;
use bk_machine::Machine;
use bk_process::{Process, Status9};
use bk_space::Cause;
use bk_store::Store;

/// A fault: its number, 0 to 7, the program counter at it, whether its process took it at an entry of its own, and how many
/// references that made.
#[derive(Clone, Copy)]
pub struct Faulted {
    pub number: u8,
    pub pc: u16,
    pub taken: bool,
    pub references: u64,
}

// The number of a fault.
fn number_of(cause: Cause) -> u8
    ensures value { result ≡ fault_number cause }
    ensures small { result < 8 }
{
    match cause {
        Cause::Odd => 0,
        Cause::NonResident => 1,
        Cause::Length => 2,
        Cause::ReadOnly => 3,
        Cause::Reserved => 4,
        Cause::Break => 5,
        Cause::Iot => 6,
        Cause::Trap => 7,
    }
}

/// The loaded process, whose instruction ended as the fault, takes it at its entry, with two references, or stops with the
/// fault's number, with none. It has the registers of the machine before and after.
pub fn fault(
    machine: &mut Machine,
    store: &Store,
    subject: u8,
    process: &mut Process,
    cause: Cause,
) -> Faulted
    requires subject { subject < most_subjects }
    requires loaded { IsLoaded machine.old store.now subject process.old }
    ensures number { result.number ≡ fault_number cause }
    ensures pc { result.pc ≡ process.old.registers.pc }
    ensures taken { (v : State) → StandsFor store.now machine.old.core.words v →
        result.taken ≡ is_reflected v subject process.old (slice_index process.old.entries (fault_number cause)) }
    ensures process { process.new ≡ (if result.taken then entered process.old (slice_index process.old.entries (fault_number cause))
        else record process.old { status = Stopped (fault_number cause) }) }
    ensures state { (v : State) → StandsFor store.now machine.old.core.words v →
        StandsFor store.now machine.new.core.words (if result.taken then with_pushes v process.old else v) }
    ensures references { result.references ≡ (if result.taken then 2 else 0) }
    ensures few { result.references ≤ 2 }
    ensures counted { machine.new.references ≡ counted_on machine.old.references result.references }
    ensures loaded { IsLoaded machine.new store.now subject process.new }
    ensures runs { machine.new.runs ≡ machine.old.runs }
    ensures last { machine.new.last ≡ machine.old.last }
{
    store.law_contents();
    law_windows(&process.windows);
    let number = number_of(cause);
    let pc = process.registers.pc;
    let entry = process.fault_entry(number);
    if reflect(machine, process, entry) {
        Faulted {
            number,
            pc,
            taken: true,
            references: 2,
        }
    } else {
        process.set_status(Status9::Stopped(number));
        Faulted {
            number,
            pc,
            taken: false,
            references: 0,
        }
    }
}
