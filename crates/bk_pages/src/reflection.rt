// A fault that its process takes at an entry of its own.

ghost use Rattle.std.specs.Prelude.{◌≡◌, ◌&&◌, ◌==◌, not, true, if◌then◌else◌};
ghost use Rattle.bk_space.specs.Counts.{counted_on};
ghost use Rattle.bk_machine.specs.Machine.{KeepsRest, bus_of, kernel_words};
ghost use Rattle.bk_machine.specs.Paged.{after_write};
ghost use Rattle.bk_system.specs.Turn.{entered, is_user, less};
ghost use Rattle.bk_pages.specs.Pushing.{can_push, has_room, push_at, takes_fault, with_both};

use bk_machine::Machine;
use bk_process::Process;
use bk_space::{Bus, Mode, Ps, Regs, Space};

// Whether a process in the mode takes a fault that has this entry.
fn takes(mode: Mode, entry: u16) -> bool
    ensures { result ≡ (is_user mode && not (entry == 0)) }
{
    matches!(mode, Mode::User) && entry != 0
}

// The process goes on at its entry, in supervisor mode.
fn enter(process: &mut Process, entry: u16)
    ensures { process.new ≡ entered process.old entry }
{
    process.registers.supervisor = process.registers.supervisor.wrapping_sub(4);
    process.registers.pc = entry;
    process.registers.ps = Ps::process(Mode::Supervisor, Mode::User);
}

// Whether the two words below the stack pointer of supervisor mode can be written. To ask makes no reference.
fn has_room(machine: &Machine, regs: &Regs) -> bool
    ensures { result ≡ has_room (bus_of machine.now) regs.now }
{
    let stack = regs.supervisor;
    machine.writable(stack.wrapping_sub(2)) && machine.writable(stack.wrapping_sub(4))
}

// Writes a word of supervisor D space that can be written.
fn push(machine: &mut Machine, addr: u16, value: u16)
    requires { can_push (bus_of machine.old) addr ≡ true }
    ensures written { bus_of machine.new ≡ after_write (bus_of machine.old) (push_at addr value) }
    ensures count { machine.new.references ≡ counted_on machine.old.references 1 }
    ensures kernel { kernel_words machine.new.core.words ≡ kernel_words machine.old.core.words }
    ensures rest { KeepsRest machine.old machine.new }
{
    let _ = machine.write_word(Mode::Supervisor, Space::D, addr, value);
}

// Pushes the status, and then the program counter, where there is room for both, with a reference each; else nothing changes.
fn push_both(machine: &mut Machine, regs: &Regs) -> bool
    ensures room { result ≡ has_room (bus_of machine.old) regs.now }
    ensures written { bus_of machine.new ≡ (if result then with_both (bus_of machine.old) regs.now else bus_of machine.old) }
    ensures count { machine.new.references ≡ counted_on machine.old.references (if result then 2 else 0) }
    ensures kernel { kernel_words machine.new.core.words ≡ kernel_words machine.old.core.words }
    ensures rest { KeepsRest machine.old machine.new }
{
    if !has_room(machine, regs) {
        return false;
    }
    let stack = regs.supervisor;
    push(machine, stack.wrapping_sub(2), regs.ps.word());
    push(machine, stack.wrapping_sub(4), regs.pc);
    true
}

/// Takes a fault at its entry, where the process takes it there: it is in user mode, the entry isn't 0, and the two words
/// below its supervisor stack pointer can be written. Then status and program counter are pushed, with a reference each, and
/// the process goes on at the entry in supervisor mode. Else nothing changes.
pub(crate) fn reflect(machine: &mut Machine, process: &mut Process, entry: u16) -> bool
    requires { machine.old.process ≡ process.old.registers }
    ensures taken { result ≡ takes_fault (bus_of machine.old) process.old.registers entry }
    ensures process { process.new ≡ (if result then entered process.old entry else process.old) }
    ensures windows { process.new.windows ≡ process.old.windows }
    ensures written { bus_of machine.new ≡ (if result then with_both (bus_of machine.old) process.old.registers else bus_of machine.old) }
    ensures count { machine.new.references ≡ counted_on machine.old.references (if result then 2 else 0) }
    ensures pages { machine.new.pages.registers ≡ machine.old.pages.registers }
    ensures registers { machine.new.process ≡ process.new.registers }
    ensures words { kernel_words machine.new.core.words ≡ kernel_words machine.old.core.words }
    ensures kernel { machine.new.kernel ≡ machine.old.kernel }
    ensures runs { machine.new.runs ≡ machine.old.runs }
    ensures last { machine.new.last ≡ machine.old.last }
{
    if !takes(process.registers.ps.mode, entry) {
        return false;
    }
    if !push_both(machine, &process.registers) {
        return false;
    }
    enter(process, entry);
    machine.set_process(&process.registers);
    true
}
