// The trap sequence: how kernel mode is entered.

ghost use Rattle.std.specs.Prelude.{◌≡◌, ◌%◌, ◌<◌, IfSome};
ghost use Rattle.bk_machine.specs.Trap.{entered, entered_at, fault_vector, pushed, trapped, vector_of, with_previous};

use crate::registers::KernelRegs;
use crate::vectors::{BREAKPOINT, EMT, IOT, MEMORY_MANAGEMENT, ODD_ADDRESS, RESERVED, TRAP};
use bk_core::Core;
use bk_exec::Event;
use bk_space::{Cause, Mode, Regs};

// The kernel's stack pointer outside kernel mode: its stack grows downward from the end of its blocks.
const KERNEL_STACK: u16 = 0o10000;

// The vector of a fault.
fn fault_vector(cause: Cause) -> u16
    ensures value { result ≡ fault_vector cause }
    ensures even { result % 2 ≡ 0 }
    ensures low { result < 0o400 }
{
    match cause {
        Cause::Odd => ODD_ADDRESS,
        Cause::NonResident | Cause::Length | Cause::ReadOnly => MEMORY_MANAGEMENT,
        Cause::Reserved => RESERVED,
        Cause::Break => BREAKPOINT,
        Cause::Iot => IOT,
        Cause::Trap => TRAP,
    }
}

// The vector by which an instruction traps: None where it ran.
fn vector(event: Event) -> Option<u16>
    ensures value { result ≡ vector_of event }
    ensures even { IfSome result (λ at. at % 2 ≡ 0) }
    ensures low { IfSome result (λ at. at < 0o400) }
{
    match event {
        Event::Ran => None,
        Event::Call(_) => Some(EMT),
        Event::Fault(cause) => Some(fault_vector(cause)),
    }
}

// A status word with the mode as its previous mode.
fn with_previous(mode: Mode, word: u16) -> u16
    ensures { result ≡ with_previous mode word }
{
    let previous = match mode {
        Mode::Supervisor => 0o10000,
        Mode::User => 0o30000,
    };
    word / 0o40000 * 0o40000 + previous + word % 0o10000
}

// Kernel mode is entered through a vector: its pair is taken, then status and program counter of the process are pushed.
fn enter(core: &mut Core, process: &Regs, at: u16) -> KernelRegs
    requires even { at % 2 ≡ 0 }
    requires low { at < 0o400 }
    ensures words { core.new.words ≡ pushed process.now core.old.words }
    ensures registers { result ≡ entered_at at process.now core.old.words }
{
    let pc = core.word(u32::from(at));
    let status = core.word(u32::from(at) + 2);
    core.set_word(u32::from(KERNEL_STACK) - 2, process.ps.word());
    core.set_word(u32::from(KERNEL_STACK) - 4, process.pc);
    KernelRegs {
        pc,
        sp: KERNEL_STACK - 4,
        ps: with_previous(process.ps.mode, status),
    }
}

/// What an instruction that ended so leaves of kernel mode, where it traps: None where it ran.
pub(crate) fn trap(core: &mut Core, process: &Regs, event: Event) -> Option<KernelRegs>
    ensures words { core.new.words ≡ trapped event process.now core.old.words }
    ensures registers { result ≡ entered event process.now core.old.words }
{
    match vector(event) {
        None => None,
        Some(at) => Some(enter(core, process, at)),
    }
}
