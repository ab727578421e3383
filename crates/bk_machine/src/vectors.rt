// The trap vectors in the kernel's blocks of core.

ghost use Rattle.std.specs.Prelude.{◌≡◌, ◌+◌, ◌%◌, ◌<◌};
ghost use Rattle.bk_machine.specs.Vectors.{with_vector, with_vectors};

use bk_core::Core;

// The addresses of the vectors.
pub(crate) const ODD_ADDRESS: u16 = 0o4;

pub(crate) const RESERVED: u16 = 0o10;

pub(crate) const BREAKPOINT: u16 = 0o14;

pub(crate) const IOT: u16 = 0o20;

pub(crate) const EMT: u16 = 0o30;

pub(crate) const TRAP: u16 = 0o34;

pub(crate) const MEMORY_MANAGEMENT: u16 = 0o250;

// The status of each vector: kernel mode, priority 7.
const KERNEL_STATUS: u16 = 0o340;

// The vector at the address gets the program 400 behind it, and the status.
fn make_vector(core: &mut Core, at: u16)
    requires even { at % 2 ≡ 0 }
    requires low { at < 0o400 }
    ensures { core.new.words ≡ with_vector core.old.words at }
{
    core.set_word(u32::from(at), at + 0o400);
    core.set_word(u32::from(at) + 2, KERNEL_STATUS);
}

/// Makes all vectors; no other word changes.
pub(crate) fn make_vectors(core: &mut Core)
    ensures { core.new.words ≡ with_vectors core.old.words }
{
    make_vector(core, MEMORY_MANAGEMENT);
    make_vector(core, TRAP);
    make_vector(core, EMT);
    make_vector(core, IOT);
    make_vector(core, BREAKPOINT);
    make_vector(core, RESERVED);
    make_vector(core, ODD_ADDRESS);
}
