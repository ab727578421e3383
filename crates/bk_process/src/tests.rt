ghost use Rattle.std.specs.Prelude.{◌≡◌};
ghost use Rattle.bk_space.specs.Registers.{with_reg};

use crate::{Process, Status9};
use bk_path::Path;
use bk_space::{Mode, Ps, Regs};

// A caller knows that nothing but the registers changes through them.
fn jump(process: &mut Process, addr: u16)
    ensures { process.new ≡ record process.old { registers = with_reg process.old.registers 7 addr } }
{
    process.regs_mut().set_reg(7, addr);
}

// A change of the registers, of two neighbouring windows and fault entries, and of the status, each beside the others.
#[test]
fn keeps_each_field_beside_the_others(rt: HostRuntime) {
    let mut process = Process::new(Regs::process(Ps::process(Mode::User, Mode::User)));
    assert!(rt; process.window(0).is_none() && process.window(31).is_none());
    assert!(rt; process.fault_entry(0) == 0 && process.status() == Status9::Running);
    process.set_window(16, Some(Path::root()));
    process.set_window(31, Path::root().child(5));
    process.set_fault_entry(7, 0o200);
    process.set_status(Status9::Stopped(8));
    jump(&mut process, 0o100);
    assert!(rt; process.window(16) == Some(Path::root()) && process.window(15).is_none());
    assert!(rt; process.window(31) == Path::root().child(5) && process.window(30).is_none());
    assert!(rt; process.fault_entry(7) == 0o200 && process.fault_entry(6) == 0);
    assert!(rt; process.status() == Status9::Stopped(8));
    assert_eq!(rt; process.regs().reg(7), 0o100);
    process.set_window(16, None);
    assert!(rt; process.window(16).is_none() && process.window(31).is_some());
}
