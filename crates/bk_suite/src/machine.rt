use bk_base::NoMemory;
use bk_core::Core;
use bk_exec::Event;
use bk_machine::{KernelRegs, Machine, Ran};
use bk_space::{Abort, Bus, Cause, Mode, Ps, Regs, Rights, Space};
use std::alloc::Global;
use std::process::Abort as Ends;
use std::test::Fail;

// The registers of a process in user mode.
fn user_at(pc: u16) -> Regs {
    Regs {
        pc,
        ..Regs::process(Ps::process(Mode::User, Mode::User))
    }
}

// The vectors as they are made: their addresses, and the programs that they name.
fn has_vectors(rt: &impl Ends, core: &Core) {
    for (at, program) in [
        (0o4u32, 0o404),
        (0o10, 0o410),
        (0o14, 0o414),
        (0o20, 0o420),
        (0o30, 0o430),
        (0o34, 0o434),
        (0o250, 0o650),
    ] {
        assert_eq!(rt; core.word(at), program, "the program of {at}");
        assert_eq!(rt; core.word(at + 2), 0o340, "the status of {at}");
    }
}

// Core has a status and a program counter on the kernel's stack.
fn has_pushed(rt: &impl Ends, core: &Core, status: u16, pc: u16) {
    assert_eq!(rt; core.word(0o7776), status);
    assert_eq!(rt; core.word(0o7774), pc);
}

// A machine whose block 64 of core is the first page of user I space: at 000010 EMT 20, and then HALT.
fn with_program(alloc: Global) -> Result<Machine, NoMemory> {
    let mut machine = Machine::reserve(alloc)?;
    machine.load_page(16, 64, 1, Rights::Read);
    machine.core_mut().set_word(0o010010, 0o104020);
    Ok(machine)
}

#[test]
fn enters_kernel_mode_and_leaves_it(rt: HostRuntime) -> Result<(), Fail> {
    let mut machine = with_program(rt.alloc()).ok().ok_or("memory")?;
    has_vectors(&rt, machine.core());
    assert_eq!(rt; machine.process_regs(), user_at(0));
    machine.set_process(&user_at(0o10));
    assert_eq!(rt; machine.last(), None);
    assert_eq!(rt; machine.runs(), 0);
    assert!(rt; machine.kernel_regs().is_none());

    assert_eq!(rt; machine.run_one(), Event::Call(0o20));
    has_pushed(&rt, machine.core(), 0o174000, 0o000012);
    assert_eq!(rt; machine.runs(), 1);
    assert_eq!(rt; machine.references(), 1);
    let call = Ran {
        before: user_at(0o10),
        after: user_at(0o12),
        event: Event::Call(0o20),
    };
    assert_eq!(rt; machine.last(), Some(call));
    let Some(kernel) = machine.kernel_regs() else {
        return Err(Fail::from("outside kernel mode"));
    };
    assert_eq!(rt;
        kernel,
        KernelRegs {
            pc: 0o430,
            sp: 0o7774,
            ps: 0o030340
        }
    );

    // The kernel answers in R0; what the machine tells of the instruction stays.
    let answered = Regs {
        general: [2, 0, 0, 0, 0, 0],
        ..user_at(0o12)
    };
    machine.set_process(&answered);
    machine.leave();
    assert!(rt; machine.kernel_regs().is_none());
    assert_eq!(rt; machine.process_regs(), answered);
    assert_eq!(rt; machine.last(), Some(call));

    // HALT is reserved: its vector is 10, and the program counter stays.
    assert_eq!(rt; machine.run_one(), Event::Fault(Cause::Reserved));
    has_pushed(&rt, machine.core(), 0o174000, 0o000012);
    assert_eq!(rt; machine.kernel_regs().map_or(0, |kernel| kernel.pc), 0o410);
    assert_eq!(rt; machine.runs(), 2);
    Ok(())
}

// What the words at addresses of user D space are answered.
fn reads(rt: &impl Ends, machine: &mut Machine, rows: &[(u16, Result<u16, Abort>)]) {
    for (addr, word) in rows {
        let answer = machine.read_word(Mode::User, Space::D, *addr);
        assert_eq!(rt; answer, *word, "the word at {addr}");
    }
}

// What the bytes at addresses of user D space are answered.
fn reads_bytes(rt: &impl Ends, machine: &mut Machine, rows: &[(u16, Result<u8, Abort>)]) {
    for (addr, byte) in rows {
        let answer = machine.read_byte(Mode::User, Space::D, *addr);
        assert_eq!(rt; answer, *byte, "the byte at {addr}");
    }
}

// What writes of the word 000777 to addresses of D space are answered.
fn writes(rt: &impl Ends, machine: &mut Machine, mode: Mode, rows: &[(u16, Result<(), Abort>)]) {
    for (addr, done) in rows {
        let answer = machine.write_word(mode, Space::D, *addr, 0o000777);
        assert_eq!(rt; answer, *done, "a word to {addr}");
    }
}

// Which words of supervisor D space can be written.
fn can_write(rt: &impl Ends, machine: &Machine, rows: &[(u16, bool)]) {
    for (addr, can) in rows {
        assert_eq!(rt; machine.writable(*addr), *can, "a word to {addr}");
    }
}

// Page 25, which is page 1 of user D space, begins at 020000.
#[test]
fn answers_by_page_registers(rt: HostRuntime) -> Result<(), Fail> {
    let mut machine = Machine::reserve(rt.alloc()).ok().ok_or("memory")?;
    let core = machine.core_mut();
    core.set_word(0o010000, 0o000017);
    core.set_word(0o010076, 0o041101);
    core.set_word(0o757776, 0o123456);
    reads(
        &rt,
        &mut machine,
        &[
            (0o020000, Err(Abort::NonResident)),
            (0o020001, Err(Abort::Odd)),
        ],
    );

    // 128 blocks that end with core.
    machine.load_page(25, 3840, 128, Rights::Read);
    reads(
        &rt,
        &mut machine,
        &[
            (0o037776, Ok(0o123456)),
            (0o040000, Err(Abort::NonResident)),
        ],
    );

    // Block 64, which may be read.
    machine.load_page(25, 64, 1, Rights::Read);
    let words = [
        (0o020000, Ok(0o000017)),
        (0o020001, Err(Abort::Odd)),
        (0o020076, Ok(0o041101)),
        (0o020100, Err(Abort::Length)),
        (0o020101, Err(Abort::Odd)),
    ];
    reads(&rt, &mut machine, &words);
    let bytes = [
        (0o020076, Ok(0o101)),
        (0o020077, Ok(0o102)),
        (0o020100, Err(Abort::Length)),
    ];
    reads_bytes(&rt, &mut machine, &bytes);
    let refused = [
        (0o020000, Err(Abort::ReadOnly)),
        (0o020001, Err(Abort::Odd)),
        (0o020100, Err(Abort::Length)),
    ];
    writes(&rt, &mut machine, Mode::User, &refused);
    assert_eq!(rt; machine.references(), 15);

    // The same block in supervisor D space may be written, and what is written shows in both pages.
    machine.load_page(9, 64, 1, Rights::Write);
    can_write(
        &rt,
        &machine,
        &[(0o020076, true), (0o020077, false), (0o020100, false)],
    );
    assert_eq!(rt;
        machine.write_byte(Mode::Supervisor, Space::D, 0o020001, 0o103),
        Ok(())
    );
    writes(&rt, &mut machine, Mode::Supervisor, &[(0o020076, Ok(()))]);
    reads(
        &rt,
        &mut machine,
        &[(0o020000, Ok(0o041417)), (0o020076, Ok(0o000777))],
    );
    machine.clear_page(9);
    can_write(&rt, &machine, &[(0o020076, false)]);
    reads(&rt, &mut machine, &[(0o020076, Ok(0o000777))]);
    machine.clear_pages();
    reads(&rt, &mut machine, &[(0o020076, Err(Abort::NonResident))]);
    assert_eq!(rt; machine.references(), 21);
    Ok(())
}
