use bk_cpu::{Event, PlainBus, step};
use bk_space::{Abort, Bus, Cause, Mode, Ps, Regs, Rights, Space};
use std::alloc::{AllocError, Global};
use std::process::Abort as Ends;
use std::test::Fail;

/// Words, and then zeros up to so many words.
fn padded(alloc: Global, words: &[u16], count: usize) -> Result<Vec<u16>, AllocError> {
    let mut all = Vec::new(alloc);
    for n in 0..count {
        all.push(words.get(n).copied().unwrap_or(0))?;
    }
    Ok(all)
}

/// A user's bus: the words at 0 of I space, which may be read, and 32 words from 020000 on in D space,
/// which may be written.
fn bus_of(rt: &impl Ends, alloc: Global, code: &[u16], held: &[u16]) -> Result<PlainBus, Fail> {
    let mut bus = PlainBus::new(alloc).ok().ok_or("memory")?;
    let code = padded(alloc, code, 64)?;
    assert_eq!(rt; code.len(), 64);
    bus.set_page(16, Rights::Read, code);
    let held = padded(alloc, held, 32)?;
    assert_eq!(rt; held.len(), 32);
    bus.set_page(25, Rights::Write, held);
    Ok(bus)
}

fn user_regs() -> Regs {
    Regs::process(Ps::process(Mode::User, Mode::User))
}

/// Registers of a user with R1 and the stack pointer.
fn regs_at(r1: u16, sp: u16) -> Regs {
    let mut regs = user_regs();
    regs.general[1] = r1;
    regs.user = sp;
    regs
}

#[test]
fn takes_the_increment_back(rt: HostRuntime) -> Result<(), Fail> {
    // MOV (R1)+,@#040000: D page 1 may be read and not written, and D page 2 has no rights.
    let mut bus = bus_of(&rt, rt.alloc(), &[0o012137, 0o040000], &[])?;
    let held = padded(rt.alloc(), &[0o123], 32)?;
    assert_eq!(rt; held.len(), 32);
    bus.set_page(25, Rights::Read, held);
    let mut regs = regs_at(0o020000, 0);
    let before = regs;
    assert_eq!(rt; step(&mut regs, &mut bus), Event::Fault(Cause::NonResident));
    assert_eq!(rt; bus.references(), 4);
    assert!(rt; regs == before);
    Ok(())
}

#[test]
fn calls_through_a_stack(rt: HostRuntime) -> Result<(), Fail> {
    // JSR PC,@#000100.
    let mut bus = bus_of(&rt, rt.alloc(), &[0o004737, 0o000100], &[])?;
    let mut regs = regs_at(0, 0o020010);
    assert_eq!(rt; step(&mut regs, &mut bus), Event::Ran);
    assert_eq!(rt;
        (bus.references(), regs.pc, regs.user),
        (3, 0o000100, 0o020006)
    );
    assert_eq!(rt; bus.words(25).get(3).copied(), Some(0o000004));
    Ok(())
}

#[test]
fn returns_to_its_own_modes(rt: HostRuntime) -> Result<(), Fail> {
    // RTI that pops PC 000100 and status 000000, and there MFPI (R0).
    let mut code = padded(rt.alloc(), &[0o000002], 64)?;
    if let Some(word) = code.get_mut(32) {
        *word = 0o006510;
    }
    let mut bus = bus_of(&rt, rt.alloc(), code.as_slice(), &[0o000100, 0])?;
    let mut regs = regs_at(0, 0o020000);
    assert_eq!(rt; step(&mut regs, &mut bus), Event::Ran);
    assert_eq!(rt;
        (regs.pc, regs.user, regs.ps.word()),
        (0o000100, 0o020004, 0o174000)
    );
    assert_eq!(rt; step(&mut regs, &mut bus), Event::Ran);
    assert_eq!(rt; bus.references(), 6);
    assert_eq!(rt;
        (regs.user, bus.words(25).get(1).copied()),
        (0o020002, Some(0o000002))
    );
    Ok(())
}

// MFPD @#020000, and then MTPD @0(R1), in supervisor mode with the user's mode before it: words, addresses and pointers are the
// supervisor's, the operand is in the user's D space.
#[test]
fn moves_between_modes(rt: HostRuntime) -> Result<(), Fail> {
    let mut bus = PlainBus::new(rt.alloc()).ok().ok_or("memory")?;
    let code = padded(rt.alloc(), &[0o106537, 0o020000, 0o106671, 0], 32)?;
    let stack = padded(rt.alloc(), &[0, 0, 0, 0, 0o020002], 32)?;
    let held = padded(rt.alloc(), &[0o123, 0o5], 32)?;
    assert!(rt; code.len() == 32 && stack.len() == 32 && held.len() == 32);
    bus.set_page(0, Rights::Read, code);
    bus.set_page(9, Rights::Write, stack);
    bus.set_page(25, Rights::Write, held);
    let mut regs = Regs::process(Ps::process(Mode::Supervisor, Mode::User));
    regs.general[1] = 0o020010;
    regs.supervisor = 0o020004;
    assert_eq!(rt; step(&mut regs, &mut bus), Event::Ran);
    assert_eq!(rt;
        (regs.pc, regs.supervisor, bus.references()),
        (4, 0o020002, 4)
    );
    assert_eq!(rt; bus.words(9).get(1).copied(), Some(0o123));
    assert_eq!(rt; step(&mut regs, &mut bus), Event::Ran);
    assert_eq!(rt;
        (regs.pc, regs.supervisor, bus.references()),
        (8, 0o020004, 9)
    );
    assert_eq!(rt; bus.words(25).get(1).copied(), Some(0o123));
    assert_eq!(rt; bus.words(9).get(1).copied(), Some(0o123));
    Ok(())
}

/// What one instruction gives: the event, the references, the PC, R1, the user's stack pointer, the
/// status, and the words from 020000 on.
#[derive(Clone, Copy)]
struct Row {
    name: &'static str,
    code: [u16; 2],
    held: [u16; 2],
    r1: u16,
    sp: u16,
    low: u8,
    event: Event,
    references: u64,
    after: (u16, u16, u16, u16),
    left: [u16; 2],
}

fn check(rt: &impl Ends, alloc: Global, row: &Row) -> Result<(), Fail> {
    let mut bus = bus_of(rt, alloc, &row.code, &row.held)?;
    let mut regs = regs_at(row.r1, row.sp);
    assert!(rt; row.low < 32);
    regs.ps = regs.ps.with_low(row.low);
    let event = step(&mut regs, &mut bus);
    assert_eq!(rt; event, row.event, "event of {}", row.name);
    assert_eq!(rt;
        bus.references(),
        row.references,
        "references of {}",
        row.name
    );
    let after = (regs.pc, regs.general[1], regs.user, regs.ps.word());
    assert_eq!(rt; after, row.after, "registers of {}", row.name);
    let left = [0, 1].map(|n: usize| bus.words(25).get(n).copied().unwrap_or(0));
    assert_eq!(rt; left, row.left, "words of {}", row.name);
    Ok(())
}

// The points of the tables that are easy to misread.
#[test]
fn gives_each_row(rt: HostRuntime) -> Result<(), Fail> {
    let reserved = Event::Fault(Cause::Reserved);
    let rest = Row {
        name: "the rest",
        code: [0, 0],
        held: [0, 0],
        r1: 0,
        sp: 0,
        low: 0,
        event: Event::Ran,
        references: 1,
        after: (2, 0, 0, 0o174000),
        left: [0, 0],
    };
    for row in [
        Row {
            name: "JSR R1,(R1)+ pushes the raised R1",
            code: [0o004121, 0],
            r1: 0o000100,
            sp: 0o020002,
            references: 2,
            after: (0o000100, 0o000002, 0o020000, 0o174000),
            left: [0o000102, 0],
            ..rest
        },
        Row {
            name: "JSR SP,@#000100 pushes the pointer as it was",
            code: [0o004637, 0o000100],
            sp: 0o020002,
            references: 3,
            after: (0o000100, 0, 0o000004, 0o174000),
            left: [0o020002, 0],
            ..rest
        },
        Row {
            name: "JMP R1 is reserved",
            code: [0o000101, 0],
            r1: 2,
            low: 0o37,
            event: reserved,
            after: (0, 2, 0, 0o174037),
            ..rest
        },
        Row {
            name: "JSR PC,R1 is reserved",
            code: [0o004701, 0],
            r1: 2,
            event: reserved,
            after: (0, 2, 0, 0o174000),
            ..rest
        },
        Row {
            name: "HALT",
            code: [0, 0],
            event: reserved,
            after: (0, 0, 0, 0o174000),
            ..rest
        },
        Row {
            name: "MFPD #5 reads D space at the operand's address",
            code: [0o106527, 0o5],
            sp: 0o020002,
            event: Event::Fault(Cause::NonResident),
            references: 2,
            after: (0, 0, 0o020002, 0o174000),
            ..rest
        },
        Row {
            name: "MFPI (R1)+ from I space",
            code: [0o006521, 0o7],
            r1: 2,
            sp: 0o020002,
            low: 0o17,
            references: 3,
            after: (2, 4, 0o020000, 0o174001),
            left: [0o7, 0],
            ..rest
        },
        Row {
            name: "MTPD @R1 pops first",
            code: [0o106611, 0],
            held: [0o5, 0o6],
            r1: 0o020000,
            sp: 0o020002,
            references: 3,
            after: (2, 0o020000, 0o020004, 0o174000),
            left: [0o6, 0o6],
            ..rest
        },
        Row {
            name: "MTPI SP takes the popped word",
            code: [0o006606, 0],
            held: [0o5, 0o6],
            sp: 0o020002,
            references: 2,
            after: (2, 0, 0o000006, 0o174000),
            left: [0o5, 0o6],
            ..rest
        },
        Row {
            name: "DIV by zero keeps the increment",
            code: [0o071421, 0],
            r1: 0o020000,
            references: 2,
            after: (2, 0o020002, 0, 0o174003),
            ..rest
        },
        Row {
            name: "MUL #3,SP sets SP and PC",
            code: [0o070627, 0o3],
            sp: 0o100000,
            references: 2,
            after: (0o100000, 0, 0o177776, 0o174011),
            ..rest
        },
        Row {
            name: "SOB PC,. makes the PC odd",
            code: [0o077700, 0],
            after: (1, 0, 0, 0o174000),
            ..rest
        },
        Row {
            name: "SWAB @#020000 has N and Z of the low byte",
            code: [0o000337, 0o020000],
            held: [0o100001, 0],
            low: 0o7,
            references: 4,
            after: (4, 0, 0, 0o174010),
            left: [0o000600, 0],
            ..rest
        },
        Row {
            name: "CLR (R1)+ writes without a read",
            code: [0o005021, 0],
            held: [0o5, 0o6],
            r1: 0o020000,
            low: 0o3,
            references: 2,
            after: (2, 0o020002, 0, 0o174004),
            left: [0, 0o6],
            ..rest
        },
        Row {
            name: "MOVB #377,R1 extends the sign",
            code: [0o112701, 0o377],
            r1: 5,
            low: 0o1,
            references: 2,
            after: (4, 0o177777, 0, 0o174011),
            ..rest
        },
        Row {
            name: "CLRB R1 changes the low byte alone",
            code: [0o105001, 0],
            r1: 0o123456,
            after: (2, 0o123400, 0, 0o174004),
            ..rest
        },
        Row {
            name: "TSTB (SP)+ steps by 2",
            code: [0o105726, 0],
            held: [0o600, 0],
            sp: 0o020001,
            references: 2,
            after: (2, 0, 0o020003, 0o174000),
            left: [0o600, 0],
            ..rest
        },
        Row {
            name: "TST (R1) reads and doesn't write",
            code: [0o005711, 0],
            held: [0o100000, 0],
            r1: 0o020000,
            low: 0o3,
            references: 2,
            after: (2, 0o020000, 0, 0o174010),
            left: [0o100000, 0],
            ..rest
        },
        Row {
            name: "XOR R1,(R1)+ takes R1 as it was",
            code: [0o074121, 0],
            held: [0o020001, 0],
            r1: 0o020000,
            low: 0o1,
            references: 3,
            after: (2, 0o020002, 0, 0o174001),
            left: [0o000001, 0],
            ..rest
        },
        Row {
            name: "ADD (R1)+,(R1)+ has the source first",
            code: [0o062121, 0],
            held: [0o1, 0o2],
            r1: 0o020000,
            references: 4,
            after: (2, 0o020004, 0, 0o174000),
            left: [0o1, 0o3],
            ..rest
        },
        Row {
            name: "RTS R1",
            code: [0o000201, 0],
            held: [0o5, 0],
            r1: 0o100,
            sp: 0o020000,
            references: 2,
            after: (0o100, 0o5, 0o020002, 0o174000),
            left: [0o5, 0],
            ..rest
        },
        Row {
            name: "WAIT with T",
            code: [0o000001, 0],
            low: 0o20,
            event: Event::Fault(Cause::Break),
            after: (2, 0, 0, 0o174020),
            ..rest
        },
        Row {
            name: "SPL 7 does nothing",
            code: [0o000237, 0],
            ..rest
        },
        Row {
            name: "EMT with T",
            code: [0o104026, 0],
            low: 0o20,
            event: Event::Call(0o26),
            after: (2, 0, 0, 0o174020),
            ..rest
        },
        Row {
            name: "TRAP with T",
            code: [0o104400, 0],
            low: 0o20,
            event: Event::Fault(Cause::Trap),
            after: (2, 0, 0, 0o174020),
            ..rest
        },
        Row {
            name: "BPT",
            code: [0o000003, 0],
            event: Event::Fault(Cause::Break),
            ..rest
        },
        Row {
            name: "IOT",
            code: [0o000004, 0],
            event: Event::Fault(Cause::Iot),
            ..rest
        },
        Row {
            name: "MOV R1,(R1) writes without a read",
            code: [0o010111, 0],
            held: [0o5, 0],
            r1: 0o020000,
            low: 0o6,
            references: 2,
            after: (2, 0o020000, 0, 0o174000),
            left: [0o020000, 0],
            ..rest
        },
        Row {
            name: "MOVB R1,(R1) writes its byte without a read",
            code: [0o110111, 0],
            held: [0o177777, 0],
            r1: 0o020001,
            references: 2,
            after: (2, 0o020001, 0, 0o174000),
            left: [0o000777, 0],
            ..rest
        },
        Row {
            name: "CMP R1,(R1) writes nothing",
            code: [0o020111, 0],
            held: [0o020001, 0],
            r1: 0o020000,
            references: 2,
            after: (2, 0o020000, 0, 0o174011),
            left: [0o020001, 0],
            ..rest
        },
        Row {
            name: "BIT R1,(R1) writes nothing",
            code: [0o030111, 0],
            held: [0o000003, 0],
            r1: 0o020000,
            low: 0o1,
            references: 2,
            after: (2, 0o020000, 0, 0o174005),
            left: [0o000003, 0],
            ..rest
        },
        Row {
            name: "RESET with T",
            code: [0o000005, 0],
            low: 0o20,
            event: Event::Fault(Cause::Break),
            after: (2, 0, 0, 0o174020),
            ..rest
        },
        Row {
            name: "SPL 7 with T",
            code: [0o000237, 0],
            low: 0o20,
            event: Event::Fault(Cause::Break),
            after: (2, 0, 0, 0o174020),
            ..rest
        },
        Row {
            name: "BPT with T",
            code: [0o000003, 0],
            low: 0o20,
            event: Event::Fault(Cause::Break),
            after: (2, 0, 0, 0o174020),
            ..rest
        },
        Row {
            name: "IOT with T",
            code: [0o000004, 0],
            low: 0o20,
            event: Event::Fault(Cause::Iot),
            after: (2, 0, 0, 0o174020),
            ..rest
        },
        Row {
            name: "RTI that pops T",
            code: [0o000002, 0],
            held: [0o100, 0o20],
            sp: 0o020000,
            event: Event::Fault(Cause::Break),
            references: 3,
            after: (0o100, 0, 0o020004, 0o174020),
            left: [0o100, 0o20],
            ..rest
        },
        Row {
            name: "RTT that pops T",
            code: [0o000006, 0],
            held: [0o100, 0o20],
            sp: 0o020000,
            references: 3,
            after: (0o100, 0, 0o020004, 0o174020),
            left: [0o100, 0o20],
            ..rest
        },
        Row {
            name: "RTI with no stack",
            code: [0o000002, 0],
            event: Event::Fault(Cause::NonResident),
            references: 2,
            after: (0, 0, 0, 0o174000),
            ..rest
        },
        Row {
            name: "MFPI (R0) with no stack",
            code: [0o006510, 0],
            event: Event::Fault(Cause::NonResident),
            references: 3,
            after: (0, 0, 0, 0o174000),
            ..rest
        },
        Row {
            name: "CLR @#040000 without a page",
            code: [0o005037, 0o040000],
            event: Event::Fault(Cause::NonResident),
            references: 3,
            after: (0, 0, 0, 0o174000),
            ..rest
        },
        Row {
            name: "MOV R0,-(SP) with an odd pointer",
            code: [0o010046, 0],
            sp: 0o000001,
            event: Event::Fault(Cause::Odd),
            references: 2,
            after: (0, 0, 1, 0o174000),
            ..rest
        },
        Row {
            name: "MOV (R1)+,-(SP) takes both moves back",
            code: [0o012146, 0],
            held: [0o5, 0],
            r1: 0o020000,
            event: Event::Fault(Cause::NonResident),
            references: 3,
            after: (0, 0o020000, 0, 0o174000),
            left: [0o5, 0],
            ..rest
        },
        Row {
            name: "TST (R1) beyond the page",
            code: [0o005711, 0],
            r1: 0o020100,
            event: Event::Fault(Cause::Length),
            references: 2,
            after: (0, 0o020100, 0, 0o174000),
            ..rest
        },
        Row {
            name: "CCC",
            code: [0o000257, 0],
            low: 0o17,
            ..rest
        },
        Row {
            name: "BR to the word before 0",
            code: [0o000776, 0],
            after: (0o177776, 0, 0, 0o174000),
            ..rest
        },
    ] {
        check(&rt, rt.alloc(), &row)?;
    }
    Ok(())
}

#[test]
fn refers_by_rights_and_length(rt: HostRuntime) -> Result<(), Fail> {
    let mut bus = bus_of(&rt, rt.alloc(), &[], &[0o123])?;
    let (user, data) = (Mode::User, Space::D);
    assert_eq!(rt; bus.read_byte(user, data, 0o020077), Ok(0));
    assert_eq!(rt; bus.read_byte(user, data, 0o020100), Err(Abort::Length));
    assert_eq!(rt; bus.read_word(user, data, 0o020001), Err(Abort::Odd));
    assert_eq!(rt; bus.read_word(user, data, 0o040001), Err(Abort::Odd));
    assert_eq!(rt; bus.write_byte(user, data, 0o020001, 0o377), Ok(()));
    assert_eq!(rt; bus.read_word(user, data, 0o020000), Ok(0o177523));
    assert_eq!(rt; bus.read_byte(user, data, 0o020000), Ok(0o123));
    assert_eq!(rt; bus.write_word(user, Space::I, 0, 1), Err(Abort::ReadOnly));
    assert_eq!(rt;
        bus.write_word(user, Space::I, 0o200, 1),
        Err(Abort::Length)
    );
    assert_eq!(rt;
        bus.read_word(Mode::Supervisor, data, 0o020000),
        Err(Abort::NonResident)
    );
    let whole = padded(rt.alloc(), &[], 4096)?;
    assert_eq!(rt; whole.len(), 4096);
    bus.set_page(25, Rights::Read, whole);
    assert_eq!(rt; bus.read_word(user, data, 0o037776), Ok(0));
    assert_eq!(rt;
        bus.write_word(user, data, 0o020000, 1),
        Err(Abort::ReadOnly)
    );
    assert_eq!(rt;
        bus.write_byte(user, data, 0o037777, 1),
        Err(Abort::ReadOnly)
    );
    assert_eq!(rt; bus.read_word(user, data, 0o020000), Ok(0));
    assert_eq!(rt; bus.references(), 14);

    // The last word of the address space, and then the PC is at 0 again.
    let mut last = padded(rt.alloc(), &[], 4096)?;
    if let Some(word) = last.get_mut(4095) {
        *word = 0o000240;
    }
    assert_eq!(rt; last.len(), 4096);
    let mut bus = PlainBus::new(rt.alloc()).ok().ok_or("memory")?;
    bus.set_page(23, Rights::Read, last);
    let mut regs = user_regs();
    regs.pc = 0o177776;
    assert_eq!(rt; step(&mut regs, &mut bus), Event::Ran);
    assert_eq!(rt; step(&mut regs, &mut bus), Event::Fault(Cause::NonResident));
    assert_eq!(rt; (regs.pc, bus.references()), (0, 2));
    regs.pc = 1;
    assert_eq!(rt; step(&mut regs, &mut bus), Event::Fault(Cause::Odd));
    assert_eq!(rt; (regs.pc, bus.references()), (1, 3));
    Ok(())
}
