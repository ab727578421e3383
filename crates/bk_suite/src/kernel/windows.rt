// What a window shows, by what is held and by length, until its access or its object goes.

use super::runs::{Wanted, check};
use super::{E, R, W};
use bk_exec::Event;
use bk_fixture::{Object, SYSTEM, Subject, System, USER, segment};
use bk_process::Status9;
use bk_space::Cause;
use std::alloc::Global;
use std::process::Abort as Ends;
use std::test::Fail;

// One subject tests a word through a window until another rescinds its access.
#[test]
fn takes_a_window_away_with_its_access(rt: HostRuntime) -> Result<(), Fail> {
    let system = System {
        turns: 2,
        schedule: &[0, 1],
        subjects: &[
            Subject {
                windows: &[(16, 0), (25, 1)],
                ..USER
            },
            Subject {
                general: [0, 0o010400, 0, 1, 0, 0],
                windows: &[(16, 2)],
                ..USER
            },
        ],
        root: &[(1, W)],
        objects: &[
            // TST @#020000, BR to 0
            segment(1, &[(0, &[0o005737, 0o020000, 0o000775])], &[(0, E)]),
            segment(1, &[], &[(0, R)]),
            // rescind, stop
            segment(1, &[(0, &[0o104007, 0o104026])], &[(1, E)]),
        ],
        ..SYSTEM
    };
    let report = b"C 1 0 1 007 000000 010400 000000 000001 000000 000000 yes 0
C 1 1 1 026 000000 000000 000000 000001 000000 000000 yes 0
F 2 0 0 1 000000 stop
";
    let run = check(
        &rt,
        rt.alloc(),
        &system,
        &[&[], &[], &[]],
        (report, 6, 9, 2),
    )?;
    assert_eq!(rt; run.status(&rt, 0), Status9::Stopped(1));
    assert_eq!(rt; run.status(&rt, 1), Status9::Stopped(8));
    // The last instruction is the first one again, which finds its window without access.
    let machine = run.kernel.machine();
    let last = machine.last().map(|ran| (ran.before.pc, ran.event));
    assert_eq!(rt; machine.runs(), 5);
    assert_eq!(rt; last, Some((0, Event::Fault(Cause::NonResident))));
    Ok(())
}

// A subject deletes `/1`, creates it anew, grants itself w and gets it. The code at its fault entry, in supervisor mode,
// passes over the reads that abort: it adds 4 to the program counter on its stack.
#[test]
fn reads_zeros_of_what_was_created_anew(rt: HostRuntime) -> Result<(), Fail> {
    let mut entries = [0; 8];
    entries[1] = 0o60;
    let system = System {
        turns: 20,
        subjects: &[Subject {
            general: [0, 0, 0, 0, 0, 0o010400],
            supervisor: 0o100,
            entries,
            windows: &[(0, 0), (8, 2), (16, 0), (25, 1)],
            ..USER
        }],
        root: &[(0, W)],
        objects: &[
            segment(
                1,
                &[
                    (
                        0,
                        &[
                            0o013703, 0o020000, // MOV @#020000,R3
                            0o010501, 0o104011, // delete group
                            0o013703, 0o020000, // at 10
                            0o010501, 0o012703, 0o000401, 0o104010, // create
                            0o013703, 0o020000, // at 24
                            0o010501, 0o012703, 0o000004, 0o104006, // give
                            0o010501, 0o104004, // get-write
                            0o013703, 0o020000, 0o104026,
                        ],
                    ),
                    // ADD #4,(SP), RTI
                    (0o60, &[0o062716, 0o000004, 0o000002]),
                ],
                &[(0, E)],
            ),
            segment(1, &[(0, &[0o000123])], &[(0, W)]),
            segment(1, &[], &[(0, W)]),
        ],
        ..SYSTEM
    };
    let report = b"C 0 2 0 011 000000 010400 000000 000123 000000 010400 yes 0
F 0 3 0 1 000010 enter
C 0 8 0 010 000000 010400 000000 000401 000000 010400 yes 0
F 0 9 0 1 000024 enter
C 0 14 0 006 000000 010400 000000 000004 000000 010400 yes 0
C 0 16 0 004 000000 010400 000000 000004 000000 010400 yes 0
C 0 18 0 026 000000 000000 000000 000000 000000 010400 yes 0
";
    check(&rt, rt.alloc(), &system, &[&[]], (report, 20, 43, 5))?;
    Ok(())
}

// A subject whose program is in `/0`, which it holds by those modes, and whose window at 020000 of D space shows `/1`.
fn refer<'a>(
    rt: &impl Ends,
    alloc: Global,
    program: (&'a [u16], u8),
    object: Object<'a>,
    wanted: Wanted,
) -> Result<(), Fail> {
    let words = [(0, program.0)];
    let holders = [(0, program.1)];
    let system = System {
        turns: 4,
        subjects: &[Subject {
            windows: &[(16, 0), (25, 1)],
            ..USER
        }],
        objects: &[segment(1, &words, &holders), object],
        ..SYSTEM
    };
    check(rt, alloc, &system, &[&[]], wanted)?;
    Ok(())
}

#[test]
fn refers_by_what_is_held_and_by_length(rt: HostRuntime) -> Result<(), Fail> {
    let alloc = rt.alloc();
    // MOV #123,@#037776, MOV @#037776,R3, call 30; then HALT
    refer(
        &rt,
        alloc,
        (
            &[0o012737, 0o000123, 0o037776, 0o013703, 0o037776, 0o104030],
            E,
        ),
        segment(128, &[], &[(0, W)]),
        (
            b"C 0 2 0 030 000000 000000 000000 000123 000000 000000 ? 20
F 0 3 0 4 000014 stop
",
            4,
            9,
            1,
        ),
    )?;
    // MOVB @#020077,R3, call 30, MOVB @#020100,R3
    refer(
        &rt,
        alloc,
        (&[0o113703, 0o020077, 0o104030, 0o113703, 0o020100], E),
        segment(1, &[(0o76, &[0o040400])], &[(0, R)]),
        (
            b"C 0 1 0 030 000000 000000 000000 000101 000000 000000 ? 20
F 0 2 0 2 000006 stop
",
            4,
            7,
            1,
        ),
    )?;
    // One instruction of two words, what is held of `/1`, and the fault.
    let rows: [(u16, u16, u8, u8); 9] = [
        (0o010037, 0o020000, R, 3), // MOV R0,@#020000
        (0o013703, 0o020001, R, 0), // MOV @#020001,R3
        (0o013703, 0o020101, R, 0), // odd goes before the length
        (0o013703, 0o040001, R, 0), // and before non-resident
        (0o013703, 0o020000, E, 1), // e reads no data
        (0o013703, 0o020100, E, 1), // non-resident goes before the length
        (0o010037, 0o020100, R, 2), // the length goes before read-only
        (0o013703, 0o040000, W, 1), // a free window
        (0o010037, 0o020100, W, 2),
    ];
    for (word, address, held, fault) in rows {
        let mut report = *b"F 0 0 0 0 000000 stop\n";
        report[8] = b'0' + fault;
        refer(
            &rt,
            alloc,
            (&[word, address], E),
            segment(1, &[], &[(0, held)]),
            (&report, 4, 3, 0),
        )?;
    }
    // Neither r nor w lets instructions be read.
    for held in [R, W] {
        refer(
            &rt,
            alloc,
            (&[0o000240], held),
            segment(1, &[], &[]),
            (b"F 0 0 0 1 000000 stop\n", 4, 1, 0),
        )?;
    }
    Ok(())
}
