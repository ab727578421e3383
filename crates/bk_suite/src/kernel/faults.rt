// Faults, traps and the modes: what is reflected, what stops, and what stays.

use super::runs::{Wanted, booted, check};
use super::{E, R, W};
use bk_fixture::{Part, SYSTEM, Subject, System, USER, segment};
use bk_space::Mode;
use std::test::Fail;

// RTI that pops PC 000100 and a status of zeros, and there MFPI (R0): the modes stay user, and the word is the one at 0 of
// the process's own I space. The code at the entry of TRAP shows the status that was pushed.
#[test]
fn keeps_its_modes_in_a_return(rt: HostRuntime) -> Result<(), Fail> {
    let mut entries = [0; 8];
    entries[7] = 0o120;
    let system = System {
        turns: 7,
        subjects: &[Subject {
            user: 0o020000,
            supervisor: 0o100,
            entries,
            windows: &[(0, 0), (8, 2), (16, 0), (25, 1)],
            ..USER
        }],
        objects: &[
            segment(
                2,
                &[
                    (0, &[0o000002]),
                    // MFPI (R0), MOV SP,R4, MOV (SP),R3, TRAP
                    (0o100, &[0o006510, 0o010604, 0o011603, 0o104400]),
                    // MOV 2(SP),R2, call 30
                    (0o120, &[0o016602, 0o000002, 0o104030]),
                ],
                &[(0, E)],
            ),
            segment(1, &[(0, &[0o000100])], &[(0, W)]),
            segment(1, &[], &[(0, W)]),
        ],
        ..SYSTEM
    };
    let report = b"F 0 4 0 7 000110 enter
C 0 6 0 030 000000 000000 174000 000002 020002 000000 ? 20
";
    check(&rt, rt.alloc(), &system, &[&[]], (report, 7, 16, 1))?;
    Ok(())
}

/// A fault of a subject: its mode, its program counter, the entry of fault 4, the modes by which it holds its supervisor
/// stack, and what its run is to give.
type Faulting<'a> = (Mode, u16, u16, u8, Wanted<'a>);

// SCC at 76 and HALT at 100. The code at 200 of supervisor I space shows that N and C are clear (SXT R1, ADC R0), its stack
// pointer, the two words on its stack, and the stack pointer of the previous mode (MFPI SP).
#[test]
fn reflects_a_fault(rt: HostRuntime) -> Result<(), Fail> {
    let entered = b"F 0 0 0 4 000100 enter
C 0 8 0 030 000000 000000 001234 000100 174000 000374 ? 20
F 0 9 0 4 000222 stop
";
    let after_flags = b"F 0 1 0 4 000100 enter
C 0 9 0 030 000000 000000 001234 000100 174017 000374 ? 20
";
    let stopped = b"F 0 0 0 4 000100 stop\n";
    let rows: [Faulting; 6] = [
        (Mode::User, 0o100, 0o200, W, (entered, 10, 17, 1)),
        (Mode::User, 0o76, 0o200, W, (after_flags, 10, 17, 1)),
        (Mode::User, 0o100, 0o200, R, (stopped, 10, 1, 0)),
        (Mode::User, 0o100, 0o200, E, (stopped, 10, 1, 0)),
        (Mode::User, 0o100, 0, W, (stopped, 10, 1, 0)),
        (Mode::Supervisor, 0o100, 0o200, W, (stopped, 10, 1, 0)),
    ];
    for (mode, pc, entry, held, wanted) in rows {
        let mut entries = [0o200; 8];
        entries[4] = entry;
        let holders = [(0, held)];
        let system = System {
            turns: 10,
            subjects: &[Subject {
                mode,
                user: 0o1234,
                supervisor: 0o400,
                pc,
                entries,
                windows: &[(0, 1), (8, 2), (16, 0)],
                ..USER
            }],
            objects: &[
                segment(2, &[(0o76, &[0o000277])], &[(0, E)]),
                segment(
                    3,
                    &[(
                        0o200,
                        &[
                            0o006701, 0o005500, 0o010605, 0o011603, 0o016604, 0o000002, 0o006506,
                            0o012602, 0o104030,
                        ],
                    )],
                    &[(0, E)],
                ),
                segment(4, &[], &holders),
            ],
            ..SYSTEM
        };
        check(&rt, rt.alloc(), &system, &[&[]], wanted)?;
    }
    Ok(())
}

// The whole status before and after a fault, with all condition codes set before it.
#[test]
fn reflects_with_the_whole_status(rt: HostRuntime) -> Result<(), Fail> {
    let mut entries = [0; 8];
    entries[4] = 0o200;
    let system = System {
        subjects: &[Subject {
            supervisor: 0o400,
            pc: 0o76,
            entries,
            windows: &[(0, 0), (8, 1), (16, 0)],
            ..USER
        }],
        objects: &[
            // SCC; then HALT
            segment(3, &[(0o76, &[0o000277])], &[(0, E)]),
            segment(4, &[], &[(0, W)]),
        ],
        ..SYSTEM
    };
    let mut run = booted(&rt, rt.alloc(), &system)?;
    run.turn();
    let before = run.registers();
    assert_eq!(rt; (before.ps.word(), before.supervisor), (0o174017, 0o400));
    run.turn();
    let after = run.registers();
    assert_eq!(rt;
        (after.ps.word(), after.supervisor, after.pc),
        (0o074000, 0o374, 0o200)
    );
    Ok(())
}

// TRAP by a subject whose two words below the supervisor stack pointer lie on two pages: the lower at 17776 of `/2`, the
// upper at 0 of `/3`. Another subject then shows both words. Where either can't be written, neither is.
#[test]
fn tests_both_words_before_either_is_written(rt: HostRuntime) -> Result<(), Fail> {
    // The stack pointer, by which modes `/2` and `/3` are held, and whether the fault is reflected.
    let rows: [(u16, u8, u8, bool); 7] = [
        (0o060002, W, W, true),
        (0o060002, R, W, false),
        (0o060002, W, R, false),
        (0o060003, W, W, false),
        (2, W, W, true), // around the end of the space
        (2, R, W, false),
        (2, W, R, false),
    ];
    for (pointer, lower, upper, taken) in rows {
        let mut entries = [0; 8];
        entries[7] = 0o40;
        let lower = [(0, lower), (1, R)];
        let upper = [(0, upper), (1, R)];
        let system = System {
            turns: 3,
            schedule: &[0, 1],
            subjects: &[
                Subject {
                    supervisor: pointer,
                    entries,
                    windows: &[(0, 1), (8, 3), (10, 2), (11, 3), (15, 2), (16, 0)],
                    ..USER
                },
                Subject {
                    windows: &[(16, 4), (24, 2), (25, 3)],
                    ..USER
                },
            ],
            objects: &[
                segment(1, &[(0, &[0o104400])], &[(0, E)]),
                // BR to itself
                segment(1, &[(0o40, &[0o000777])], &[(0, E)]),
                segment(128, &[], &lower),
                segment(1, &[], &upper),
                // MOV @#017776,R3, MOV @#020000,R4, call 30
                segment(
                    1,
                    &[(0, &[0o013703, 0o017776, 0o013704, 0o020000, 0o104030])],
                    &[(1, E)],
                ),
            ],
            ..SYSTEM
        };
        let wanted: Wanted = if taken {
            (
                b"F 0 0 0 7 000002 enter
C 1 2 1 030 000000 000000 000000 000002 174000 000000 ? 20
",
                6,
                12,
                1,
            )
        } else {
            (
                b"F 0 0 0 7 000002 stop
C 1 2 1 030 000000 000000 000000 000000 000000 000000 ? 20
",
                6,
                8,
                1,
            )
        };
        check(&rt, rt.alloc(), &system, &[&[], &[]], wanted)?;
    }
    Ok(())
}

// Instructions that end in a fault by themselves, and the trace bit as RTI and RTT set it: both pop PC 000100 and T.
#[test]
fn stops_at_traps_and_traces(rt: HostRuntime) -> Result<(), Fail> {
    let rows: [(u16, Wanted); 6] = [
        (0o000000, (b"F 0 0 0 4 000000 stop\n", 4, 1, 0)),
        (0o000003, (b"F 0 0 0 5 000002 stop\n", 4, 1, 0)),
        (0o000004, (b"F 0 0 0 6 000002 stop\n", 4, 1, 0)),
        (0o104400, (b"F 0 0 0 7 000002 stop\n", 4, 1, 0)),
        (0o000002, (b"F 0 0 0 5 000100 stop\n", 4, 3, 0)),
        // The call goes by, and WAIT is the first that faults.
        (
            0o000006,
            (
                b"C 0 1 0 030 000000 000000 000000 000000 000000 000000 ? 20
F 0 2 0 5 000104 stop
",
                4,
                5,
                1,
            ),
        ),
    ];
    for (word, wanted) in rows {
        let first = [word];
        let words: [Part; 2] = [(0, &first), (0o100, &[0o104030, 0o000001])];
        let system = System {
            turns: 4,
            subjects: &[Subject {
                user: 0o020000,
                windows: &[(16, 0), (25, 1)],
                ..USER
            }],
            objects: &[
                segment(2, &words, &[(0, E)]),
                segment(1, &[(0, &[0o000100, 0o000020])], &[(0, R)]),
            ],
            ..SYSTEM
        };
        check(&rt, rt.alloc(), &system, &[&[]], wanted)?;
    }
    Ok(())
}
