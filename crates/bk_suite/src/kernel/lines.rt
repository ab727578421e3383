// Typed bytes, and pauses that last until the slot ends.

use super::runs::{booted, check};
use super::{E, R, W};
use bk_fixture::{Object, Part, SYSTEM, Subject, System, USER, line, segment};
use bk_process::Status9;
use bk_report::ReportItem;
use std::test::Fail;

// Takes a typed byte and sends it out, then pauses, over and over.
const ECHO: [u16; 8] = [
    0o010501, 0o104020, 0o010203, 0o005002, 0o010501, 0o104017, 0o104024, 0o000770,
];

// A subject with a program in `/0`, and with the line `/1`, whose path begins with the word in R5.
const WITH_A_LINE: Subject = Subject {
    general: [0, 0, 0, 0, 0, 0o010400],
    ..USER
};

fn with_a_line<'a>(program: &'a [Part<'a>]) -> [Object<'a>; 2] {
    [segment(1, program, &[(0, E)]), line(0, &[(0, W)])]
}

fn system_of<'a>(turns: u16, subjects: &'a [Subject<'a>], objects: &'a [Object<'a>]) -> System<'a> {
    System {
        turns,
        subjects,
        root: &[(0, R)],
        objects,
        ..SYSTEM
    }
}

// Two bytes are typed before the first slot. A byte goes out right after its call, and a pause lasts until its slot ends.
#[test]
fn pauses_until_its_slot_ends(rt: HostRuntime) -> Result<(), Fail> {
    let objects = with_a_line(&[(0, &ECHO)]);
    let system = system_of(10, &[WITH_A_LINE], &objects);
    let report = b"C 0 1 0 020 000000 010400 000000 000000 000000 010400 yes 0
C 0 5 0 017 000000 010400 000000 000150 000000 010400 yes 0
L 0 5 0 150
C 0 6 0 024 000000 000000 000000 000150 000000 010400 yes 0
C 1 2 0 020 000000 010400 000000 000150 000000 010400 yes 0
C 1 6 0 017 000000 010400 000000 000151 000000 010400 yes 0
L 1 6 0 151
C 1 7 0 024 000000 000000 000000 000151 000000 010400 yes 0
";
    let typed: [(u8, &[u8]); 1] = [(0, b"hi")];
    check(
        &rt,
        rt.alloc(),
        &system,
        &[&typed, &[]],
        (report, 20, 15, 6),
    )?;
    Ok(())
}

// The same by turns, with nothing typed: its own turns in the slot are idle after the pause.
#[test]
fn is_paused_until_its_slot_ends(rt: HostRuntime) -> Result<(), Fail> {
    let objects = with_a_line(&[(0, &ECHO)]);
    let system = system_of(10, &[WITH_A_LINE], &objects);
    let mut run = booted(&rt, rt.alloc(), &system)?;
    'turns: for _ in 0..6 {
        run.turn();
    }
    assert_eq!(rt; run.status(&rt, 0), Status9::Running);
    let pause = ReportItem::Call {
        slot: 0,
        turn: 6,
        subject: 0,
        number: 0o24,
        regs: [0, 0, 0, 0, 0, 0o010400],
        answer: 0,
        cause: 0,
    };
    assert_eq!(rt; run.turn(), (Some(pause), None));
    assert_eq!(rt; run.status(&rt, 0), Status9::Paused);
    assert_eq!(rt; run.turn(), (None, None));
    run.end_slot();
    assert_eq!(rt; run.status(&rt, 0), Status9::Running);
    Ok(())
}
