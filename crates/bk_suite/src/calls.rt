// Worked calls, with expected values from the description of the calls.

mod fixture;
mod steps;

use bk_calls::Answer::{No, Unknown, Yes};
use bk_calls::LineByte;
use fixture::{System, sample};
use std::process::Abort;
use steps::{FIRST, RISEN, RISING, Row, SECOND, answers, raises, sends, step, tells};

// The words of paths of one entry and of two, the first of them 1.
const ROOT: u16 = 0o000000;

const CHILD_0: u16 = 0o010000;

const CHILD_1: u16 = 0o010400;

const CHILD_2: u16 = 0o011000;

const BELOW_1: [u16; 5] = [0o020400, 0o020420, 0o020440, 0o020460, 0o020500];

// The second subject of the sample tells what it may.
const TELLING: [(Row, [u16; 6]); 4] = [
    (
        (SECOND, 0o21, [0, ROOT, 0, 2, 0, 0], Yes),
        [0, 0, 0o1401, 1, 4, 4],
    ),
    (
        (SECOND, 0o21, [0, ROOT, 0, 5, 0, 0], No(9)),
        [1, 9, 0, 5, 0, 0],
    ),
    (
        (SECOND, 0o23, [0, ROOT, 0, 0, 0, 0], Yes),
        [0, 0, 0o20, 4, 0, 0],
    ),
    ((SECOND, 0o22, [7, 7, 7, 7, 7, 7], Yes), [0, 0, 1, 1, 1, 7]),
];

#[test]
fn tells_a_subject_of_the_sample(rt: HostRuntime) {
    let mut system = sample(&rt, rt.alloc());
    tells(&rt, &mut system, &TELLING);
}

// By one who holds r on root and not w, and at level 0: a segment of one block at level 1, whose row grants a. Before that the
// first subject makes the segment, and gives up w.
const APPENDING: [Row; 9] = [
    (FIRST, 0o11, [0, CHILD_1, 0, 0, 0, 0], Yes),
    (FIRST, 0o10, [0, CHILD_1, 0, 0o401, 1, 0], Yes),
    (FIRST, 0o6, [0, CHILD_1, 0, 8, 0, 0], Yes),
    (FIRST, 0o5, [0, ROOT, 0, 4, 0, 0], Yes),
    (FIRST, 0o2, [0, CHILD_1, 0, 0, 0, 0], Yes),
    (FIRST, 0o14, [0, CHILD_1, 0, 0o76, 0o177777, 0], Yes),
    (FIRST, 0o14, [0, CHILD_1, 0, 0o100, 0, 0], No(10)),
    (FIRST, 0o14, [0, CHILD_1, 0, 0o77, 0, 0], Unknown(24)),
    (FIRST, 0o1, [0, CHILD_1, 0, 0, 0, 0], No(1)),
];

#[test]
fn appends_to_a_higher_segment(rt: HostRuntime) {
    let mut system = sample(&rt, rt.alloc());
    answers(&rt, &mut system, &APPENDING);
}

// What is below a directory of which nothing is held isn't named, nor is what is below a segment that is held by w.
const NAMING: [Row; 12] = [
    (FIRST, 0o11, [0, CHILD_1, 0, 0, 0, 0], Yes),
    (FIRST, 0o10, [0, CHILD_1, 0, 0, 0, 5], Yes),
    (FIRST, 0o6, [0, CHILD_1, 0, 1, 0, 0], Yes),
    (FIRST, 0o1, [0, BELOW_1[2], 0, 0, 0, 0], Unknown(22)),
    (FIRST, 0o1, [0, CHILD_1, 0, 0, 0, 0], Yes),
    (FIRST, 0o1, [0, BELOW_1[2], 0, 0, 0, 0], Unknown(25)),
    (FIRST, 0o1, [0, 0o100000, 0, 0, 0, 0], Unknown(21)),
    (FIRST, 0o30, [0, 0, 0, 0, 0, 0], Unknown(20)),
    (FIRST, 0, [0, 0, 0, 0, 0, 0], Unknown(20)),
    (FIRST, 0o6, [0, CHILD_0, 0, 4, 0, 0], Yes),
    (FIRST, 0o4, [0, CHILD_0, 0, 0, 0, 0], Yes),
    (FIRST, 0o1, [0, 0o020020, 0, 0, 0, 0], Unknown(22)),
];

#[test]
fn names_what_is_below_a_held_directory(rt: HostRuntime) {
    let mut system = sample(&rt, rt.alloc());
    answers(&rt, &mut system, &NAMING);
}

// A mailbox at a higher level.
const MAILBOX: [Row; 5] = [
    (FIRST, 0o11, [0, CHILD_1, 0, 0, 0, 0], Yes),
    (FIRST, 0o10, [0, CHILD_1, 0, 0o1000, 1, 0], Yes),
    (FIRST, 0o6, [0, CHILD_1, 0, 8, 0, 0], Yes),
    (FIRST, 0o6, [0, CHILD_1, 0, 4, 1, 0], Yes),
    (FIRST, 0o2, [0, CHILD_1, 0, 0, 0, 0], Yes),
];

fn sends_seventeen(rt: &impl Abort, system: &mut System) {
    for n in 0..17 {
        step(rt, system, &(FIRST, 0o15, [n, CHILD_1, 0, 1, 2, 3], Yes));
    }
}

fn receives_sixteen(rt: &impl Abort, system: &mut System) {
    for n in 0..16 {
        let lost = if n == 0 { 1 } else { 0 };
        let row = (SECOND, 0o16, [0, CHILD_1, 0, 0, 0, 0], Yes);
        tells(rt, system, &[(row, [0, lost, n, 1, 2, 3])]);
    }
}

// Seventeen messages to an empty mailbox at a higher level, each answered yes: sixteen wait, and the first that is received
// tells of one lost.
#[test]
fn loses_the_seventeenth_message(rt: HostRuntime) {
    let mut system = sample(&rt, rt.alloc());
    answers(&rt, &mut system, &MAILBOX);
    sends_seventeen(&rt, &mut system);
    let get_write = (SECOND, 0o4, [0, CHILD_1, 0, 0, 0, 0], Yes);
    step(&rt, &mut system, &get_write);
    receives_sixteen(&rt, &mut system);
    let receive = (SECOND, 0o16, [0, CHILD_1, 0, 0, 0, 0], No(9));
    step(&rt, &mut system, &receive);
}

// Root is alone. Below it an upgraded directory with a quota of 5, and below that segments of one block. The cell of root is
// told before these, and at the end.
const CREATING: [Row; 4] = [
    (FIRST, 0o11, [0, CHILD_0, 0, 0, 0, 0], Yes),
    (FIRST, 0o11, [0, CHILD_1, 0, 0, 0, 0], Yes),
    (FIRST, 0o11, [0, CHILD_2, 0, 0, 0, 0], Yes),
    (FIRST, 0o10, [0, CHILD_1, 0, 0, 1, 5], Yes),
];

const WITHIN_QUOTA: [Row; 15] = [
    (FIRST, 0o6, [0, CHILD_1, 0, 5, 1, 0], Yes),
    (SECOND, 0o1, [0, CHILD_1, 0, 0, 0, 0], Yes),
    (SECOND, 0o10, [0, BELOW_1[0], 0, 0o401, 1, 0], No(4)),
    (SECOND, 0o4, [0, CHILD_1, 0, 0, 0, 0], Yes),
    (SECOND, 0o10, [0, BELOW_1[0], 0, 0o401, 1, 0], Yes),
    (SECOND, 0o10, [0, BELOW_1[1], 0, 0o401, 1, 0], Yes),
    (SECOND, 0o10, [0, BELOW_1[2], 0, 0o401, 1, 0], Yes),
    (SECOND, 0o10, [0, BELOW_1[3], 0, 0o401, 1, 0], Yes),
    (SECOND, 0o10, [0, BELOW_1[4], 0, 0o401, 1, 0], No(7)),
    (SECOND, 0o10, [0, BELOW_1[3], 0, 0o401, 1, 0], No(6)),
    (SECOND, 0o10, [0, BELOW_1[4], 0, 0o401, 0, 0], No(5)),
    (SECOND, 0o10, [0, CHILD_0, 0, 0o401, 1, 0], No(4)),
    (SECOND, 0o11, [0, BELOW_1[1], 0, 0, 0, 0], Yes),
    (FIRST, 0o11, [0, CHILD_1, 0, 0, 0, 0], Yes),
    (FIRST, 0o11, [0, ROOT, 0, 0, 0, 0], No(11)),
];

const QUOTA_OF_ROOT: [(Row, [u16; 6]); 2] = [
    (
        (FIRST, 0o23, [0, ROOT, 0, 0, 0, 0], Yes),
        [0, 0, 16, 6, 0, 0],
    ),
    (
        (FIRST, 0o23, [0, ROOT, 0, 0, 0, 0], Yes),
        [0, 0, 16, 1, 0, 0],
    ),
];

#[test]
fn creates_while_the_quota_lasts(rt: HostRuntime) {
    let mut system = sample(&rt, rt.alloc());
    answers(&rt, &mut system, &CREATING);
    tells(&rt, &mut system, &QUOTA_OF_ROOT[..1]);
    answers(&rt, &mut system, &WITHIN_QUOTA);
    tells(&rt, &mut system, &QUOTA_OF_ROOT[1..]);
}

// The calls that no other case answers yes: get-execute, rescind, window and unwindow; and those that change the process alone.
const ANSWERED: [Row; 7] = [
    (FIRST, 0o3, [0, CHILD_0, 0, 0, 0, 0], Yes),
    (FIRST, 0o12, [0, CHILD_0, 0, 31, 0, 0], Yes),
    (FIRST, 0o7, [0, CHILD_0, 0, 3, 0, 0], Yes),
    (FIRST, 0o13, [0, 0, 0, 31, 0, 0], Yes),
    (FIRST, 0o25, [0, 0, 0, 7, 0o200, 0], Yes),
    (FIRST, 0o24, [0, 0, 0, 0, 0, 0], Yes),
    (FIRST, 0o26, [0, 0, 0, 0, 0, 0], Yes),
];

// A typed byte is read.
const LINE_IN: [(Row, [u16; 6]); 1] = [(
    (SECOND, 0o20, [0, CHILD_2, 0, 0, 0, 0], Yes),
    [0, 0, 0o150, 0, 0, 0],
)];

// And a byte goes out on the line.
#[test]
fn reads_and_writes_a_line(rt: HostRuntime) {
    let mut system = sample(&rt, rt.alloc());
    answers(&rt, &mut system, &ANSWERED);
    system.store.type_byte(1, 0o150);
    tells(&rt, &mut system, &LINE_IN);
    sends(&rt, &system, None);
    let line_out = (SECOND, 0o17, [0, CHILD_2, 0, 0o550, 0, 0], Yes);
    step(&rt, &mut system, &line_out);
    let sent = LineByte {
        line: 1,
        byte: 0o150,
    };
    sends(&rt, &system, Some(sent));
}

// Holding w on a line at level 0 it can't rise to level 1, and what it appends to, a line at level 1, doesn't hinder it. Before
// that it comes to hold that line by a, and gives up w on root.
const HELD: [Row; 8] = [
    (RISING, 0o6, [0, CHILD_2, 0, 8, 0, 0], Yes),
    (RISING, 0o2, [0, CHILD_2, 0, 0, 0, 0], Yes),
    (RISING, 0o5, [0, ROOT, 0, 4, 0, 0], Yes),
    (RISING, 0o27, [0, 0, 0, 1, 0, 0], No(12)),
    (RISING, 0o5, [0, CHILD_1, 0, 4, 0, 0], Yes),
    (RISING, 0o27, [0, 0, 0, 2, 0, 0], No(2)),
    (RISING, 0o27, [0, 0, 0, 3, 0, 0], Unknown(24)),
    (RISING, 0o27, [0, 0, 0, 1, 0, 0], Yes),
];

// Once it has risen it can neither fall nor write to the line at level 0 again.
const ABOVE: [Row; 2] = [
    (RISEN, 0o27, [0, 0, 0, 0, 0, 0], No(3)),
    (RISEN, 0o4, [0, CHILD_1, 0, 0, 0, 0], No(3)),
];

const RISEN_TELLS: [(Row, [u16; 6]); 1] = [(
    (RISEN, 0o22, [7, 7, 7, 7, 7, 7], Yes),
    [0, 0, 0, 1, 1, 7],
)];

#[test]
fn raises_a_level_that_what_is_held_allows(rt: HostRuntime) {
    let mut system = sample(&rt, rt.alloc());
    answers(&rt, &mut system, &HELD[..7]);
    raises(&rt, &system, None);
    answers(&rt, &mut system, &HELD[7..]);
    raises(&rt, &system, Some(1));
    answers(&rt, &mut system, &ABOVE);
    tells(&rt, &mut system, &RISEN_TELLS);
}
