// Rows of calls, each made in turn and compared with what the row says.

use super::fixture::{System, ask};
use bk_calls::{Answer, Caller, LineByte};
use std::process::Abort;

// Who calls: the first subject, at level 0, and the second, at level 1.
pub(crate) const FIRST: Caller = Caller {
    subject: 0,
    f_s: 0,
    f_c: 0,
    subjects: 2,
};

pub(crate) const SECOND: Caller = Caller {
    subject: 1,
    f_s: 1,
    f_c: 1,
    subjects: 2,
};

// One at level 0 that may rise to level 1, and the same once it has risen.
pub(crate) const RISING: Caller = Caller {
    subject: 0,
    f_s: 1,
    f_c: 0,
    subjects: 2,
};

pub(crate) const RISEN: Caller = Caller {
    subject: 0,
    f_s: 1,
    f_c: 1,
    subjects: 2,
};

// The caller, the number of the call, R0 to R5, and the answer.
pub(crate) type Row = (Caller, u8, [u16; 6], Answer);

// The row's call is answered as the row says.
pub(crate) fn step(rt: &impl Abort, system: &mut System, row: &Row) {
    let (caller, number, general, answer) = *row;
    system.caller = caller;
    let told = ask(system, number, general);
    let by = caller.subject;
    assert_eq!(rt;
        told,
        Some(answer),
        "call {number} by {by} with {general:?}"
    );
}

// Each row's call in turn.
pub(crate) fn answers(rt: &impl Abort, system: &mut System, rows: &[Row]) {
    for row in rows {
        step(rt, system, row);
    }
}

// Each row's call in turn, and what R0 to R5 are after it.
pub(crate) fn tells(rt: &impl Abort, system: &mut System, rows: &[(Row, [u16; 6])]) {
    for (row, after) in rows {
        step(rt, system, row);
        leaves(rt, system, row.1, *after);
    }
}

fn leaves(rt: &impl Abort, system: &System, number: u8, after: [u16; 6]) {
    assert_eq!(rt;
        system.process.registers.general,
        after,
        "after call {number}"
    );
}

// The last call raised its caller to that level, or to none.
pub(crate) fn raises(rt: &impl Abort, system: &System, level: Option<u8>) {
    assert_eq!(rt; system.level, level);
}

// The last call sent that byte, or none.
pub(crate) fn sends(rt: &impl Abort, system: &System, sent: Option<LineByte>) {
    assert_eq!(rt; system.sent, sent);
}
