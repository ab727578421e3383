// Tests of what no clause says: that modes and rows work together through `Flags`.

use crate::{Kind, Modes, Row, RowOf};
use bitflags::Flags;

// The numbers of the kinds' modes: r 1, e 2, w 4, a 8.
#[test]
fn kinds_have_their_modes(rt: HostRuntime) {
    let rows = [
        (Kind::Directory, 5),
        (Kind::Segment, 15),
        (Kind::Mailbox, 12),
        (Kind::Line(3), 12),
    ];
    for (kind, bits) in rows {
        assert_eq!(rt; kind.modes().bits(), bits);
    }
}

// A row keeps what each subject has, beside its neighbour's.
#[test]
fn rows_keep_each_subject_apart(rt: HostRuntime) {
    let mut row = Row::new();
    row.add(6, Modes::R | Modes::W);
    row.add(7, Modes::A);
    row.add(6, Modes::E);
    row.remove(6, Modes::W);
    assert_eq!(rt; row.get(6).bits(), 3);
    assert_eq!(rt; row.get(7).bits(), 8);
    assert_eq!(rt; row.get(31).bits(), 0);
    row.add(63, Modes::E);
    assert_eq!(rt; row.get(63).bits(), 2);
    assert_eq!(rt; row.get(31).bits(), 0);
    assert!(rt; row.get(6).contains(Modes::R));
    assert_eq!(rt; Modes::from_bits(16), None);
}

// A row of 32 subjects widened keeps theirs, and subject 32 has nothing of subject 0.
#[test]
fn widened_rows_keep_each_subject(rt: HostRuntime) {
    let mut row = RowOf::<16>::new();
    row.add(0, Modes::R);
    row.add(31, Modes::W | Modes::A);
    let wide = row.widen();
    assert_eq!(rt; wide.get(0).bits(), 1);
    assert_eq!(rt; wide.get(31).bits(), 12);
    assert_eq!(rt; wide.get(32).bits(), 0);
    assert_eq!(rt; wide.get(63).bits(), 0);
}
