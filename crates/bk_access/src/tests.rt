// Tests of what no clause says: a set with ample memory, through its calls one after another.

use crate::Access;
use bitflags::Flags;
use bk_base::NoMemory;
use bk_object::{Modes, Row, Slot};
use std::mem::size_of;

// What is added is held until it is removed.
#[test]
fn holds_what_was_added(rt: HostRuntime) -> Result<(), NoMemory> {
    let slot = Slot { n: 3903 };
    let mut access = Access::reserve(rt.alloc(), 3904)?;
    assert_eq!(rt; access.modes(63, slot).bits(), 0);
    access.add(63, slot, Modes::R);
    access.add(63, slot, Modes::W);
    assert_eq!(rt; access.modes(63, slot).bits(), 5);
    access.remove(63, slot, Modes::R);
    assert_eq!(rt; access.modes(63, slot).bits(), 4);
    Ok(())
}

// Two subjects and two slots stand apart, and clearing one slot clears it for both subjects.
#[test]
fn keeps_subjects_and_slots_apart(rt: HostRuntime) -> Result<(), NoMemory> {
    let (near, far) = (Slot { n: 0 }, Slot { n: 1 });
    let mut access = Access::reserve(rt.alloc(), 2)?;
    access.add(0, near, Modes::R);
    access.add(1, near, Modes::E);
    access.add(0, far, Modes::W);
    access.add(1, far, Modes::A);
    access.remove(0, near, Modes::R);
    assert_eq!(rt; access.modes(1, near).bits(), 2);
    assert_eq!(rt; access.modes(0, far).bits(), 4);
    access.clear_object(far);
    assert_eq!(rt; access.modes(0, far).bits(), 0);
    assert_eq!(rt; access.modes(1, far).bits(), 0);
    assert_eq!(rt; access.modes(1, near).bits(), 2);
    Ok(())
}

// Four bits for each of 64 subjects: 32 bytes a slot, 124,928 for 3,904 slots.
#[test]
fn takes_32_bytes_a_slot(rt: HostRuntime) {
    assert_eq!(rt; size_of::<Row>(), 32);
}
