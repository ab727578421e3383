// The current access set, by slots and subjects.

ghost use Rattle.std.specs.Prelude.{◌≡◌, ◌<◌, ◌≤◌, ℕ, length, slice_index_or, slice_set, [], true, false, IfOk, IfSome, IsNone};
ghost use Rattle.std.specs.List.{All};
ghost use Rattle.bk_object.specs.Modes.{no_modes, union, without};
ghost use Rattle.bk_object.specs.Rows.{empty_row, in_row, most_subjects};
ghost use Rattle.bk_access.specs.Held.{added, cleared, modes_at, nothing_held, puts, removed, IsNextPut};

use bitflags::Flags;
use bk_base::NoMemory;
use bk_object::{Modes, Row, Slot};
use std::alloc::Global;
use std::marker::Model;

/// The current access set (MTR-2997): which subject holds which object by which modes now. An object is named by its
/// slot in the table of objects, a subject by its number, below `MOST_SUBJECTS`.
///
/// It keeps four bits for each subject and slot, 32 bytes a slot. A clause sees the map from subject and slot to modes, and
/// the number that all slots are below.
#[derive(Drop)]
pub struct Access {
    rows: Vec<Row>,
}

impl Model for Access {
    ghost use Rattle.bk_access.specs.Held.{Held};

    ghost Value = { Held };

    ghost use Rattle.std.specs.Coded.{codes};
    ghost use Rattle.std.specs.FinMap as map;

    ghost coded = { Prim.hlevel (codes, map.code) };

    ghost use Rattle.bk_access.specs.Table.{held_in, HasRows};

    ghost view = { held_in };

    ghost invariant = { HasRows };
}

impl Access {
    /// The set in which no subject holds anything, for slots below the number. All memory is taken here; `NoMemory`
    /// comes where the host has no more.
    pub fn reserve(alloc: Global, slots: u16) -> Result<Access, NoMemory>
        ensures { IfOk result (λ access. access ≡ nothing_held slots) }
    {
        let rows = vec![in alloc; Row::new(); slots as usize]?;
        Ok(Access { rows })
    }

    /// The modes by which the subject holds the slot's object; none at first. Nothing is held for other
    /// subjects or at other slots than those of `reserve`.
    pub fn modes(&self, subject: u8, slot: Slot) -> Modes
        requires subject { subject < most_subjects }
        requires slot { slot.n < self.now.slots }
        ensures value { result ≡ modes_at self.now subject slot.n }
        ensures four { result.0 < 16 }
        ensures outside { (s k : ℕ) → ¬ ((s < most_subjects) × (k < self.now.slots)) → modes_at self.now s k ≡ no_modes }
    {
        modes_in(&self.rows, subject, slot)
    }

    /// The first slot from one number on and below another whose object the subject holds by write or append: None exactly
    /// where there is none.
    pub fn next_put(&self, subject: u8, from: u16, to: u16) -> Option<Slot>
        requires subject { subject < most_subjects }
        requires slots { to ≤ self.now.slots }
        ensures some { IfSome result (λ slot. IsNextPut self.now subject from slot.n × (slot.n < to)) }
        ensures none { IsNone result → (k : ℕ) → from ≤ k → k < to → puts (modes_at self.now subject k) ≡ false }
    {
        let at = next_put_in(&self.rows, subject, from, to);
        if at < to { Some(Slot { n: at }) } else { None }
    }

    /// The subject holds the slot's object by these modes too. All else that is held stays.
    pub fn add(&mut self, subject: u8, slot: Slot, modes: Modes)
        requires subject { subject < most_subjects }
        requires slot { slot.n < self.old.slots }
        ensures { self.new ≡ added subject slot.n modes self.old }
    {
        add_in(&mut self.rows, subject, slot, modes);
    }

    /// The subject no longer holds the slot's object by these modes; of modes that it doesn't hold nothing
    /// changes. All else that is held stays.
    pub fn remove(&mut self, subject: u8, slot: Slot, modes: Modes)
        requires subject { subject < most_subjects }
        requires slot { slot.n < self.old.slots }
        ensures { self.new ≡ removed subject slot.n modes self.old }
    {
        remove_in(&mut self.rows, subject, slot, modes);
    }

    /// No subject holds the slot's object by any mode any more. What is held of all other objects stays.
    pub fn clear_object(&mut self, slot: Slot)
        requires { slot.n < self.old.slots }
        ensures { self.new ≡ cleared slot.n self.old }
    {
        clear_in(&mut self.rows, slot);
    }
}

// The subject's modes in the slot's row.
fn modes_in(rows: &Vec<Row>, subject: u8, slot: Slot) -> Modes
    requires subject { subject < most_subjects }
    requires slot { slot.n < length rows.now.items }
    ensures value { result ≡ in_row (slice_index_or rows.now.items slot.n []) subject }
    ensures four { result.0 < 16 }
{
    rows[slot.n as usize].get(subject)
}

// The first place from one on at which the subject has write or append, if that is below the other.
fn next_put_in(rows: &Vec<Row>, subject: u8, from: u16, to: u16) -> u16
    requires subject { subject < most_subjects }
    requires slots { to ≤ length rows.now.items }
    ensures within { from ≤ result }
    ensures found { result < to → puts (in_row (slice_index_or rows.now.items result []) subject) ≡ true }
    ensures first { (k : ℕ) → from ≤ k → k < result → puts (in_row (slice_index_or rows.now.items k []) subject) ≡ false }
{
    let mut at = from;
    while at < to && !puts(modes_in(rows, subject, Slot { n: at })) {
        at += 1;
    }
    at
}

// The set has write or append.
fn puts(modes: Modes) -> bool
    requires { modes.0 < 16 }
    ensures { result ≡ puts modes }
{
    modes.bits() >= 4
}

// The subject has these modes too in the slot's row.
fn add_in(rows: &mut Vec<Row>, subject: u8, slot: Slot, modes: Modes)
    requires subject { subject < most_subjects }
    requires slot { slot.n < length rows.old.items }
    ensures value { rows.new.items ≡ slice_set rows.old.items slot.n (slice_set (slice_index_or rows.old.items slot.n []) subject (union (in_row (slice_index_or rows.old.items slot.n []) subject) modes)) }
    ensures whole { All (λ row. length row ≡ most_subjects) rows.old.items → All (λ row. length row ≡ most_subjects) rows.new.items }
{
    rows[slot.n as usize].add(subject, modes);
}

// The subject no longer has these modes in the slot's row.
fn remove_in(rows: &mut Vec<Row>, subject: u8, slot: Slot, modes: Modes)
    requires subject { subject < most_subjects }
    requires slot { slot.n < length rows.old.items }
    ensures value { rows.new.items ≡ slice_set rows.old.items slot.n (slice_set (slice_index_or rows.old.items slot.n []) subject (without (in_row (slice_index_or rows.old.items slot.n []) subject) modes)) }
    ensures whole { All (λ row. length row ≡ most_subjects) rows.old.items → All (λ row. length row ≡ most_subjects) rows.new.items }
{
    rows[slot.n as usize].remove(subject, modes);
}

// The slot's row has nothing.
fn clear_in(rows: &mut Vec<Row>, slot: Slot)
    requires { slot.n < length rows.old.items }
    ensures value { rows.new.items ≡ slice_set rows.old.items slot.n empty_row }
    ensures whole { All (λ row. length row ≡ most_subjects) rows.old.items → All (λ row. length row ≡ most_subjects) rows.new.items }
{
    rows[slot.n as usize] = Row::new();
}
