// The list of places, and what is looked up in it.

ghost use Rattle.std.specs.Prelude.{◌≡◌, ◌+◌, ◌-◌, ◌<◌, ◌≤◌, ◌↔◌, ◌++◌, ◌∷◌, [], IsTrue, length, slice_get, slice_index_or, slice_set, IfOk, None, Some, replicate};
ghost use Rattle.std.specs.Vec.{vec_capacity};
ghost use Rattle.bk_quota.specs.Usage.{Usage, charged};
ghost use Rattle.bk_tree.specs.declared.place.Object.{Object as Held};

use bk_object::{Facts, Row, Slot};
use bk_path::Path;
use bk_quota::Cell;

/// What the tree keeps of a path: the number of its slot, and the facts of its object.
#[derive(Clone, Copy, Debug)]
pub struct Placed {
    pub slot: u16,
    pub facts: Facts,
}

// What a place holds.
#[derive(Clone, Copy)]
pub(crate) struct Object {
    pub(crate) path: Path,
    pub(crate) facts: Facts,
}

// The object that has the place.
pub(crate) fn object_at(places: &Vec<Option<Object>>, slot: Slot) -> Object
    requires { (held : Held) × (slice_get places.now.items slot.n ≡ Some (Some held)) }
    ensures { slice_get places.now.items slot.n ≡ Some (Some result) }
{
    places[slot.n as usize].unwrap()
}

// The place holds this from now on.
pub(crate) fn put(places: &mut Vec<Option<Object>>, slot: Slot, held: Option<Object>)
    requires { slot.n < length places.old.items }
    ensures { places.new.items ≡ slice_set places.old.items slot.n held }
{
    places[slot.n as usize] = held;
}

// The object with this row.
pub(crate) fn with_row(object: Object, row: Row) -> Object
    ensures { result ≡ record { path = object.path; facts = record object.facts { row = row } } }
{
    Object {
        path: object.path,
        facts: Facts {
            row,
            ..object.facts
        },
    }
}

// Takes a charge from the cell of the place: whether it fits. Where it doesn't, nothing changes.
pub(crate) fn charge_at(cells: &mut Vec<Cell>, slot: Slot, charge: u16) -> bool
    requires { (cell : Usage) × (slice_get cells.old.items slot.n ≡ Some cell) }
    ensures fits { (cell : Usage) → slice_get cells.old.items slot.n ≡ Some cell → IsTrue result ↔ (cell.used + charge ≤ cell.limit) }
    ensures after { (cell : Usage) → slice_get cells.old.items slot.n ≡ Some cell → cells.new.items ≡ slice_set cells.old.items slot.n (charged cell charge result) }
{
    let mut cell = cell_at(cells, slot);
    let fits = cell.charge(charge);
    put_cell(cells, slot, cell);
    fits
}

// Gives a charge back to the cell of the place.
pub(crate) fn give_back_at(cells: &mut Vec<Cell>, slot: Slot, charge: u16)
    requires { (cell : Usage) × (slice_get cells.old.items slot.n ≡ Some cell) × (charge < cell.used) }
    ensures { (cell : Usage) → slice_get cells.old.items slot.n ≡ Some cell → cells.new.items ≡ slice_set cells.old.items slot.n (record cell { used = cell.used - charge }) }
{
    let mut cell = cell_at(cells, slot);
    cell.give_back(charge);
    put_cell(cells, slot, cell);
}

// The cell of the place.
pub(crate) fn cell_at(cells: &Vec<Cell>, slot: Slot) -> Cell
    requires { (cell : Usage) × (slice_get cells.now.items slot.n ≡ Some cell) }
    ensures { slice_get cells.now.items slot.n ≡ Some result }
{
    cells[slot.n as usize]
}

// The place has this cell from now on.
pub(crate) fn put_cell(cells: &mut Vec<Cell>, slot: Slot, cell: Cell)
    requires { slot.n < length cells.old.items }
    ensures { cells.new.items ≡ slice_set cells.old.items slot.n cell }
{
    cells[slot.n as usize] = cell;
}

// The place is free from now on.
pub(crate) fn push_free(free: &mut Vec<u16>, slot: Slot)
    requires { length free.old.items < vec_capacity free.old }
    ensures items { free.new.items ≡ free.old.items ++ slot.n ∷ [] }
    ensures capacity { vec_capacity free.old ≤ vec_capacity free.new }
{
    let _ = free.push(slot.n);
}
