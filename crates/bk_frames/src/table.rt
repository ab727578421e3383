// Where the segment of each slot stands, and whose each block is.

ghost use Rattle.std.specs.Prelude.{◌≡◌, ℕ, ◌+◌, ◌<◌, ◌≤◌, ◌⊎◌, length, slice_get, slice_set, true, false, None, Some, IfNone, IfSome};
ghost use Rattle.bk_core.specs.Memory.{blocks_of_core};
ghost use Rattle.bk_frames.specs.Table.{place_of, IsFull, IsHole, IsMarked};

use bk_object::Slot;

/// Where a segment stands: its first block, and how many blocks it has.
#[derive(Clone, Copy)]
pub(crate) struct Placed {
    pub(crate) first: u32,
    pub(crate) blocks: u8,
}

// Where the slot's segment stands.
pub(crate) fn place_for(places: &Vec<Option<Placed>>, slot: Slot) -> Option<Placed>
    ensures { result ≡ place_of places.now.items slot.n }
{
    match places.get(slot.n as usize) {
        Some(place) => *place,
        None => None,
    }
}

// The segment of the slot stands there from now on, or none does.
pub(crate) fn put(places: &mut Vec<Option<Placed>>, slot: u16, place: Option<Placed>)
    requires { slot < length places.old.items }
    ensures { places.new.items ≡ slice_set places.old.items slot place }
{
    places[slot as usize] = place;
}

// The lowest of so many blocks in a row that are nobody's. Each block below the low one is somebody's.
pub(crate) fn lowest_hole(owners: &Vec<Option<u16>>, low: u32, blocks: u8) -> Option<u32>
    requires few { length owners.now.items ≤ blocks_of_core }
    requires some { 1 ≤ blocks }
    requires low { IsFull owners.now.items low }
    requires reach { low ≤ length owners.now.items }
    ensures some { IfSome result (λ at. IsHole owners.now.items at blocks × ((k : ℕ) → IsHole owners.now.items k blocks → at ≤ k)) }
    ensures none { IfNone result ((k : ℕ) → IsHole owners.now.items k blocks → ⊥) }
{
    let mut run = 0;
    for block in low as usize..owners.len() {
        if is_free(owners, block) {
            run += 1;
            if run == blocks {
                return Some(block as u32 + 1 - u32::from(blocks));
            }
        } else {
            run = 0;
        }
    }
    None
}

fn is_free(owners: &Vec<Option<u16>>, block: usize) -> bool
    requires { block < length owners.now.items }
    ensures free { result ≡ true → slice_get owners.now.items block ≡ Some None }
    ensures taken { result ≡ false → slice_get owners.now.items block ≡ Some None → ⊥ }
{
    owners[block].is_none()
}

// So many blocks from the first on have this owner from now on.
pub(crate) fn mark(owners: &mut Vec<Option<u16>>, first: u32, blocks: u8, owner: Option<u16>)
    requires within { first + blocks ≤ length owners.old.items }
    requires few { length owners.old.items ≤ blocks_of_core }
    ensures { IsMarked owners.old.items owners.new.items first blocks owner }
{
    for block in first..first + u32::from(blocks) {
        set_owner(owners, block, owner);
    }
}

fn set_owner(owners: &mut Vec<Option<u16>>, block: u32, owner: Option<u16>)
    requires { block < length owners.old.items }
    ensures { owners.new.items ≡ slice_set owners.old.items block owner }
{
    owners[block as usize] = owner;
}

// The lowest block below which none is free, once so many blocks from one on are taken.
pub(crate) fn raised(low: u32, block: u32, blocks: u8) -> u32
    requires { block + blocks ≤ blocks_of_core }
    ensures { (result ≡ low) ⊎ ((block ≡ low) × (result ≡ low + blocks)) }
{
    if block == low {
        low + u32::from(blocks)
    } else {
        low
    }
}
