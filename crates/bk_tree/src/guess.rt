// Guesses where the object of a path has its place. A guess may be wrong, so that the place's own path decides; where it is, the
// list of paths is searched.

ghost use Rattle.std.specs.Prelude.{◌≡◌, ◌<◌, option_map, slice_get, true, unwrap_or, None, Some};
ghost use Rattle.std.specs.FinMap as map;
ghost use Rattle.std.specs.Ordering.{nat_cmp};
ghost use Rattle.bk_path.specs.Keys.{key_of};
ghost use Rattle.bk_path.specs.Paths.{IsPath};
ghost use Rattle.bk_tree.specs.declared.place.Object.{Object as Held};
ghost use Rattle.bk_tree.specs.Order.{keyed};
ghost use Rattle.bk_tree.specs.Places.{tree_of, IsApart};
ghost use Rattle.bk_tree.specs.Whole.{Finds};

use crate::order::{Entry, slot_at};
use crate::place::Object;
use bk_object::Slot;
use bk_path::Path;

/// How many guesses there are.
pub(crate) const GUESSES: u16 = 32768;

// Which of the guesses is that for a path's number: of the 4,096 for its depth, the entries scattered over 12 bits. So each path
// of at most three entries has a guess of its own, which root's, being 0 from the first, never loses.
fn guess_of(key: u32) -> usize
    ensures { result < 32768 }
{
    ((key / 8).wrapping_mul(2_654_435_769) / 65536 % 4096 + 4096 * (key % 8)) as usize
}

// The object of the path is guessed at the slot from now on.
pub(crate) fn expect_at(guesses: &mut Vec<u16>, path: Path, slot: Slot) {
    if let Some(guess) = guesses.get_mut(guess_of(path.key())) {
        *guess = slot.n;
    }
}

// Where the object of the path is guessed.
fn guess(guesses: &Vec<u16>, path: Path) -> Slot {
    match guesses.get(guess_of(path.key())) {
        Some(slot) => Slot { n: *slot },
        None => Slot { n: 0 },
    }
}

// What the place holds.
fn held(places: &Vec<Option<Object>>, slot: Slot) -> Option<Object>
    ensures { result ≡ unwrap_or (slice_get places.now.items slot.n) None }
{
    match places.get(slot.n as usize) {
        Some(held) => *held,
        None => None,
    }
}

// Whether the object of the path has the place.
fn is_at(places: &Vec<Option<Object>>, slot: Slot, path: Path) -> bool
    ensures { result ≡ true → (x : Held) × (unwrap_or (slice_get places.now.items slot.n) None ≡ Some x) × (x.path ≡ path) }
{
    match held(places, slot) {
        Some(object) => object.path == path,
        None => false,
    }
}

// The slot of the object at the path.
pub(crate) fn slot_for(
    places: &Vec<Option<Object>>,
    order: &Vec<Entry>,
    guesses: &Vec<u16>,
    path: Path,
) -> Option<Slot>
    requires finds { Finds (tree_of places.now.items) order.now.items }
    requires apart { IsApart places.now.items }
    ensures slot { option_map (λ slot. slot.n) result ≡ map.find nat_cmp (key_of path) (keyed order.now.items) }
    ensures path { IsPath path }
{
    let slot = guess(guesses, path);
    if is_at(places, slot, path) {
        let _key = path.key();
        Some(slot)
    } else {
        slot_at(order, path)
    }
}
