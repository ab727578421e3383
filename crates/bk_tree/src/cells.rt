// What is found by path, and the cell that pays for an object.

ghost use Rattle.std.specs.Prelude.{◌≡◌, IsSome, is_some, Some};
ghost use Rattle.std.specs.FinMap as map;
ghost use Rattle.bk_quota.specs.Charges as charges;
ghost use Rattle.bk_tree.specs.Kept.{IsKept};
ghost use Rattle.bk_tree.specs.declared.place.Placed.{Placed};
ghost use Rattle.bk_tree.specs.Objects.{facts_of};
ghost use Rattle.bk_tree.specs.Places.{tree_of, IsApart};
ghost use Rattle.bk_tree.specs.Whole.{Finds};

use crate::guess::slot_for;
use crate::order::Entry;
use crate::place::{Object, object_at};
use bk_object::{Facts, Slot};
use bk_path::Path;
use bk_quota::FactsByPath;

// The facts of the object at the path.
fn facts_at(
    places: &Vec<Option<Object>>,
    order: &Vec<Entry>,
    guesses: &Vec<u16>,
    path: Path,
) -> Option<Facts>
    requires finds { Finds (tree_of places.now.items) order.now.items }
    requires apart { IsApart places.now.items }
    ensures { result ≡ charges.facts_in facts_of (tree_of places.now.items) path }
{
    match slot_for(places, order, guesses, path) {
        Some(slot) => Some(object_at(places, slot).facts),
        None => None,
    }
}

// Whether an object is at the path.
pub(crate) fn is_taken(
    places: &Vec<Option<Object>>,
    order: &Vec<Entry>,
    guesses: &Vec<u16>,
    path: Path,
) -> bool
    requires finds { Finds (tree_of places.now.items) order.now.items }
    requires apart { IsApart places.now.items }
    ensures { result ≡ is_some (map.get (tree_of places.now.items) path) }
{
    match facts_at(places, order, guesses, path) {
        Some(_) => true,
        None => false,
    }
}

// The level of the object at the path, or 0.
pub(crate) fn level_at(
    places: &Vec<Option<Object>>,
    order: &Vec<Entry>,
    guesses: &Vec<u16>,
    path: Path,
) -> u8
    requires finds { Finds (tree_of places.now.items) order.now.items }
    requires apart { IsApart places.now.items }
    ensures { result ≡ charges.level_in facts_of (tree_of places.now.items) path }
{
    match facts_at(places, order, guesses, path) {
        Some(facts) => facts.level,
        None => 0,
    }
}

// The places and the list of paths, as what tells facts by path.
#[derive(Clone, Copy)]
pub(crate) struct Told<'a> {
    places: &'a Vec<Option<Object>>,
    order: &'a Vec<Entry>,
    guesses: &'a Vec<u16>,
    ghost finds: { Finds (tree_of places.now.items) order.now.items },
    ghost apart: { IsApart places.now.items },
}

impl<'a> FactsByPath for Told<'a> {
    ghost Kept = { Placed };

    ghost facts_of = { facts_of };

    ghost objects = { λ told. tree_of told.places.now.items };

    fn facts_at(&self, path: Path) -> Option<Facts> {
        facts_at(self.places, self.order, self.guesses, path)
    }
}

// The nearest of the path and its ancestors that has a cell.
fn governing(
    places: &Vec<Option<Object>>,
    order: &Vec<Entry>,
    guesses: &Vec<u16>,
    path: Path,
) -> Path
    requires finds { Finds (tree_of places.now.items) order.now.items }
    requires apart { IsApart places.now.items }
    ensures { result ≡ charges.governing_in facts_of (tree_of places.now.items) path }
{
    bk_quota::governing(
        &Told {
            places,
            order,
            guesses,
        },
        path,
    )
}

// The slot of the directory whose cell governs the one at the path.
pub(crate) fn payer(
    places: &Vec<Option<Object>>,
    order: &Vec<Entry>,
    guesses: &Vec<u16>,
    path: Path,
) -> Slot
    requires finds { Finds (tree_of places.now.items) order.now.items }
    requires apart { IsApart places.now.items }
    requires kept { IsKept (tree_of places.now.items) }
    requires there { IsSome (map.get (tree_of places.now.items) path) }
    ensures { (a : Placed) × (map.get (tree_of places.now.items) (charges.governing_in facts_of (tree_of places.now.items) path) ≡ Some a) × (a.slot ≡ result.n) }
{
    slot_for(
        places,
        order,
        guesses,
        governing(places, order, guesses, path),
    )
    .unwrap()
}
