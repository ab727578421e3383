// Which slot each path has: a list sorted by one number a path, and searched by halves.

ghost use Rattle.std.specs.Prelude.{◌≡◌, ℕ, ◌+◌, ◌-◌, ◌<◌, ◌≤◌, length, option_map, slice_get, IfNone, IfSome, Some};
ghost use Rattle.std.specs.FinMap as map;
ghost use Rattle.std.specs.Ordering.{nat_cmp};
ghost use Rattle.std.specs.List.{insert, remove};
ghost use Rattle.std.specs.Vec.{vec_capacity};
ghost use Rattle.bk_path.specs.Paths.{IsPath};
ghost use Rattle.bk_path.specs.Keys.{key_of, past_of};
ghost use Rattle.bk_tree.specs.Order.{keyed, rank, slot_if, IsLastOf, IsNoneOf, IsSorted};

use bk_object::Slot;
use bk_path::Path;

/// The number of a path, and the slot of its object.
#[derive(Clone, Copy)]
pub(crate) struct Entry {
    pub(crate) key: u32,
    pub(crate) slot: u16,
}

// How many numbers of the list are below that one.
pub(crate) fn rank(order: &Vec<Entry>, key: u32) -> usize
    requires { IsSorted order.now.items }
    ensures value { result ≡ rank key order.now.items }
    ensures within { result ≤ length order.now.items }
{
    order.partition_point(|entry| entry.key < key)
}

// The slot of the object at the path.
pub(crate) fn slot_at(order: &Vec<Entry>, path: Path) -> Option<Slot>
    requires { IsSorted order.now.items }
    ensures slot { option_map (λ slot. slot.n) result ≡ map.find nat_cmp (key_of path) (keyed order.now.items) }
    ensures path { IsPath path }
{
    let key = path.key();
    slot_if(entry_at(order, rank(order, key)), key)
}

// The entry that stands there, if one does.
fn entry_at(order: &Vec<Entry>, at: usize) -> Option<Entry>
    ensures { result ≡ slice_get order.now.items at }
{
    match order.get(at) {
        Some(entry) => Some(*entry),
        None => None,
    }
}

// The slot of an entry that has the number.
fn slot_if(entry: Option<Entry>, key: u32) -> Option<Slot>
    ensures { option_map (λ slot. slot.n) result ≡ slot_if key entry }
{
    match entry {
        Some(entry) => {
            if entry.key == key {
                Some(Slot { n: entry.slot })
            } else {
                None
            }
        }
        None => None,
    }
}

// The slot of an entry whose number is at least that one.
fn slot_from(entry: Entry, key: u32) -> Option<Slot>
    ensures some { IfSome result (λ slot. (slot.n ≡ entry.slot) × (key ≤ entry.key)) }
    ensures none { IfNone result (entry.key < key) }
{
    if entry.key < key {
        None
    } else {
        Some(Slot { n: entry.slot })
    }
}

// The object's entry joins the list.
pub(crate) fn enter(order: &mut Vec<Entry>, path: Path, slot: Slot)
    requires rising { IsSorted order.old.items }
    requires room { length order.old.items < vec_capacity order.old }
    ensures items { order.new.items ≡ insert order.old.items (rank (key_of path) order.old.items) (record { key = key_of path; slot = slot.n }) }
    ensures capacity { vec_capacity order.old ≤ vec_capacity order.new }
    ensures path { IsPath path }
{
    let key = path.key();
    let at = rank(order, key);
    let _ = order.insert(at, Entry { key, slot: slot.n });
}

// The path's entry leaves the list.
pub(crate) fn leave(order: &mut Vec<Entry>, path: Path)
    requires rising { IsSorted order.old.items }
    requires there { (slot : ℕ) × (map.find nat_cmp (key_of path) (keyed order.old.items) ≡ Some slot) }
    ensures items { order.new.items ≡ remove order.old.items (rank (key_of path) order.old.items) }
    ensures capacity { vec_capacity order.old ≤ vec_capacity order.new }
{
    let at = rank(order, path.key());
    order.remove(at);
}

// The slot of the last inferior of the path, if there is an inferior.
pub(crate) fn last_inferior(order: &Vec<Entry>, of: Path) -> Option<Slot>
    requires { IsSorted order.now.items }
    ensures some { IfSome result (λ slot. IsLastOf order.now.items of slot.n) }
    ensures none { IfNone result (IsNoneOf order.now.items of) }
    ensures path { IsPath of }
{
    let key = of.key();
    let end = rank(order, of.past());
    if end == 0 {
        None
    } else {
        slot_from(order[end - 1], key)
    }
}
