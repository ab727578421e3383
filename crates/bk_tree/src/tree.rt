// The tree: the map from paths to objects.

ghost use Rattle.std.specs.Prelude.{◌≡◌, ◌≢◌, ◌<◌, IfErr, ℕ, ◌≤◌, ◌+◌, ◌-◌, ◌↔◌, [], true, IfOk, IfSome, IsNone, option_map};
ghost use Rattle.std.specs.FinMap as map;
ghost use Rattle.bk_object.specs.declared.Facts.{Facts as FactsValue};
ghost use Rattle.bk_object.specs.Kinds.{is_directory};
ghost use Rattle.bk_object.specs.Limits.{largest_quota};
ghost use Rattle.bk_path.specs.Paths.{Path as PathValue, parent};
ghost use Rattle.bk_quota.specs.Charges.{governing_in, level_in, quota_in};
ghost use Rattle.bk_tree.specs.Kept.{cell_in, Fits, HasDirectory, IsFit, IsKept};
ghost use Rattle.bk_tree.specs.Needs.{blocks_in, needs_in};
ghost use Rattle.bk_tree.specs.Refused.{Refuses};
ghost use Rattle.std.specs.Vec.{vec_capacity};
ghost use Rattle.bk_tree.specs.Down.{down_to_1};
ghost use Rattle.bk_tree.specs.Objects.{facts_of, CanGo, HasNone, HasSlot, IsAt, IsLeafOf, begun, slot_of, without};

use crate::cells::{is_taken, level_at, payer};
use crate::guess::{GUESSES, expect_at, slot_for};
use crate::order::{Entry, enter, last_inferior, leave};
use crate::place::{
    Object, cell_at, charge_at, give_back_at, object_at, push_free, put, put_cell, with_row,
};
use bk_base::NoMemory;
use bk_object::{Facts, Row, Slot};
use bk_path::Path;
use bk_quota::{Cell, charge_of};
use std::alloc::Global;
use std::marker::Model;

/// Why no object is created.
#[derive(Clone, Copy, PartialEq, Eq, Debug)]
pub enum TreeNo {
    /// An object is at the path.
    Taken,
    /// The charge doesn't fit the cell that governs the parent.
    Quota,
}

/// A map from paths to objects, each of which has a slot of its own.
#[derive(Drop)]
pub struct Tree {
    // The object of each slot.
    places: Vec<Option<Object>>,
    // The cell of each slot whose object has one.
    cells: Vec<Cell>,
    // The paths with their slots, sorted.
    order: Vec<Entry>,
    // The slots without an object, the next one last.
    free: Vec<u16>,
    // Where the object of a path may be.
    guesses: Vec<u16>,
}

impl Model for Tree {
    ghost use Rattle.std.specs.FinMap as map;
    ghost use Rattle.std.specs.Coded.{coded_ℕ, coded_list};
    ghost use Rattle.bk_tree.specs.Objects.{Objects};

    ghost Value = { Objects };

    ghost use Rattle.bk_tree.specs.contracts.place.Placed as placed;

    ghost coded = { map.code (coded_list coded_ℕ) placed.the_row.coded };

    ghost use Rattle.std.specs.Vec.{vec_capacity};
    ghost use Rattle.bk_tree.specs.Places.{tree_of};
    ghost use Rattle.bk_tree.specs.Whole.{IsWhole};

    ghost view = { λ tree. tree_of tree.places.items };

    ghost invariant = { λ tree. IsWhole tree.places.items tree.cells.items tree.order.items tree.free.items (vec_capacity tree.order) (vec_capacity tree.free) };
}

impl Tree {
    /// A tree of root alone, with as many places as root's quota. All memory is taken here.
    pub fn reserve(alloc: Global, slots: u16, root: Facts) -> Result<Tree, NoMemory>
        requires directory { is_directory root.kind ≡ true }
        requires blocks { root.blocks ≡ 0 }
        requires quota { (1 ≤ root.quota) × (root.quota ≤ largest_quota) }
        requires slots { slots ≡ root.quota }
        ensures { IfOk result (λ tree. tree ≡ begun root) }
    {
        let mut places = vec![in alloc; None; slots as usize]?;
        let cells = vec![in alloc; Cell::new(root.quota); slots as usize]?;
        let mut order = Vec::with_capacity(alloc, slots as usize)?;
        let free = all_but_first(alloc, slots)?;
        let guesses = vec![in alloc; 0; GUESSES as usize]?;
        let held = Object {
            path: Path::root(),
            facts: root,
        };
        put(&mut places, Slot { n: 0 }, Some(held));
        enter(&mut order, Path::root(), Slot { n: 0 });
        Ok(Tree {
            places,
            cells,
            order,
            free,
            guesses,
        })
    }

    /// The slot of the object at the path: None exactly where no object is there.
    pub fn find(&self, path: Path) -> Option<Slot>
        ensures value { result ≡ option_map slot_of (map.get self.now path) }
        ensures some { IfSome result (λ slot. HasSlot self.now slot.n) }
        ensures none { IsNone result ↔ IsNone (map.get self.now path) }
    {
        slot_for(&self.places, &self.order, &self.guesses, path)
    }

    /// The facts of the object.
    pub fn facts(&self, slot: Slot) -> Facts
        requires { HasSlot self.now slot.n }
        ensures { (path : PathValue) (facts : FactsValue) → IsAt self.now path slot.n facts → result ≡ facts }
    {
        object_at(&self.places, slot).facts
    }

    /// The row of the object becomes this one. All else stays.
    pub fn set_row(&mut self, slot: Slot, row: Row)
        requires { HasSlot self.old slot.n }
        ensures { (path : PathValue) (facts : FactsValue) → IsAt self.old path slot.n facts →
            self.new ≡ map.insert self.old path (record { slot = slot.n; facts = record facts { row = row } }) }
    {
        let object = object_at(&self.places, slot);
        put(&mut self.places, slot, Some(with_row(object, row)));
    }

    /// An object with these facts is at the path from now on, at a slot that no object had. Taken goes before Quota, and
    /// where there is no object created nothing changes.
    pub fn create(&mut self, path: Path, facts: Facts) -> Result<Slot, TreeNo>
        requires below_root { path ≢ [] }
        requires parent { HasDirectory self.old (parent path) }
        requires fit { IsFit facts (level_in facts_of self.old (parent path)) }
        ensures ok { IfOk result (λ slot. IsNone (map.get self.old path) × Fits self.old path facts ×
            (self.new ≡ map.insert self.old path (record { slot = slot.n; facts = facts }))) }
        ensures err { IfErr result (λ no. Refuses self.old path facts no × (self.new ≡ self.old)) }
    {
        if is_taken(&self.places, &self.order, &self.guesses, path) {
            return Err(TreeNo::Taken);
        }
        let above = path.above();
        let payer = payer(&self.places, &self.order, &self.guesses, above);
        let level = level_at(&self.places, &self.order, &self.guesses, above);
        let charge = charge_of(&facts, level);
        if charge_at(&mut self.cells, payer, charge) {
            let slot = Slot {
                n: self.free.pop().unwrap(),
            };
            put(&mut self.places, slot, Some(Object { path, facts }));
            put_cell(&mut self.cells, slot, Cell::new(facts.quota));
            enter(&mut self.order, path, slot);
            expect_at(&mut self.guesses, path, slot);
            Ok(slot)
        } else {
            Err(TreeNo::Quota)
        }
    }

    /// The cell that governs the directory: its own where it has one, else that of its nearest ancestor with a cell.
    pub fn cell(&self, directory: Slot) -> Cell
        requires { HasSlot self.now directory.n }
        ensures { (path : PathValue) (facts : FactsValue) → IsAt self.now path directory.n facts →
            result ≡ cell_in self.now (governing_in facts_of self.now path) }
    {
        let path = object_at(&self.places, directory).path;
        let payer = payer(&self.places, &self.order, &self.guesses, path);
        cell_at(&self.cells, payer)
    }

    /// The slot of an inferior of the path without children: None exactly where no object is at the path or below it.
    pub fn next_leaf(&self, of: Path) -> Option<Slot>
        ensures some { IfSome result (λ slot. IsLeafOf self.now of slot.n) }
        ensures none { IsNone result ↔ HasNone self.now of }
    {
        last_inferior(&self.order, of)
    }

    /// The object goes, and its slot is free. All else stays.
    pub fn remove_leaf(&mut self, slot: Slot)
        requires { CanGo self.old slot.n }
        ensures { (path : PathValue) (facts : FactsValue) → IsAt self.old path slot.n facts → self.new ≡ without self.old path }
    {
        let object = object_at(&self.places, slot);
        let above = object.path.above();
        let payer = payer(&self.places, &self.order, &self.guesses, above);
        let level = level_at(&self.places, &self.order, &self.guesses, above);
        let charge = charge_of(&object.facts, level);
        give_back_at(&mut self.cells, payer, charge);
        leave(&mut self.order, object.path);
        put(&mut self.places, slot, None);
        push_free(&mut self.free, slot);
    }

    /// Each slot is below root's quota, which is the number of slots, and no two paths have one slot.
    pub fn law_slots(&self)
        ensures within { (path : PathValue) (slot : ℕ) (facts : FactsValue) → IsAt self.now path slot facts → slot < quota_in (λ placed. placed.facts) self.now [] }
        ensures apart { (p q : PathValue) (slot : ℕ) (f g : FactsValue) → IsAt self.now p slot f → IsAt self.now q slot g → p ≡ q }
    {
        let _places = self.places.len();
    }

    /// Root is a directory at slot 0, parents are there, each object is charged something, and no cell is overdrawn.
    pub fn law_kept(&self)
        ensures root { (facts : FactsValue) × IsAt self.now [] 0 facts × (is_directory facts.kind ≡ true) }
        ensures kept { IsKept self.now }
    {
        let _places = self.places.len();
    }

    /// What the objects need fits root's quota, which is at most 3,904: the blocks of each segment, 2 for a mailbox, 1 for any
    /// other object but root, and 1 beside. So the blocks of all segments are fewer than that quota, and there are no more
    /// objects than it.
    pub fn law_room(&self)
        ensures needs { 1 + needs_in facts_of self.now ≤ quota_in facts_of self.now [] }
        ensures blocks { 1 + blocks_in facts_of self.now ≤ quota_in facts_of self.now [] }
        ensures objects { map.len self.now ≤ quota_in facts_of self.now [] }
        ensures quota { quota_in facts_of self.now [] ≤ largest_quota }
    {
        let _places = self.places.len();
    }
}

// The numbers from that below the last one down to 1.
fn all_but_first(alloc: Global, slots: u16) -> Result<Vec<u16>, NoMemory>
    requires { 1 ≤ slots }
    ensures items { IfOk result (λ free. free.items ≡ down_to_1 (slots - 1)) }
    ensures capacity { IfOk result (λ free. slots ≤ vec_capacity free) }
{
    let mut free = Vec::with_capacity(alloc, slots as usize)?;
    for n in 1..slots {
        push_free(&mut free, Slot { n: slots - n });
    }
    Ok(free)
}
