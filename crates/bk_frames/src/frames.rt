// The frames as a map from slots to extents.

ghost use Rattle.std.specs.Prelude.{◌≡◌, ℕ, ◌<◌, ◌≤◌, ◌*◌, replicate, not, ◌==◌, option_map, Some, IsNone, IfNone, IfOk, IfSome};
ghost use Rattle.std.specs.FinMap as map;
ghost use Rattle.bk_core.specs.Memory.{blocks_of_core};
ghost use Rattle.bk_object.specs.Limits.{most_blocks, words_of_block};

use crate::segments::{Segment, close_gaps, list_segments, settle_all};
use crate::table::{Placed, lowest_hole, mark, place_for, put, raised};
use bk_base::NoMemory;
use bk_core::Core;
use bk_object::Slot;
use std::alloc::Global;
use std::marker::Model;

/// The extents of segments in a part of core. A segment has so many blocks of 64 bytes, one after another.
///
/// A clause sees the map from the slot of each segment to its first block and its number of blocks.
#[derive(Drop)]
pub struct Frames {
    first: u32,
    blocks: u32,
    slots: u16,
    // How many blocks are taken.
    taken: u32,
    // No block below this one, counted from the first, is free.
    low: u32,
    // Where the segment of each slot stands.
    places: Vec<Option<Placed>>,
    // The slot of the segment that has each block.
    owners: Vec<Option<u16>>,
    // The segments in the order in which they stand, while they move.
    segments: Vec<Segment>,
}

impl Model for Frames {
    ghost use Rattle.bk_frames.specs.Extents.{Standing};

    ghost Value = { Standing };

    ghost use Rattle.bk_frames.specs.Extents.{standing_code};

    ghost coded = { standing_code };

    ghost use Rattle.bk_frames.specs.Table.{IsFrames, extents_in};
    ghost use Rattle.std.specs.Vec.{vec_capacity};

    ghost view = { λ f. record { first = f.first; blocks = f.blocks; slots = f.slots; extents = extents_in f.places.items } };

    ghost invariant = { λ f. IsFrames f.first f.blocks f.slots f.taken f.low f.places.items f.owners.items (vec_capacity f.segments) };
}

impl Frames {
    ghost use Rattle.std.specs.Prelude.{◌+◌};
    ghost use Rattle.bk_base.specs.Maps.{map_values};
    ghost use Rattle.bk_frames.specs.Extents.{segments_of, sizes_of, taken_in, free_in, moved_down, HasNoRoom, HasRoomAt, IsApart, IsLowestRoom, KeepsRoom, SameOutside, StandsLast};

    /// Frames over so many blocks of core from a first one on, for slots below a number; nothing is placed. Or NoMemory.
    pub fn reserve(alloc: Global, first: u32, blocks: u32, slots: u16) -> Result<Frames, NoMemory>
        requires inside { first + blocks ≤ blocks_of_core }
        ensures { IfOk result (λ f. f ≡ record { first = first; blocks = blocks; slots = slots; extents = map.empty }) }
    {
        let places = vec![in alloc; None; slots as usize]?;
        let owners = vec![in alloc; None; blocks as usize]?;
        let segments = Vec::with_capacity(alloc, blocks as usize)?;
        Ok(Frames {
            first,
            blocks,
            slots,
            taken: 0,
            low: 0,
            places,
            owners,
            segments,
        })
    }

    /// Places a segment of 1 to 128 blocks, with zeros, and gives its first block. Where a run of free blocks is long enough
    /// it stands in the lowest such run, and no other segment moves. Otherwise the others move down, with their words, and
    /// it stands behind them.
    ///
    /// Nothing may be placed for the slot, and so many blocks have to be free in total.
    pub fn place(&mut self, core: &mut Core, slot: Slot, blocks: u8) -> u32
        requires known { slot.n < self.old.slots }
        requires some { 1 ≤ blocks }
        requires few { blocks ≤ most_blocks }
        requires room { blocks ≤ free_in self.old }
        requires free { IsNone (map.get self.old.extents slot.n) }
        ensures segments { segments_of self.new core.new.words ≡ map.insert (segments_of self.old core.old.words) slot.n (replicate (words_of_block * blocks) 0) }
        ensures sizes { sizes_of self.new ≡ map.insert (sizes_of self.old) slot.n blocks }
        ensures here { map.get self.new.extents slot.n ≡ Some (record { first = result; blocks = blocks }) }
        ensures lowest { (at : ℕ) → HasRoomAt self.old at blocks → IsLowestRoom self.old result blocks ×
            (self.new.extents ≡ map.insert self.old.extents slot.n (record { first = result; blocks = blocks })) }
        ensures behind { HasNoRoom self.old blocks → StandsLast self.new slot.n result }
        ensures room { KeepsRoom self.old self.new }
        ensures outside { SameOutside self.old core.old.words core.new.words }
        ensures apart { IsApart self.new }
    {
        match self.lowest_room(blocks) {
            Some(at) => {
                self.settle(core, slot, at, blocks);
                at
            }
            None => self.settle_last(core, slot, blocks),
        }
    }

    // The first block of the lowest run of so many free blocks.
    fn lowest_room(&self, blocks: u8) -> Option<u32>
        requires { 1 ≤ blocks }
        ensures some { IfSome result (λ at. IsLowestRoom self.now at blocks) }
        ensures none { IfNone result (HasNoRoom self.now blocks) }
    {
        let at = lowest_hole(&self.owners, self.low, blocks)?;
        Some(self.first + at)
    }

    // Moves the other segments down, and places one behind them.
    fn settle_last(&mut self, core: &mut Core, slot: Slot, blocks: u8) -> u32
        requires known { slot.n < self.old.slots }
        requires some { 1 ≤ blocks }
        requires few { blocks ≤ most_blocks }
        requires room { blocks ≤ free_in self.old }
        requires free { IsNone (map.get self.old.extents slot.n) }
        ensures segments { segments_of self.new core.new.words ≡ map.insert (segments_of self.old core.old.words) slot.n (replicate (words_of_block * blocks) 0) }
        ensures sizes { sizes_of self.new ≡ map.insert (sizes_of self.old) slot.n blocks }
        ensures here { map.get self.new.extents slot.n ≡ Some (record { first = result; blocks = blocks }) }
        ensures behind { StandsLast self.new slot.n result }
        ensures room { KeepsRoom self.old self.new }
        ensures outside { SameOutside self.old core.old.words core.new.words }
        ensures apart { IsApart self.new }
    {
        self.compact(core);
        let at = self.first + self.taken;
        self.settle(core, slot, at, blocks);
        at
    }

    // The slot's segment stands in free blocks from that one on, with zeros.
    fn settle(&mut self, core: &mut Core, slot: Slot, at: u32, blocks: u8)
        requires known { slot.n < self.old.slots }
        requires some { 1 ≤ blocks }
        requires few { blocks ≤ most_blocks }
        requires here { HasRoomAt self.old at blocks }
        requires room { blocks ≤ free_in self.old }
        requires free { IsNone (map.get self.old.extents slot.n) }
        ensures extents { self.new.extents ≡ map.insert self.old.extents slot.n (record { first = at; blocks = blocks }) }
        ensures segments { segments_of self.new core.new.words ≡ map.insert (segments_of self.old core.old.words) slot.n (replicate (words_of_block * blocks) 0) }
        ensures sizes { sizes_of self.new ≡ map.insert (sizes_of self.old) slot.n blocks }
        ensures room { KeepsRoom self.old self.new }
        ensures outside { SameOutside self.old core.old.words core.new.words }
        ensures apart { IsApart self.new }
    {
        let block = at - self.first;
        core.zero(at, u32::from(blocks));
        mark(&mut self.owners, block, blocks, Some(slot.n));
        put(&mut self.places, slot.n, Some(Placed { first: at, blocks }));
        self.taken += u32::from(blocks);
        self.low = raised(self.low, block, blocks);
    }

    /// Forgets the slot's segment; nothing changes where nothing is placed.
    pub fn free(&mut self, slot: Slot)
        ensures extents { self.new.extents ≡ map.retain_keys self.old.extents (λ s. not (s == slot.n)) }
        ensures room { KeepsRoom self.old self.new }
        ensures apart { IsApart self.new }
    {
        if let Some(place) = place_for(&self.places, slot) {
            let block = place.first - self.first;
            mark(&mut self.owners, block, place.blocks, None);
            put(&mut self.places, slot.n, None);
            self.taken -= u32::from(place.blocks);
            self.low = self.low.min(block);
        }
    }

    /// Moves the segments down, in the order in which they stand, until they stand without a gap from the first block on. They keep their words.
    pub fn compact(&mut self, core: &mut Core)
        ensures extents { self.new.extents ≡ map_values (moved_down self.old) self.old.extents }
        ensures segments { segments_of self.new core.new.words ≡ segments_of self.old core.old.words }
        ensures sizes { sizes_of self.new ≡ sizes_of self.old }
        ensures dense { (at : ℕ) → at ≡ self.new.first + taken_in self.new → (slot : ℕ) → StandsLast self.new slot at }
        ensures room { KeepsRoom self.old self.new }
        ensures outside { SameOutside self.old core.old.words core.new.words }
        ensures apart { IsApart self.new }
    {
        list_segments(&mut self.segments, &self.places, &self.owners, self.first);
        close_gaps(&mut self.segments, core, self.first, self.blocks);
        self.low = settle_all(
            &mut self.places,
            &mut self.owners,
            &self.segments,
            self.first,
        );
    }

    /// The first block of the slot's segment and its number of blocks; None where nothing is placed.
    pub fn extent(&self, slot: Slot) -> Option<(u32, u8)>
        ensures extent { result ≡ option_map (λ e. (e.first, e.blocks)) (map.get self.now.extents slot.n) }
        ensures apart { IsApart self.now }
    {
        let place = place_for(&self.places, slot)?;
        Some((place.first, place.blocks))
    }

    /// The number of blocks that are free, in one hole or in many.
    pub fn free_blocks(&self) -> u32
        ensures free { result ≡ free_in self.now }
        ensures taken { taken_in self.now ≤ self.now.blocks }
    {
        self.blocks - self.taken
    }
}

#[cfg(test)]
mod tests;
