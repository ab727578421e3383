// The segments in the order in which they stand, and how they move down.

ghost use Rattle.std.specs.Prelude.{◌≡◌, ℕ, ◌+◌, ◌<◌, ◌≤◌, ◌++◌, ◌∷◌, [], length, option_map, replicate, slice_get, Some, None};
ghost use Rattle.std.specs.Vec.{vec_capacity};
ghost use Rattle.bk_core.specs.Memory.{blocks_of_core, slid};
ghost use Rattle.bk_frames.specs.Segments.{IsStacked, moved_to, compacted, total, words_after};
ghost use Rattle.std.specs.FinMap as map;
ghost use Rattle.std.specs.Ordering.{nat_cmp};
ghost use Rattle.bk_base.specs.Maps.{IsDistinct};
ghost use Rattle.bk_object.specs.Limits.{most_blocks};
ghost use Rattle.bk_frames.specs.Extents.{Extent};
ghost use Rattle.bk_frames.specs.Segments.{entries_of};
ghost use Rattle.bk_frames.specs.Table.{extent_at, place_of, IsFull, IsTable};
ghost use Rattle.bk_frames.specs.Ordered.{segment_of, IsListed, IsPacked};

use crate::table::{Placed, mark, place_for, put};
use bk_core::Core;
use bk_object::Slot;

/// A segment: the number of its slot, its first block, and how many blocks it has.
#[derive(Clone, Copy)]
pub(crate) struct Segment {
    pub(crate) slot: u16,
    pub(crate) first: u32,
    pub(crate) blocks: u8,
}

// Lists the segments from the lowest to the highest; the first block of all is that one.
pub(crate) fn list_segments(
    segments: &mut Vec<Segment>,
    places: &Vec<Option<Placed>>,
    owners: &Vec<Option<u16>>,
    first: u32,
)
    requires table { IsTable first places.now.items owners.now.items }
    requires inside { first + length owners.now.items ≤ blocks_of_core }
    requires room { length owners.now.items ≤ vec_capacity segments.old }
    ensures listed { IsListed first (first + length owners.now.items) places.now.items segments.new.items }
    ensures capacity { vec_capacity segments.old ≤ vec_capacity segments.new }
{
    segments.clear();
    let mut block = 0;
    while block < owners.len() {
        match segment_at(places, owners, block) {
            Some(segment) => {
                push_last(segments, segment);
                block += segment.blocks as usize;
            }
            None => block += 1,
        }
    }
}

// The segment that has the block, if one has.
fn segment_at(
    places: &Vec<Option<Placed>>,
    owners: &Vec<Option<u16>>,
    block: usize,
) -> Option<Segment>
    requires { block < length owners.now.items }
    ensures { result ≡ segment_of places.now.items owners.now.items block }
{
    let slot = owners[block]?;
    let place = place_for(places, Slot { n: slot })?;
    Some(Segment {
        slot,
        first: place.first,
        blocks: place.blocks,
    })
}

// Puts a segment behind all others; there is room for it.
fn push_last(segments: &mut Vec<Segment>, segment: Segment)
    requires { length segments.old.items < vec_capacity segments.old }
    ensures items { segments.new.items ≡ segments.old.items ++ segment ∷ [] }
    ensures capacity { vec_capacity segments.old ≤ vec_capacity segments.new }
{
    let _ = segments.push(segment);
}

// Moves all segments down, so that there is no gap, and gives the first block behind them.
pub(crate) fn close_gaps(segments: &mut Vec<Segment>, core: &mut Core, first: u32, size: u32) -> u32
    requires inside { first + size ≤ blocks_of_core }
    requires stacked { IsStacked first (first + size) segments.old.items }
    ensures segments { segments.new.items ≡ compacted first segments.old.items }
    ensures words { core.new.words ≡ words_after first segments.old.items core.old.words }
    ensures end { result ≡ first + total segments.old.items }
    ensures capacity { vec_capacity segments.old ≤ vec_capacity segments.new }
{
    compact_all(segments.as_mut_slice(), core, first, first + size)
}

// Moves each segment of a slice down, the lowest first, so that there is no gap, and gives the first block behind them.
fn compact_all(segments: &mut [Segment], core: &mut Core, first: u32, limit: u32) -> u32
    requires inside { limit ≤ blocks_of_core }
    requires stacked { IsStacked first limit segments.old }
    ensures segments { segments.new ≡ compacted first segments.old }
    ensures words { core.new.words ≡ words_after first segments.old core.old.words }
    ensures end { result ≡ first + total segments.old }
{
    let mut at = first;
    for i in 0..segments.len() {
        let segment = segments[i];
        segments[i] = moved(core, segment, at);
        at += segment.blocks as u32;
    }
    at
}

// The segment once it stands from a lower block on, or where it stands, with its words.
fn moved(core: &mut Core, segment: Segment, to: u32) -> Segment
    requires down { to ≤ segment.first }
    requires inside { segment.first + segment.blocks ≤ blocks_of_core }
    ensures segment { result ≡ moved_to to segment }
    ensures words { core.new.words ≡ slid core.old.words segment.first to segment.blocks }
{
    core.slide(segment.first, to, segment.blocks as u32);
    Segment {
        first: to,
        ..segment
    }
}

// The segments of the list, which stand one directly behind the other, are all that the tables have from now on; gives how
// many blocks they have.
pub(crate) fn settle_all(
    places: &mut Vec<Option<Placed>>,
    owners: &mut Vec<Option<u16>>,
    segments: &Vec<Segment>,
    first: u32,
) -> u32
    requires inside { first + length owners.old.items ≤ blocks_of_core }
    requires stacked { IsStacked first (first + length owners.old.items) segments.now.items }
    requires packed { IsPacked first segments.now.items }
    requires distinct { IsDistinct nat_cmp (entries_of segments.now.items) }
    requires slots { (slot : ℕ) (e : Extent) → map.find nat_cmp slot (entries_of segments.now.items) ≡ Some e → (slot < length places.old.items) × (e.blocks ≤ most_blocks) }
    ensures table { IsTable first places.new.items owners.new.items }
    ensures same { (slot : ℕ) → map.find nat_cmp slot (entries_of segments.now.items) ≡ option_map extent_at (place_of places.new.items slot) }
    ensures full { IsFull owners.new.items result }
    ensures places { length places.new.items ≡ length places.old.items }
    ensures owners { length owners.new.items ≡ length owners.old.items }
    ensures end { result ≡ total segments.now.items }
{
    places.fill(None);
    owners.fill(None);
    let mut taken = 0;
    for segment in segments {
        put(
            places,
            segment.slot,
            Some(place_at(first + taken, segment.blocks)),
        );
        mark(owners, taken, segment.blocks, Some(segment.slot));
        taken += u32::from(segment.blocks);
    }
    taken
}

fn place_at(first: u32, blocks: u8) -> Placed
    ensures { result ≡ record { first = first; blocks = blocks } }
{
    Placed { first, blocks }
}
