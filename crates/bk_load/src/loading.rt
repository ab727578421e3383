// A store, loaded from an image into a core that is lent.

ghost use Rattle.std.specs.Prelude.{◌≡◌, ◌≤◌, ◌*◌, ℕ, List, All, IfOk, Some, length, take};
ghost use Rattle.std.specs.FinMap as map;
ghost use Rattle.bk_object.specs.Limits.{most_blocks, words_of_block};
ghost use Rattle.bk_core.specs.Memory.{kernel_blocks};
ghost use Rattle.bk_image.specs.Accepted.{IsAccepted};
ghost use Rattle.bk_image.specs.Objects.{room};
ghost use Rattle.bk_load.specs.Loading.{with_holds, CanHold, CanTake, HasFront, HasOneMore, IsLoaded};
ghost use Rattle.bk_load.specs.Kept.{state_loaded, AreKept};
ghost use Rattle.bk_state.specs.Start.{object_from, state_of};
ghost use Rattle.bk_store.specs.Stored.{fresh, objects_of, with_held, IsCreated};

use crate::beginning::Beginning;
use bk_base::NoMemory;
use bk_core::Core;
use bk_process::Process;
use bk_state::{Clearance, Hold, Image, ObjectRec};
use bk_store::Store;
use std::alloc::Global;

/// The state of a system, beside the core in which its segments stand: the store; of each subject, in the order of their
/// numbers, the numbers of its levels and its process; of each line the number of its level; the turns of a slot, and the
/// schedule.
#[derive(Drop)]
pub struct Loaded {
    pub store: Store,
    pub clearances: Vec<Clearance>,
    pub lines: Vec<u8>,
    pub turns: u16,
    pub schedule: Vec<u8>,
    pub processes: Vec<Process>,
}

// A new object is there, without its words.
fn create(store: &mut Store, core: &mut Core, object: &ObjectRec)
    requires { CanTake store.old object.now }
    ensures created { IsCreated store.old store.new core.old.words core.new.words object.now.path object.now.facts }
    ensures kernel { take (words_of_block * kernel_blocks) core.new.words ≡ take (words_of_block * kernel_blocks) core.old.words }
{
    store.create(core, object.path, object.facts).unwrap();
}

// The words of a new object, of which each is zero, become the image's from the first one on.
fn write_words(store: &Store, core: &mut Core, object: &ObjectRec)
    requires new { map.get (objects_of store.now core.old.words) object.now.path ≡ Some (fresh object.now.facts) }
    requires words { length object.now.words ≤ room object.now.facts }
    requires blocks { object.now.facts.blocks ≤ most_blocks }
    ensures objects { objects_of store.now core.new.words ≡ map.insert (objects_of store.now core.old.words) object.now.path (object_from object.now) }
    ensures kernel { take (words_of_block * kernel_blocks) core.new.words ≡ take (words_of_block * kernel_blocks) core.old.words }
{
    let words = object.words.as_slice();
    for i in 0..words.len() {
        store.write_word(core, object.path, 2 * i as u16, words[i]);
    }
}

fn load_object(store: &mut Store, core: &mut Core, object: &ObjectRec)
    requires { CanTake store.old object.now }
    ensures more { HasOneMore store.old store.new core.old.words core.new.words object.now }
    ensures kernel { take (words_of_block * kernel_blocks) core.new.words ≡ take (words_of_block * kernel_blocks) core.old.words }
{
    create(store, core, object);
    write_words(store, core, object);
}

// All objects after root, each after its parent.
fn load_objects(store: &mut Store, core: &mut Core, image: &Image)
    requires accepted { IsAccepted image.now }
    requires root { HasFront image.now 1 store.old core.old.words }
    ensures all { HasFront image.now (length image.now.objects) store.new core.new.words }
    ensures kernel { take (words_of_block * kernel_blocks) core.new.words ≡ take (words_of_block * kernel_blocks) core.old.words }
{
    let objects = image.objects.as_slice();
    for i in 1..objects.len() {
        load_object(store, core, &objects[i]);
    }
}

fn load_hold(store: &mut Store, hold: &Hold)
    requires { CanHold store.old hold.now }
    ensures { store.new ≡ with_held hold.now.subject hold.now.path hold.now.modes store.old }
{
    store.hold(hold.subject, hold.path, hold.modes);
}

fn load_holds(store: &mut Store, holds: &[Hold])
    requires { All (CanHold store.old) holds.now }
    ensures { store.new ≡ with_holds holds.now store.old }
{
    for hold in holds {
        load_hold(store, hold);
    }
}

// A store of root alone.
fn reserve_root(alloc: Global, image: &Image) -> Result<Store, NoMemory>
    requires { IsAccepted image.now }
    ensures { IfOk result (λ store. (words : List ℕ) → HasFront image.now 1 store words) }
{
    let root = &image.objects.as_slice()[0];
    Store::reserve(alloc, image.levels, root.facts, image.lines)
}

// What the image has beside root, in a store of root alone.
fn load_store(store: &mut Store, core: &mut Core, image: &Image)
    requires accepted { IsAccepted image.now }
    requires root { HasFront image.now 1 store.old core.old.words }
    ensures loaded { IsLoaded image.now store.new core.new.words }
    ensures kernel { take (words_of_block * kernel_blocks) core.new.words ≡ take (words_of_block * kernel_blocks) core.old.words }
{
    load_objects(store, core, image);
    load_holds(store, image.holds.as_slice());
}

/// The state of an accepted image, its segments in the core, whatever words that had before. All memory that it needs is taken
/// here; `NoMemory` comes where the host has no more. The words of the kernel's blocks stay in any case.
pub fn load(alloc: Global, core: &mut Core, image: &Image) -> Result<Loaded, NoMemory>
    requires { IsAccepted image.now }
    ensures state { IfOk result (λ loaded. state_loaded loaded core.new.words ≡ state_of image.now) }
    ensures kept { IfOk result (λ loaded. AreKept loaded) }
    ensures kernel { take (words_of_block * kernel_blocks) core.new.words ≡ take (words_of_block * kernel_blocks) core.old.words }
{
    let mut store = reserve_root(alloc, image)?;
    let beginning = Beginning::from_image(alloc, image)?;
    load_store(&mut store, core, image);
    Ok(Loaded {
        store,
        clearances: beginning.clearances,
        lines: beginning.lines,
        turns: beginning.turns,
        schedule: beginning.schedule,
        processes: beginning.processes,
    })
}
