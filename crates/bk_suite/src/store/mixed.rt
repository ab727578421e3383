// A long list of calls, compared after each with the plain model.

use super::allowed::{
    Call, cell, change, create, delete_group, put_message, take_message, word, write_word,
};
use super::plain::{Plain, charge, find, governing, level, new_plain, used};
use super::{begun, facts_of};
use bitflags::Flags;
use bk_core::{BLOCKS, Core, KERNEL_BLOCKS};
use bk_object::{Kind, MOST_SUBJECTS, Modes, Row};
use bk_path::Path;
use bk_queue::Message;
use bk_store::Store;
use bk_tree::TreeNo;

// The subjects that are granted and hold anything; the others take no part.
const SUBJECTS: [u8; 4] = [0, 1, 31, 63];

// A directory, one of another level, a segment or a mailbox: its kind, blocks, level and quota below that level.
fn wish(n: u32, above: u8) -> (Kind, u8, u8, u16) {
    match n % 8 {
        0 | 1 => (Kind::Directory, 0, above, 0),
        2 | 3 if above == 0 => (Kind::Directory, 0, 1, (4 + n / 32 % 5) as u16),
        2..=4 => (Kind::Mailbox, 0, above, 0),
        _ => (Kind::Segment, (1 + n / 32 % 3) as u8, above, 0),
    }
}

// What the plain model says of a create: None where no directory is above.
fn expected(objects: &[Plain], object: &Plain) -> Option<Result<(), TreeNo>> {
    let above = object.path.parent()?;
    let parent = find(objects, above)?;
    if parent.kind != Kind::Directory {
        return None;
    }
    if find(objects, object.path).is_some() {
        return Some(Err(TreeNo::Taken));
    }
    let payer = governing(objects, above);
    let limit = find(objects, payer)?.quota;
    if used(objects, payer).saturating_add(charge(object, parent.level)) > u32::from(limit) {
        return Some(Err(TreeNo::Quota));
    }
    Some(Ok(()))
}

// Whether the store says of the object what the model says.
fn agrees(store: &Store, core: &Core, objects: &[Plain], object: &Plain) -> Option<bool> {
    let facts = store.facts(object.path)?;
    let same = facts.kind == object.kind
        && facts.blocks == object.blocks
        && facts.level == object.level
        && facts.quota == object.quota
        && is_granted_and_held(store, object, facts.row);
    match object.kind {
        Kind::Directory => {
            let payer = governing(objects, object.path);
            let counted = cell(store, object.path)?;
            let limit = find(objects, payer)?.quota;
            Some(
                same && u32::from(counted.used()) == used(objects, payer)
                    && counted.limit() == limit,
            )
        }
        Kind::Segment => Some(
            same && has_words(store, core, object)? && stands_apart(store, objects, object)?,
        ),
        Kind::Mailbox | Kind::Line(_) => Some(same && store.extent(object.path).is_none()),
    }
}

// Whether each subject is granted the object, and holds it, by the model's modes.
fn is_granted_and_held(store: &Store, object: &Plain, row: Row) -> bool {
    let mut same = true;
    for subject in 0..MOST_SUBJECTS {
        let place = usize::from(subject);
        same = same
            && row.get(subject).bits() == object.row[place]
            && store.held(subject, object.path).bits() == object.held[place];
    }
    same
}

// Whether each word of the segment is the model's.
fn has_words(store: &Store, core: &Core, object: &Plain) -> Option<bool> {
    for n in 0..u16::from(object.blocks) * 32 {
        let want = object.words.get(usize::from(n))?;
        if word(store, core, object.path, n * 2)? != *want {
            return Some(false);
        }
    }
    Some(true)
}

// Whether the segment stands above the kernel's blocks and shares none with another.
fn stands_apart(store: &Store, objects: &[Plain], object: &Plain) -> Option<bool> {
    let (first, blocks) = store.extent(object.path)?;
    let end = first.saturating_add(u32::from(blocks));
    let mut apart = blocks == object.blocks && KERNEL_BLOCKS <= first && end <= BLOCKS;
    for other in objects {
        if other.path != object.path {
            if let Some((start, count)) = store.extent(other.path) {
                apart = apart && (end <= start || start.saturating_add(u32::from(count)) <= first);
            }
        }
    }
    Some(apart)
}

// Whether the store has all of the model's objects, as they are.
fn all_agree(store: &Store, core: &Core, objects: &[Plain]) -> Option<bool> {
    for object in objects {
        if !agrees(store, core, objects, object)? {
            return Some(false);
        }
    }
    Some(true)
}

// One call on one of the objects, by a number, and what it does to the model: whether the answers agree.
fn step(
    store: &mut Store,
    core: &mut Core,
    objects: &mut Vec<Plain>,
    n: u32,
    number: u16,
) -> Option<bool> {
    let count = objects.len();
    if count == 0 {
        return None;
    }
    let place = (n / 16) as usize % count;
    let object = *objects.get(place)?;
    match n % 16 {
        0 => Some(step_delete(store, objects, object.path)),
        1..=8 => step_modes(store, objects.get_mut(place)?, n / 1024),
        _ if object.kind == Kind::Directory => {
            step_create(store, core, objects, object.path, n / 1024)
        }
        _ if object.kind == Kind::Segment => {
            step_write(store, core, objects.get_mut(place)?, n / 1024, number)
        }
        _ if n / 1024 % 4 > 0 => Some(step_put(store, objects.get_mut(place)?)),
        _ => Some(step_take(store, objects.get_mut(place)?)),
    }
}

// An object is created below the path, by a number, where the model says so.
fn step_create(
    store: &mut Store,
    core: &mut Core,
    objects: &mut Vec<Plain>,
    above: Path,
    n: u32,
) -> Option<bool> {
    let path = match above.child((n % 3) as u8) {
        Some(path) => path,
        None => return Some(true),
    };
    let (kind, blocks, level, quota) = wish(n / 3, level(objects, above));
    let object = new_plain(path, kind, blocks, level, quota);
    let want = expected(objects, &object);
    let made = create(store, core, path, facts_of(kind, blocks, level, quota));
    if want == Some(Ok(())) {
        objects.push(object).ok()?;
    }
    Some(made == want)
}

// The object and its inferiors go, unless it is root.
fn step_delete(store: &mut Store, objects: &mut Vec<Plain>, path: Path) -> bool {
    if path.depth() == 0 {
        return delete_group(store, path).is_none();
    }
    objects.retain(|object| !object.path.is_inferior(path));
    delete_group(store, path).is_some() && store.facts(path).is_none()
}

// One of the subjects that take part is granted modes of the object, holds it by them, loses or releases them.
fn step_modes(store: &mut Store, object: &mut Plain, n: u32) -> Option<bool> {
    let subject = *SUBJECTS.get((n % 4) as usize)?;
    let bits = (n / 4 % 16) as u8;
    let call = match n / 64 % 8 {
        0 | 1 => Call::Give,
        2..=4 => Call::Hold,
        5 | 6 => Call::Rescind,
        _ => Call::Release,
    };
    let row = object.row.get_mut(usize::from(subject))?;
    let held = object.held.get_mut(usize::from(subject))?;
    note(call, row, held, bits);
    let modes = Modes::from_bits_retain(bits);
    Some(change(store, call, object.path, subject, modes).is_some())
}

// What a call does to what the model has granted and held.
fn note(call: Call, row: &mut u8, held: &mut u8, bits: u8) {
    match call {
        Call::Give => *row |= bits,
        Call::Hold => *held |= bits,
        Call::Rescind => {
            *row &= !bits;
            *held &= !bits;
        }
        Call::Release => *held &= !bits,
    }
}

// A word of the segment, at a place by a number, becomes another.
fn step_write(
    store: &Store,
    core: &mut Core,
    object: &mut Plain,
    n: u32,
    value: u16,
) -> Option<bool> {
    if object.blocks == 0 {
        return None;
    }
    let place = (n % (u32::from(object.blocks) * 32)) as u16;
    let word = object.words.get_mut(usize::from(place))?;
    *word = value;
    Some(write_word(store, core, object.path, place * 2, value).is_some())
}

// The next message goes to the mailbox.
fn step_put(store: &mut Store, object: &mut Plain) -> bool {
    let message = object.oldest.wrapping_add(object.waiting);
    if object.waiting < 16 {
        object.waiting += 1;
    } else {
        object.lost = object.lost.saturating_add(1);
    }
    put_message(store, object.path, [message, 1, 2, 3]).is_some()
}

// The oldest message is taken from the mailbox.
fn step_take(store: &mut Store, object: &mut Plain) -> bool {
    let want = oldest_message(object);
    if want.is_some() {
        object.waiting = object.waiting.saturating_sub(1);
        object.oldest = object.oldest.wrapping_add(1);
        object.lost = 0;
    }
    take_message(store, object.path) == Some(want)
}

// The oldest message of a mailbox.
fn oldest_message(object: &Plain) -> Option<Message> {
    if object.waiting == 0 {
        return None;
    }
    Some(Message {
        words: [object.oldest, 1, 2, 3],
        lost: object.lost,
    })
}

// With how many of 10,000 calls the model agrees, in the answer and in all objects after it, before it first does not.
fn calls_that_agree(store: &mut Store, core: &mut Core, objects: &mut Vec<Plain>) -> u16 {
    let mut n = 1u32;
    for number in 0..10_000u16 {
        n = n.wrapping_mul(1_664_525).wrapping_add(1_013_904_223);
        if step(store, core, objects, n / 4096, number) != Some(true)
            || all_agree(store, core, objects) != Some(true)
        {
            return number;
        }
    }
    10_000
}

#[test]
fn agrees_with_a_plain_model(rt: HostRuntime) {
    let mut core = Core::reserve(rt.alloc()).expect(&rt, "memory");
    let mut store = begun(rt.alloc(), 24).expect(&rt, "memory");
    let mut objects = Vec::new(rt.alloc());
    let root = new_plain(Path::root(), Kind::Directory, 0, 0, 24);
    objects.push(root).ok().expect(&rt, "memory");
    assert_eq!(rt;
        calls_that_agree(&mut store, &mut core, &mut objects),
        10_000
    );
}
