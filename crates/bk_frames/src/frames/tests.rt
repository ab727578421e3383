use super::Frames;
use bk_core::{BLOCKS, BYTES_OF_BLOCK, Core, WORDS_OF_BLOCK};
use bk_object::Slot;
use std::test::Fail;

// Places a segment where that is allowed, and gives its first block.
fn place(frames: &mut Frames, core: &mut Core, n: u16, blocks: u8) -> Option<u32> {
    let slot = Slot { n };
    if n >= frames.slots || blocks == 0 || blocks > 128 {
        return None;
    }
    if frames.extent(slot).is_some() || frames.free_blocks() < blocks as u32 {
        return None;
    }
    Some(frames.place(core, slot, blocks))
}

// Each word of a block becomes this one.
fn fill(core: &mut Core, block: u32, word: u16) {
    if block < BLOCKS {
        for i in 0..WORDS_OF_BLOCK {
            core.set_word(BYTES_OF_BLOCK * block + 2 * i, word);
        }
    }
}

// Whether each word of a block is this one.
fn is_filled(core: &Core, block: u32, word: u16) -> bool {
    if block >= BLOCKS {
        return false;
    }
    for i in 0..WORDS_OF_BLOCK {
        if core.word(BYTES_OF_BLOCK * block + 2 * i) != word {
            return false;
        }
    }
    true
}

#[test]
fn places_a_segment_in_four_holes(rt: HostRuntime) -> Result<(), Fail> {
    let mut core = Core::reserve(rt.alloc()).ok().ok_or("memory")?;
    let mut frames = Frames::reserve(rt.alloc(), 64, 8, 16).ok().ok_or("memory")?;
    fill(&mut core, 63, 0o063);
    fill(&mut core, 72, 0o072);
    for n in 0..8u16 {
        let first = place(&mut frames, &mut core, n, 1);
        assert_eq!(rt; first, Some(64 + n as u32));
        fill(&mut core, 64 + n as u32, 0o100 + n);
    }
    assert_eq!(rt; frames.free_blocks(), 0);
    for n in [0, 2, 4, 6] {
        frames.free(Slot { n });
    }
    assert_eq!(rt; frames.free_blocks(), 4);

    let first = place(&mut frames, &mut core, 8, 4).ok_or("room")?;
    assert_eq!(rt; frames.extent(Slot { n: 8 }), Some((first, 4)));
    for i in 0..4 {
        assert!(rt;
            is_filled(&core, first.saturating_add(i), 0),
            "block {i} is zero"
        );
    }
    for n in [1, 3, 5, 7] {
        let (at, blocks) = frames.extent(Slot { n }).ok_or("a kept segment")?;
        assert_eq!(rt; blocks, 1);
        assert!(rt; is_filled(&core, at, 0o100 + n), "the words of {n}");
    }
    assert_eq!(rt; frames.free_blocks(), 0);
    assert!(rt; is_filled(&core, 63, 0o063) && is_filled(&core, 72, 0o072));
    Ok(())
}

#[test]
fn compacts_in_the_order_of_standing(rt: HostRuntime) -> Result<(), Fail> {
    let mut core = Core::reserve(rt.alloc()).ok().ok_or("memory")?;
    let mut frames = Frames::reserve(rt.alloc(), 100, 10, 4)
        .ok()
        .ok_or("memory")?;
    for (n, blocks, first) in [(3, 2, 100), (1, 3, 102), (2, 1, 105)] {
        assert_eq!(rt; place(&mut frames, &mut core, n, blocks), Some(first));
    }
    fill(&mut core, 104, 0o104);
    fill(&mut core, 105, 0o105);

    // The second time nothing is placed there.
    for _ in 0..2 {
        frames.free(Slot { n: 3 });
        assert_eq!(rt; frames.free_blocks(), 6);
    }
    frames.compact(&mut core);
    for (n, extent) in [
        (0, None),
        (1, Some((100, 3))),
        (2, Some((103, 1))),
        (3, None),
    ] {
        assert_eq!(rt; frames.extent(Slot { n }), extent, "slot {n}");
    }
    assert!(rt; is_filled(&core, 102, 0o104) && is_filled(&core, 103, 0o105));
    assert_eq!(rt; frames.free_blocks(), 6);
    Ok(())
}

// Segments of 2, 3 and 2 blocks fill blocks 64 to 70; in the hole that the second leaves two others find room, the lowest
// first, and the third still stands where it stood.
#[test]
fn places_in_the_lowest_hole_and_moves_no_other(rt: HostRuntime) -> Result<(), Fail> {
    let mut core = Core::reserve(rt.alloc()).ok().ok_or("memory")?;
    let mut frames = Frames::reserve(rt.alloc(), 64, 8, 8).ok().ok_or("memory")?;
    for (n, blocks, first) in [(0, 2, 64), (1, 3, 66), (2, 2, 69)] {
        assert_eq!(rt; place(&mut frames, &mut core, n, blocks), Some(first));
    }
    frames.free(Slot { n: 1 });
    for (n, blocks, first) in [(3, 2, 66), (4, 1, 68)] {
        assert_eq!(rt; place(&mut frames, &mut core, n, blocks), Some(first));
    }
    assert_eq!(rt; frames.extent(Slot { n: 2 }), Some((69, 2)));
    assert_eq!(rt; frames.free_blocks(), 1);
    Ok(())
}
