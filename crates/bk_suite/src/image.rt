// Images that were worked out by hand from the format: the sample, its spoilt copies, and one that is too long.

use bk_base::Bytes;
use bk_fixture::{SAMPLE, sample_bytes, sample_image};
use bk_image::{Image, ImageFault, ImageField, ImageStop, read_image, write_image};
use std::alloc::{AllocError, Global};
use std::test::Fail;

/// The sample with other bytes at some places.
fn spoilt(alloc: Global, changes: &[(usize, u8)]) -> Result<Vec<u8>, AllocError> {
    let mut bytes = SAMPLE.to_vec(alloc)?;
    for (at, byte) in changes {
        if *at < bytes.len() {
            bytes[*at] = *byte;
        }
    }
    Ok(bytes)
}

/// The place of the first fault, and its text.
fn fault_of(alloc: Global, bytes: &[u8]) -> Option<(u32, &'static str)> {
    match read_image(alloc, bytes) {
        Err(ImageStop::Bad(fault)) => Some((fault.at, fault.field.text())),
        _ => None,
    }
}

fn stop(at: u32, field: ImageField) -> Option<ImageStop> {
    Some(ImageStop::Bad(ImageFault { at, field }))
}

// The sample's value is spelt by the sample's bytes, and these are read as it, whatever follows. With no turns its bytes are
// no image; 256 places don't fit into their count.
#[test]
fn spells_and_reads_the_sample(rt: HostRuntime) -> Result<(), Fail> {
    let image = sample_image(rt.alloc()).ok_or("memory")?;
    let written = write_image(rt.alloc(), &image).ok().ok_or("not written")?;
    assert!(rt; written.as_slice() == SAMPLE.as_slice());
    let bytes = sample_bytes(rt.alloc(), b"END 0\n")?;
    let (image, length) = read_image(rt.alloc(), &bytes).ok().ok_or("no image")?;
    assert_eq!(rt; length, 290);
    let written = write_image(rt.alloc(), &image).ok().ok_or("not written")?;
    assert!(rt; written.as_slice() == SAMPLE.as_slice());
    let image = Image { turns: 0, ..image };
    assert_eq!(rt;
        write_image(rt.alloc(), &image).err(),
        stop(6, ImageField::Turns)
    );
    let schedule = Bytes::from_vec(vec![in rt.alloc(); 0; 256]?);
    let image = Image { schedule, ..image };
    assert_eq!(rt;
        write_image(rt.alloc(), &image).err(),
        stop(0, ImageField::Counts)
    );
    Ok(())
}

// One byte of the sample is another: place, byte, and the fault.
#[test]
fn tells_the_first_fault_of_a_spoilt_byte(rt: HostRuntime) -> Result<(), Fail> {
    let alloc = rt.alloc();
    let rows: [(usize, u8, u32, &str); 59] = [
        (0, 0, 0, "magic"),
        (4, 3, 4, "version"),
        (6, 0, 6, "turns"),
        (7, 17, 6, "turns"), // 4,384
        (8, 0, 8, "counts"),
        (8, 65, 8, "counts"),
        (9, 0, 9, "counts"),
        (9, 33, 9, "counts"),
        (10, 17, 10, "counts"),
        (10, 3, 10, "lines"),
        (11, 0, 11, "counts"),
        (11, 65, 11, "counts"),
        (12, 0, 12, "counts"),
        (13, 16, 12, "counts"), // 4,100 objects
        (20, 0, 20, "level"), // the first level again
        (21, 1, 20, "level"), // the zero byte
        (25, 2, 25, "schedule"),
        (26, 2, 26, "level"),
        (27, 2, 26, "level"),
        (27, 1, 26, "level"), // the current level above the greatest
        (28, 0, 26, "mode"),
        (29, 2, 26, "mode"),
        (48, 1, 26, "entry"),
        (62, 1, 26, "entry"), // the last one
        (64, 33, 26, "counts"),
        (64, 2, 70, "window"), // 1 after 16
        (65, 32, 65, "window"),
        (67, 0x80, 65, "window"), // no path
        (115, 0x10, 114, "path"), // the first object is `/0`
        (118, 1, 114, "kind"), // root is a segment
        (119, 1, 114, "blocks"),
        (120, 1, 142, "level"), // `/0` is below root
        (122, 0, 114, "quota"),
        (122, 3, 114, "quota"), // 4 used of 3
        (123, 16, 114, "quota"), // a limit of 4,112
        (124, 0x12, 114, "row"), // e of a directory
        (140, 1, 114, "contents"), // a word of a directory
        (143, 0, 142, "path"), // root again
        (143, 0x20, 142, "parent"), // `/0/0` without `/0`
        (143, 0x80, 142, "path"), // no path
        (146, 4, 142, "kind"),
        (147, 0, 142, "blocks"),
        (147, 129, 142, "blocks"),
        (148, 2, 142, "level"),
        (149, 1, 142, "zero"),
        (150, 1, 142, "quota"), // of a segment
        (153, 1, 142, "row"),
        (168, 33, 142, "contents"),
        (203, 2, 198, "blocks"), // no such line
        (231, 0, 226, "blocks"), // line 0 again
        (254, 2, 254, "subject"),
        (255, 0, 254, "modes"),
        (255, 16, 254, "modes"),
        (255, 2, 254, "kind"),
        (257, 0x80, 254, "path"), // no path
        (261, 4, 260, "row"),
        (263, 0, 260, "path"), // root again
        (272, 0, 272, "path"), // root after `/1`
        (287, 19, 284, "exists"),
    ];
    for (at, byte, place, text) in rows {
        let bytes = spoilt(alloc, &[(at, byte)])?;
        assert_eq!(rt; fault_of(alloc, &bytes), Some((place, text)));
    }
    Ok(())
}

// Several bytes are others.
#[test]
fn tells_the_first_fault_of_spoilt_parts(rt: HostRuntime) -> Result<(), Fail> {
    let alloc = rt.alloc();
    let rows: [(&[(usize, u8)], u32, &str); 11] = [
        // the last words are 0
        (&[(196, 0), (197, 0)], 142, "contents"),
        // `/1/0` below a line
        (&[(227, 0x21)], 226, "parent"),
        // a row with w on `/2` for subject 0, who is below it
        (&[(236, 0x44), (269, 18)], 266, "ss"),
        // `/1` is an upgraded directory without a quota, or another directory with one
        (&[(202, 0), (204, 1)], 198, "quota"),
        (&[(202, 0), (206, 1)], 198, "quota"),
        // a row with w on `/1` for subject 1, who is above it
        (&[(208, 0x44), (287, 17)], 284, "star"),
        // a row with a on `/1` for subject 1, who is above it
        (&[(208, 0x84), (285, 8), (287, 17)], 284, "star"),
        // subject 0 may rise to the level of `/0`, of which it holds e, and is still below it
        (&[(26, 1), (148, 1)], 260, "star"),
        // `/1` is an upgraded directory, the line `/1/0` is below it, and subject 0 holds a on that
        (
            &[
                (10, 1),
                (202, 0),
                (204, 1),
                (206, 2),
                (227, 0x21),
                (231, 0),
                (236, 0x48),
                (267, 8),
                (269, 0x21),
            ],
            266,
            "parent",
        ),
        // the same with a limit of 1, of which 2 are used
        (
            &[
                (10, 1),
                (202, 0),
                (204, 1),
                (206, 1),
                (227, 0x21),
                (231, 0),
                (236, 0x48),
                (267, 8),
                (269, 0x21),
            ],
            198,
            "quota",
        ),
        // a fault of a level comes before one of a hold
        (&[(20, 0), (254, 2)], 20, "level"),
    ];
    for (changes, place, text) in rows {
        let bytes = spoilt(alloc, changes)?;
        assert_eq!(rt; fault_of(alloc, &bytes), Some((place, text)));
    }
    Ok(())
}

/// A record of an object at level 0 whose row is empty; `first` is the first word of its path.
fn record(
    alloc: Global,
    first: u16,
    kind: u8,
    blocks: u8,
    words: u16,
) -> Result<Vec<u8>, AllocError> {
    let mut bytes = vec![in alloc;
        (first % 256) as u8,
        (first / 256) as u8,
        0,
        0,
        kind,
        blocks,
    ]?;
    bytes.extend_from_slice(&[0; 20])?;
    bytes.extend_from_slice(&[(words % 256) as u8, (words / 256) as u8])?;
    Ok(bytes)
}

// Root, and four directories `/0` to `/3`, each over 16 segments of 4,096 words: the last segment's words would end at
// byte 526,334. They don't stand in the input, but `long` comes before `end`.
#[test]
fn refuses_what_is_too_long(rt: HostRuntime) -> Result<(), Fail> {
    let alloc = rt.alloc();
    let mut bytes = spoilt(alloc, &[(12, 69)])?;
    bytes.truncate(142);
    let words = vec![in alloc; 1u8; 8192]?;
    for directory in 0..4u16 {
        let above = record(alloc, 0x1000 + 256 * directory, 0, 0, 0)?;
        bytes.extend_from_slice(&above)?;
        for n in 0..16u16 {
            let segment = record(alloc, 0x2000 + 256 * directory + 16 * n, 1, 128, 4096)?;
            bytes.extend_from_slice(&segment)?;
            if directory < 3 || n < 15 {
                bytes.extend_from_slice(&words)?;
            }
        }
    }
    assert_eq!(rt; bytes.len(), 518_142);
    assert_eq!(rt; fault_of(alloc, &bytes), Some((518_142, "long")));
    Ok(())
}
