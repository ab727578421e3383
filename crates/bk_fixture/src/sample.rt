// The sample: two subjects of two levels, the program that they share, and a line for each.

use crate::parts::{Object, Part, Subject, System, USER, line, segment};
use bk_base::{Bytes, Sequence};
use bk_level::LevelTable;
use bk_state::Image;
use std::alloc::{AllocError, Global};

/// The 290 bytes of the sample's image: a header of 16, levels at 16 and 20, a schedule at 24, subjects at 26 and 70,
/// objects at 114 (`/`), 142 (`/0`, with the program's words at 170), 198 (`/1`) and 226 (`/2`), holds from 254 on.
pub const SAMPLE: [u8; 290] = [
    66, 76, 80, 75, 1, 0, 32, 0, 2, 2, 2, 2, 4, 0, 6, 0, 0, 0, 0, 0, 1, 0, 0, 0, 0, 1, 0, 0, 3, 3,
    0, 0, 0, 0, 0, 0, 0, 0, 0, 0, 0, 17, 0, 0, 0, 0, 0, 0, 0, 0, 0, 0, 0, 0, 0, 0, 0, 0, 0, 0, 0,
    0, 0, 0, 1, 16, 0, 16, 0, 0, 1, 1, 3, 3, 0, 0, 0, 0, 0, 0, 0, 0, 0, 0, 0, 18, 0, 0, 0, 0, 0, 0,
    0, 0, 0, 0, 0, 0, 0, 0, 0, 0, 0, 0, 0, 0, 0, 0, 1, 16, 0, 16, 0, 0, 0, 0, 0, 0, 0, 0, 0, 0, 16,
    0, 17, 0, 0, 0, 0, 0, 0, 0, 0, 0, 0, 0, 0, 0, 0, 0, 0, 0, 0, 16, 0, 0, 1, 1, 0, 0, 0, 0, 51, 0,
    0, 0, 0, 0, 0, 0, 0, 0, 0, 0, 0, 0, 0, 0, 14, 0,
    // The program, low bytes first.
    0x41, 0x11, 0xc2, 0x15, 0x00, 0x00, 0x10, 0x88, 0xc0, 0x0b, 0x02, 0x03, 0x14, 0x88, 0xf8, 0x01,
    0x83, 0x10, 0x41, 0x11, 0xc2, 0x15, 0x00, 0x00, 0x0f, 0x88, 0xf2, 0x01,
    // The two lines, and who holds what.
    0, 17, 0, 0, 3, 0, 0, 0, 0, 0, 4, 0, 0, 0, 0, 0, 0, 0, 0, 0, 0, 0, 0, 0, 0, 0, 0, 0, 0, 18, 0,
    0, 3, 1, 1, 0, 0, 0, 64, 0, 0, 0, 0, 0, 0, 0, 0, 0, 0, 0, 0, 0, 0, 0, 0, 0, 0, 1, 0, 0, 0, 0,
    0, 2, 0, 16, 0, 0, 0, 4, 0, 17, 0, 0, 1, 1, 0, 0, 0, 0, 1, 2, 0, 16, 0, 0, 1, 4, 0, 18, 0, 0,
];

/// The 14 words of the sample's program: a byte is taken from the caller's line and sent back, and with none
/// the rest of the slot is let go.
pub const SAMPLE_WORDS: [u16; 14] = [
    0o010501, 0o012702, 0o000000, 0o104020, 0o005700, 0o001402, 0o104024, 0o000770, 0o010203,
    0o010501, 0o012702, 0o000000, 0o104017, 0o000762,
];

/// A script of two slots for the sample: two bytes are typed on each line.
pub const SAMPLE_SCRIPT: &[u8] = b"0 0 6869\n1 1 4849\nEND 2\n";

/// The report of the sample under that script.
pub const SAMPLE_REPORT: &[u8] = b"C 0 2 0 020 000000 010400 000000 000000 000000 010400 yes 0
C 0 8 0 017 000000 010400 000000 000150 000000 010400 yes 0
L 0 8 0 150
C 0 12 0 020 000000 010400 000000 000150 000000 010400 yes 0
C 0 18 0 017 000000 010400 000000 000151 000000 010400 yes 0
L 0 18 0 151
C 0 22 0 020 000000 010400 000000 000151 000000 010400 no 9
C 0 25 0 024 000001 000011 000000 000151 000000 010400 yes 0
C 1 2 1 020 000000 011000 000000 000000 000000 011000 yes 0
C 1 8 1 017 000000 011000 000000 000110 000000 011000 yes 0
L 1 8 1 110
C 1 12 1 020 000000 011000 000000 000110 000000 011000 yes 0
C 1 18 1 017 000000 011000 000000 000111 000000 011000 yes 0
L 1 18 1 111
C 1 22 1 020 000000 011000 000000 000111 000000 011000 no 9
C 1 25 1 024 000001 000011 000000 000111 000000 011000 yes 0
END 2 64 62 12
";

/// The bytes of the sample's image, and a script behind them.
pub fn sample_bytes(alloc: Global, script: &[u8]) -> Result<Vec<u8>, AllocError> {
    let mut bytes = SAMPLE.to_vec(alloc)?;
    bytes.extend_from_slice(script)?;
    Ok(bytes)
}

/// The sample's image as a value; None where memory is wanting.
pub fn sample_image(alloc: Global) -> Option<Image> {
    let program: [Part; 1] = [(0, &SAMPLE_WORDS)];
    let objects = [
        Object {
            granted: &[(0, 1), (1, 1)],
            ..segment(1, &program, &[(0, 2), (1, 2)])
        },
        line(0, &[(0, 4)]),
        Object {
            level: 1,
            ..line(1, &[(1, 4)])
        },
    ];
    let subjects = [with_line(0, 0o010400), with_line(1, 0o011000)];
    let system = System {
        turns: 32,
        classes: &[0, 1],
        schedule: &[0, 1],
        subjects: &subjects,
        quota: 16,
        root: &[(0, 1), (1, 1)],
        objects: &objects,
    };
    system.image(alloc)
}

// A subject of that level, with the first word of the path of its line in R5.
fn with_line(level: u8, path: u16) -> Subject<'static> {
    Subject {
        greatest: level,
        current: level,
        general: [0, 0, 0, 0, 0, path],
        ..USER
    }
}

/// An image of nothing but the turns of a slot and the number of lines.
pub fn empty_image(alloc: Global, turns: u16, lines: u8) -> Image {
    Image {
        turns,
        levels: LevelTable::new(),
        lines,
        schedule: Bytes::from_vec(Vec::new(alloc)),
        subjects: Sequence::from_vec(Vec::new(alloc)),
        objects: Sequence::from_vec(Vec::new(alloc)),
        holds: Sequence::from_vec(Vec::new(alloc)),
    }
}
