// Kinds of object.

ghost use Rattle.std.specs.Prelude.{◌≡◌, ◌<◌};
ghost use Rattle.bk_object.specs.Kinds.{blocks_or_line, kind_modes, kind_number};

use crate::Modes;
use bitflags::Flags;

/// What an object is. A line carries its number.
#[derive(Clone, Copy, PartialEq, Eq, Debug)]
pub enum Kind {
    /// Its contents are its children, the objects whose paths are one entry longer.
    Directory,
    /// 1 to 128 blocks of 32 words.
    Segment,
    /// At most 16 messages of 4 words, and a count of lost ones.
    Mailbox,
    /// At most 64 typed bytes.
    Line(u8),
}

impl Kind {
    /// The modes by which an object of the kind can be held.
    pub fn modes(self) -> Modes
        ensures { result ≡ kind_modes self }
    {
        match self {
            Kind::Directory => Modes::from_bits_retain(5),
            Kind::Segment => Modes::from_bits_retain(15),
            Kind::Mailbox | Kind::Line(_) => Modes::from_bits_retain(12),
        }
    }

    /// The kind's number: 0 directory, 1 segment, 2 mailbox, 3 line.
    pub fn number(self) -> u8
        ensures value { result ≡ kind_number self }
        ensures small { result < 4 }
    {
        match self {
            Kind::Directory => 0,
            Kind::Segment => 1,
            Kind::Mailbox => 2,
            Kind::Line(_) => 3,
        }
    }

    /// A line's own number; of all else these blocks.
    pub fn blocks_or_line(self, blocks: u8) -> u8
        ensures { result ≡ blocks_or_line self blocks }
    {
        match self {
            Kind::Directory | Kind::Segment | Kind::Mailbox => blocks,
            Kind::Line(n) => n,
        }
    }
}
