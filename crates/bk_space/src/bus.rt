ghost use Rattle.std.specs.Prelude.{◌≡◌, ℕ, OnOk, OnErr};
ghost use Rattle.bk_space.specs.declared.reference.Width.TheVariants.{Word, Byte};
ghost use Rattle.bk_space.specs.AddrSpace.{AddrSpace, Write, read_at, write_at};
ghost use Rattle.bk_space.specs.Counts.{counted_on};

use crate::reference::{Abort, Mode, Space};

/// What the processor reads and writes: an address space, and a count of the references made to it.
/// An abort comes exactly by the rights and the length of the page that the address chooses, and
/// changes nothing but the count.
pub trait Bus {
    /// What the bus holds, without its count.
    ghost State: { Type 0 };

    ghost state: { Self → State };

    /// The pages that it shows.
    ghost shown: { State → AddrSpace };

    /// What a completed write leaves.
    ghost after: { State → Write → State };

    /// How many references were made; the count stands at the last value of u64.
    ghost references: { Self → ℕ };

    /// Reads the word at an even address.
    fn read_word(&mut self, mode: Mode, space: Space, addr: u16) -> Result<u16, Abort>
        ensures value { result ≡ read_at (shown (state self.old)) mode space Word addr }
        ensures state { state self.new ≡ state self.old }
        ensures count { references self.new ≡ counted_on (references self.old) 1 };

    /// Reads a byte.
    fn read_byte(&mut self, mode: Mode, space: Space, addr: u16) -> Result<u8, Abort>
        ensures value { result ≡ read_at (shown (state self.old)) mode space Byte addr }
        ensures state { state self.new ≡ state self.old }
        ensures count { references self.new ≡ counted_on (references self.old) 1 };

    /// Writes the word at an even address.
    fn write_word(&mut self, mode: Mode, space: Space, addr: u16, value: u16) -> Result<(), Abort>
        ensures answer { result ≡ write_at (shown (state self.old)) mode space Word addr }
        ensures written { OnOk result (state self.new ≡ after (state self.old) (record { mode = mode; space = space; width = Word; addr = addr; value = value })) }
        ensures kept { OnErr result (state self.new ≡ state self.old) }
        ensures count { references self.new ≡ counted_on (references self.old) 1 };

    /// Writes a byte.
    fn write_byte(&mut self, mode: Mode, space: Space, addr: u16, value: u8) -> Result<(), Abort>
        ensures answer { result ≡ write_at (shown (state self.old)) mode space Byte addr }
        ensures written { OnOk result (state self.new ≡ after (state self.old) (record { mode = mode; space = space; width = Byte; addr = addr; value = value })) }
        ensures kept { OnErr result (state self.new ≡ state self.old) }
        ensures count { references self.new ≡ counted_on (references self.old) 1 };
}
