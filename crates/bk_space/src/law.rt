ghost use Rattle.std.specs.Prelude.{◌≡◌, ℕ, ◌↔◌, pos, negsuc, IsOk, true, false, Some, None};
ghost use Rattle.bk_space.specs.declared.reference.Mode.{Mode};
ghost use Rattle.bk_space.specs.declared.reference.Mode.TheVariants.{Supervisor, User};
ghost use Rattle.bk_space.specs.declared.reference.Space.{Space};
ghost use Rattle.bk_space.specs.declared.reference.Space.TheVariants.{D};
ghost use Rattle.bk_space.specs.declared.reference.Width.{Width};
ghost use Rattle.bk_space.specs.declared.reference.Width.TheVariants.{Word, Byte};
ghost use Rattle.bk_space.specs.declared.reference.Abort.TheVariants.{Odd, NonResident, Length, ReadOnly};
ghost use Rattle.bk_space.specs.declared.reference.Rights.TheVariants as rights;
ghost use Rattle.bk_space.specs.AddrSpace.{AddrSpace, page_at, page_number, refused, read_at, write_at, Completes};
ghost use Rattle.bk_space.specs.Parts.{byte_in, with_byte};
ghost use Rattle.bk_space.specs.Registers.{reg, moved, registers_of, wrapped};
ghost use Rattle.bk_space.specs.Status.{status_of, word_of, with_low, popped};
ghost use Rattle.bk_space.specs.Trail.{sr1_of};

/// A reference completes exactly where a word's address is even, the page is there, the address is
/// inside it, and it may be written where the reference writes.
pub fn law_references()
    ensures read { (pages : AddrSpace) (mode : Mode) (space : Space) (width : Width) (addr : ℕ) → IsOk (read_at pages mode space width addr) ↔ Completes (page_at pages mode space addr) width addr false }
    ensures write { (pages : AddrSpace) (mode : Mode) (space : Space) (width : Width) (addr : ℕ) → IsOk (write_at pages mode space width addr) ↔ Completes (page_at pages mode space addr) width addr true }
{}

/// References worked by hand, to page 25 (user D space, 020000 on) with one block of 32 words: its last byte is at 020077.
/// Where two aborts hold, the first of the order is the answer.
pub fn law_example_of_references()
    ensures number { page_number User D 0o20000 ≡ 25 }
    ensures last { refused rights.Read 32 Byte 0o20077 false ≡ None }
    ensures length { refused rights.Read 32 Byte 0o20100 false ≡ Some Length }
    ensures read_only { refused rights.Read 32 Word 0o20000 true ≡ Some ReadOnly }
    ensures length_first { refused rights.Read 32 Word 0o20100 true ≡ Some Length }
    ensures absent_first { refused rights.None 0 Byte 0o20000 true ≡ Some NonResident }
    ensures odd_first { refused rights.None 0 Word 0o20001 true ≡ Some Odd }
    ensures low { byte_in 0o20000 0o041101 ≡ 0o101 }
    ensures high { byte_in 0o20001 0o041101 ≡ 0o102 }
    ensures replaced { with_byte 0o20001 0o103 0o041101 ≡ 0o041501 }
{}

/// Statuses worked by hand: bits 15 and 14 are the mode, 13 and 12 the previous mode, 11 the register set, 4 is T. What is
/// popped can raise supervisor mode to user mode, and never the other way.
pub fn law_example_of_statuses()
    ensures user { word_of (status_of User User) ≡ 0o174000 }
    ensures supervisor { word_of (status_of Supervisor User) ≡ 0o074000 }
    ensures low { word_of (with_low (status_of Supervisor Supervisor) 0o25) ≡ 0o054025 }
    ensures kept { word_of (popped (status_of User User) 0o000357) ≡ 0o174017 }
    ensures same { word_of (popped (status_of Supervisor Supervisor) 0o050020) ≡ 0o054020 }
    ensures raised { word_of (popped (status_of Supervisor Supervisor) 0o100000) ≡ 0o154000 }
    ensures previous { word_of (popped (status_of Supervisor Supervisor) 0o020005) ≡ 0o074005 }
{}

/// Registers and notes worked by hand: R6 is the stack pointer of the mode, a word moves around the end of its 16 bits, and in
/// SR1 an amount stands in five bits above its register.
#[tactic(auto, unfolding(crate::specs::Registers::reg))]
pub fn law_example_of_registers()
    ensures stack { reg (record (registers_of (status_of Supervisor User)) { supervisor = 0o400; user = 0o1000 }) 6 ≡ 0o400 }
    ensures up { wrapped (pos 0o200001) ≡ 1 }
    ensures down { wrapped (negsuc 1) ≡ 0o177776 }
    ensures noted { sr1_of (record { pc = 0o1000; first = Some (1, pos 2); second = Some (6, negsuc 1) }) ≡ 0b1111011000010001 }
{}
