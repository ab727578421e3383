//! The processor's registers and status, the notes by which an instruction is undone, and the bus.
//!
//! Model: `specs/AddrSpace.antt` (`AddrSpace`, `refusal`, `read_at`, `write_at`, `put`), `specs/Counts.antt`
//! (`counted_on`), `specs/Faults.antt` (`cause_of`), `specs/Parts.antt` (`byte_in`, `merged`), `specs/Registers.antt`
//! (`reg`, `with_reg`), `specs/Status.antt` (`word_of`, `popped`), `specs/Trail.antt` (`sr1_of`), `specs/Undo.antt`
//! (`undone`), `specs/Widths.antt` (`bits_of`).
//! Calls: `Ps::process`, `word`, `with_low`, `with_flags`, `popped`; `Regs::process`, `reg`, `set_reg`, `sp_of`,
//! `set_sp_of`; `Undo::new`, `note`, `move_reg`, `sr1`, `sr2`, `restore`; `page_number`, `offset_of`, `is_odd`, `answer`,
//! `byte_in`, `merged`; the calls of `Bus`.
//! Proved: a status as a word and what RTI pops into it, each register by its number, SR1 and SR2, and which references a
//! page refuses, with the first cause; `restore` gives the registers of `new` where the notes tell all changes. What a bus
//! answers is a clause of the trait, which each bus proves for itself.
//! Tested: nothing alone.
//! Neither: nothing.
//! Stands on: nothing.
//!
//! The status, bits 15 to 0:  MM PP S --- LLL T N Z V C
//!   MM current mode, PP previous mode (01 supervisor, 11 user), S register set (1), LLL priority (0)
//! An address, bits 15 to 0:  PPP BBBBBBB YYYYYY
//!   PPP page, BBBBBBB block of 64 bytes in the page, YYYYYY byte in the block
//! A page's number, 0 to 31:  16 for user, plus 8 for D space, plus PPP
#![tactic(auto)]

mod address;
mod bus;
mod cause;
mod field;
mod flags;
mod law;
mod note;
mod reference;
mod registers;
mod status;
mod undo;

pub use address::{PAGES, answer, byte_in, is_odd, merged, offset_of, page_number};
pub use bus::Bus;
pub use cause::Cause;
pub use field::Field;
pub use flags::Flags;
pub use law::{
    law_example_of_references, law_example_of_registers, law_example_of_statuses, law_references,
};
pub use reference::{Abort, Mode, Rights, Space, Width};
pub use registers::Regs;
pub use status::Ps;
pub use undo::Undo;
