//! The machine: a processor whose references go by page registers into core, one instruction at a time, and its traps.
//!
//! Model: `specs/Paged.antt` (`shown_in`, `refused_at`, `after_write`) for the pages, `specs/Vectors.antt` (`vectors`,
//! `HasVectors`) and `specs/Trap.antt` (`vector_of`, `entered`, `trapped`) for the trap sequence, `specs/Machine.antt`
//! (`MachineState`, `instruction_of`, `written_of`, `KeepsRest`), `specs/Lending.antt` (`with_core`).
//! Calls: `Machine::reserve`, `run_one`, `leave`, `kernel_regs`, `process_regs`, `set_process`, `load_page`, `clear_page`,
//! `clear_pages`, `writable`, `references`, `core`, `core_mut`, `runs`, `last`, and those of `Bus`; `law_pages`,
//! `law_vectors`.
//! Proved: each reference is answered by the registers of its page alone, and a write leaves the kernel's blocks; `run_one`
//! is the defined instruction over the pages that registers and core give, and after a call or a fault the trap sequence;
//! `last` and `runs` tell of it; each other call changes its own part alone.
//! Tested: in `bk_suite`, the calls one after another, with an EMT, on octal words; pages at the bounds of their registers.
//! Neither: nothing.
//! Stands on: `bk_base`, `bk_core`, `bk_cpu`, `bk_exec`, `bk_mmu`, `bk_object`, `bk_space`.
//!
//! Core blocks 0 to 63 are the kernel's D space, addresses 000000 to 007777:
//!   000004, 10, 14, 20, 30, 34 and 000250  a vector each: new program counter, new status
//!   007774, 007776                         old program counter, old status, once a trap has pushed them
#![tactic(auto)]

mod counts;
mod law;
mod machine;
mod paged;
mod ran;
mod registers;
mod trap;
mod vectors;

pub use law::{law_pages, law_vectors};
pub use machine::Machine;
pub use ran::Ran;
pub use registers::KernelRegs;
