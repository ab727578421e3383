//! The KT11-C's memory management unit: the registers of 32 pages, and the physical address of a reference.
//!
//! Model: `specs/ActivePages.antt` (`ActivePage`, `ActivePages`, `loaded`, `refused_by`, `relocated`), `specs/Kept.antt`
//! (`kept_as`, how the code keeps a page), `specs/Example.antt` (`one_page`).
//! Calls: `Mmu::new`, `load`, `clear`, `relocate`; `law_registers`, `law_example`.
//! Proved: `relocate` answers by the fields of the page's registers alone, in the order non-resident, length, read-only, and
//! its address lies in core above the kernel's blocks; `load` and `clear` change one page; each page that the unit keeps
//! grows upward, has an access control of 0, 2 or 6 and lies in core.
//! Tested: nothing alone.
//! Neither: nothing.
//! Stands on: `bk_core`, `bk_object`, `bk_space`.
//!
//! A page address register, bits 15 to 0:     --- - FFF FFF FFF FFF
//!   F page address field, the number of the page's first block of 64 bytes
//! A page descriptor register, bits 15 to 0:  - LLL LLL L -- -- E CCC
//!   L page length field, the number of the page's last block; E expansion direction, 0 upward; CCC access control field:
//!   000 non-resident, 010 read-only, 110 read and write. A and W, bits 7 and 6, are not kept
#![tactic(auto)]

mod law;
mod mmu;
mod page;

pub use law::{law_example, law_registers};
pub use mmu::Mmu;
