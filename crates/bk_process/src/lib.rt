//! A saved process: its registers, the paths that its windows show, its fault entries, and whether it runs.
//!
//! Model: `specs/NewProcess.antt` (`new_process`), `specs/Lending.antt` (`with_registers`); else the record of its fields.
//! Calls: `Process::new`, `regs`, `regs_mut`, `window`, `set_window`, `fault_entry`, `set_fault_entry`, `status`,
//! `set_status`.
//! Proved: each call that reads gives its field, and each that writes changes that field, or that place in it, alone.
//! Tested: the calls one after another on one process.
//! Neither: nothing.
//! Stands on: `bk_path`, `bk_space`.
//!
//! A window's number, 0 to 31:  16 for user, plus 8 for D space, plus the page, 0 to 7
#![tactic(auto)]

mod process;
mod status;
#[cfg(test)]
mod tests;

pub use process::{FAULT_ENTRIES, Process, WINDOWS};
pub use status::Status9;
