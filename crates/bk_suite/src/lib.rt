//! Tests of the crates below: tables and runs that were worked out by hand or outside. They stand here and not in the crates that
//! they test, since a crate with tests is proved a second time for them.
//!
//! Model: `specs/Subjects.antt` (`HasSubjects`), how many subjects the system of a test has.
//! Calls: none.
//! Proved: no test breaks a condition of the calls that it makes.
//! Tested: `bk_base` (`src/base.rt`), the machine (`src/machine.rt`), the store (`src/store.rt`), the kernel calls
//! (`src/calls.rt`), the kernel (`src/kernel.rt`), images, scripts and reports (`src/image.rt`, `src/script.rt`,
//! `src/report.rt`), the assembler (`src/expressions.rt`, `src/asm_text.rt`, `src/asm.rt`), the builder (`src/conf.rt`), and
//! generated runs (`src/generated.rt`), as the heads of their crates say.
//! Neither: nothing.
//! Stands on: `bitflags`, `bk_asm`, `bk_asm_text`, `bk_base`, `bk_calls`, `bk_conf`, `bk_core`, `bk_exec`, `bk_expr`,
//! `bk_fixture`, `bk_gen`, `bk_image`, `bk_kernel`, `bk_laws`, `bk_level`, `bk_machine`, `bk_object`, `bk_path`, `bk_process`, `bk_queue`,
//! `bk_quota`, `bk_report`, `bk_script`, `bk_space`, `bk_state`, `bk_store`, `bk_system`, `bk_tree`.
#![tactic(auto)]

#[cfg(test)]
mod asm;
#[cfg(test)]
mod asm_text;
#[cfg(test)]
mod base;
#[cfg(test)]
mod calls;
#[cfg(test)]
mod conf;
#[cfg(test)]
mod expressions;
#[cfg(test)]
mod generated;
#[cfg(test)]
mod image;
#[cfg(test)]
mod kernel;
#[cfg(test)]
mod levels;
#[cfg(test)]
mod machine;
#[cfg(test)]
mod report;
#[cfg(test)]
mod script;
#[cfg(test)]
mod store;
