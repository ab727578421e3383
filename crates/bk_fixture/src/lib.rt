//! Fixtures for the tests of the crates above: images made from parts, and the sample as a value, as bytes and with its report.
//!
//! Model: none.
//! Calls: `System::image`, `segment`, `line`, `mailbox`; `sample_image`, `empty_image`, `sample_bytes`, and the constants of the sample.
//! Proved: no table stops a call.
//! Tested: what the sample's value spells, by the crate that reads and writes images.
//! Neither: what other tables give.
//! Stands on: `bitflags`, `bk_base`, `bk_level`, `bk_object`, `bk_path`, `bk_space`, `bk_state`.
#![tactic(auto)]

mod building;
mod parts;
mod sample;

pub use parts::{Holders, Object, Part, SYSTEM, Subject, System, USER, line, mailbox, segment};
pub use sample::{
    SAMPLE, SAMPLE_REPORT, SAMPLE_SCRIPT, SAMPLE_WORDS, empty_image, sample_bytes, sample_image,
};
