//! The outside: where bytes come from and go to, by counts of faults; lists of bytes and words; and, for the crates above,
//! first faults and formats that are read part by part, finite maps with each value changed and the sums over a map's entries.
//!
//! Model: `specs/Outside.antt` (`SourceState`, `HasCause`, `Reads`, `Writes`), `specs/Written.antt` (`Took`, `Broke`) and
//! `specs/Memory.antt` (`MemInput`, `MemOutput`, `SteadyInput`) for what goes in and out; `specs/Faults.antt` (`first_failing`,
//! `Gives`) and `specs/Parts.antt` (`part`, `checked`, `each_of`, `first_of`) for formats, with `specs/Example.antt`;
//! `specs/Maps.antt` (`map_values`, `IsDistinct`). `proofs/` has lemmas on them for the crates above.
//! Calls: `Source::read`, `Sink::write`, `read_all`, `write_all`; the constructors of the sources and sinks, `MemSink::taken`,
//! `Buf`, `Bytes`, `Words`, `Stop`. (`law_example` is an empty function, for its contract.)
//! Proved: a read gives the next bytes and a write takes the first ones; one that fails has raised the count of faults, and one
//! that doesn't has left it as it was; the sources and sinks in memory fail exactly where they are told to. A source's history
//! is the bytes of its reads, whether it tells what is left or not. Of the formats, what the example shows.
//! Tested: in `bk_suite`, that `StdSource` and `StdSink` ever succeed, and their answers at a directory and at a full device.
//! Neither: what a file or a terminal gave or took.
//! Stands on: nothing.
#![tactic(auto)]

mod all;
mod buf;
mod failed;
mod history;
mod laws;
mod lists;
mod mem_sink;
mod mem_source;
mod null_sink;
mod sink;
mod source;
mod std_sink;
mod std_source;
mod steady_source;
mod stop;

pub use all::{ReadStop, read_all, write_all};
pub use buf::Buf;
pub use failed::{Failed, NoMemory};
pub use laws::law_example;
pub use lists::{Bytes, Sequence, Words};
pub use mem_sink::MemSink;
pub use mem_source::MemSource;
pub use null_sink::NullSink;
pub use sink::Sink;
pub use source::Source;
pub use std_sink::StdSink;
pub use std_source::StdSource;
pub use steady_source::SteadySource;
pub use stop::Stop;
