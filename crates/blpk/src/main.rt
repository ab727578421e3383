//! The command: an image and a script in, a report out; a configuration in, its image or its listing out; or a number, and the
//! totals of the run that is generated from it.
//!
//! Model: `specs/Words.antt` (the words), `specs/Made.antt` (what each command makes of what it reads: `made_of`),
//! `specs/Lines.antt` (the lines), `specs/Causes.antt` (what each status says), `specs/Outcomes.antt` (what the command came to)
//! and `specs/Statuses.antt` (the numbers), over `report_of` of `bk_system`, `image_of` of `bk_image`, `script_of` of `bk_script`,
//! and `built` and `listing_of` of `bk_conf`.
//! Calls: `run_blpk`; `Status::number`, `Status::exit_code`.
//! Proved: with status Ok all input that the command asks for was read, and exactly what it makes of it went out: the report of
//! the abstract run, isolated for every level, the bytes of a configuration's image, its listing, or the last line of a generated
//! run's; every other status has its cause and its line; a failed write leaves a front of what is written; no failed read or
//! write is passed over. The exit code has the status's number.
//! Tested: `main`: the words, the standard streams and the exit status of the built program.
//! Neither: want of memory while the words are fetched.
//! Stands on: `arrayvec`, `bk_asm_text`, `bk_base`, `bk_conf`, `bk_fixture`, `bk_gen`, `bk_image`, `bk_kernel`, `bk_laws`,
//! `bk_level`, `bk_replay`, `bk_report`, `bk_script`, `bk_state`, `bk_system`, `itoa`.
#![tactic(auto)]

mod finish;
mod lines;
mod outcome;
mod perform;
mod status;
#[cfg(test)]
mod tests;
mod top;
mod words;

use bk_base::{StdSink, StdSource};
use finish::finish;
use outcome::Outcome;
use std::alloc::AllocError;
use std::io::ErrorKind;
use std::process::ExitCode;
use std::{env, io};
use top::run_blpk;

/// The words of the command line. Words that aren't UTF-8 are none of the command's, and so is the empty one in their place.
fn command_line(rt: &HostRuntime) -> Result<Vec<String>, AllocError> {
    let mut words = Vec::new(rt.alloc());
    match env::args(rt) {
        Ok(all) => {
            for word in all.skip(1) {
                words.push(word)?;
            }
        }
        Err(error) if error.kind() == ErrorKind::OutOfMemory => return Err(AllocError),
        Err(_) => words.push(String::new(rt.alloc()))?,
    }
    Ok(words)
}

fn main(rt: HostRuntime) -> io::Result<ExitCode> {
    let mut input = StdSource::new(rt.stdin());
    let mut out = StdSink::new(rt.stdout());
    let mut err = StdSink::new(rt.stderr());
    let status = match command_line(&rt) {
        Ok(words) => run_blpk(rt.alloc(), &words, &mut input, &mut out, &mut err),
        Err(AllocError) => finish(&mut err, Outcome::NoMemory),
    };
    Ok(status.exit_code())
}
