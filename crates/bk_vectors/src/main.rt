//! Compares cases of the processor, computed outside, with the project's own calls.
//!
//! Model: none; `Agrees` of `bk_case` says when a case agrees.
//! Calls: none. `main` takes cases on standard input, and writes those that differ, up to twenty, and the totals;
//! a case of one instruction is taken on a plain bus and through the machine, each with a total of its own.
//! Proved: no input stops it. Whether a case agrees, and how it is counted, is proved in `bk_case`.
//! Tested: how cases are read, by one run over 1,275 lines.
//! Neither: nothing.
//! Stands on: `bk_case`, `bk_cpu`, `bk_isa`, `bk_space`.
#![tactic(auto)]

mod block;
mod instr;
mod line;
mod names;
mod numbers;

use bk_case::{Tally, Unread, agrees, machine_agrees, step_agrees};
use block::read_step;
use line::read_case;
use std::alloc::{AllocError, Global};
use std::io::{self, Read};
use std::process::ExitCode;

/// How many lines that differ are named.
const NAMED: u64 = 20;

/// How a case that differs on the machine is named.
const THROUGH: &str = " through the machine";

/// Whether a line spells a case, and the project's call gives its answer.
fn line_agrees(line: &[u8]) -> bool {
    match str::from_utf8(line) {
        Ok(text) => match read_case(text) {
            Some(case) => agrees(case),
            None => false,
        },
        Err(_) => false,
    }
}

/// Whether a case that was read agrees; one that is spelled wrongly doesn't.
fn answer(agrees: Result<bool, Unread>) -> Result<bool, AllocError> {
    match agrees {
        Ok(agrees) => Ok(agrees),
        Err(Unread::Form) => Ok(false),
        Err(Unread::NoMemory) => Err(AllocError),
    }
}

/// Whether a block of lines spells a case of one instruction, and a step on a plain bus gives its answer; and whether the
/// machine gives it.
fn block_agrees(alloc: Global, block: &[u8]) -> Result<(bool, bool), AllocError> {
    let Ok(text) = str::from_utf8(block) else {
        return Ok((false, false));
    };
    match read_step(alloc, text) {
        Ok(case) => {
            let plain = answer(step_agrees(alloc, &case))?;
            Ok((plain, answer(machine_agrees(alloc, &case))?))
        }
        Err(unread) => {
            let neither = answer(Err(unread))?;
            Ok((neither, neither))
        }
    }
}

/// Names a line that differs, or the first line of a block, and where it does.
fn name_line<R: Print>(rt: &R, number: usize, place: &str, text: &[u8]) -> io::Result<()> {
    let line = text.split(|byte| *byte == b'\n').next().unwrap_or(text);
    match str::from_utf8(line) {
        Ok(line) => println!(rt; "line {number} differs{place}: {line}"),
        Err(_) => println!(rt; "line {number} differs{place}"),
    }
}

/// A text without the line end that ends it.
fn without_end(text: &[u8]) -> &[u8] {
    match text.strip_suffix(b"\n") {
        Some(lines) => lines,
        None => text,
    }
}

/// What was counted: every case, and those of one instruction once more, through the machine.
#[derive(Clone, Copy)]
struct Tallies {
    cases: Tally,
    machine: Tally,
}

impl Tallies {
    fn new() -> Tallies {
        Tallies {
            cases: Tally::new(),
            machine: Tally::new(),
        }
    }
}

/// Counts a case, and names it where it differs, up to twenty.
fn count<R: Print>(
    rt: &R,
    tally: &mut Tally,
    agrees: bool,
    number: usize,
    place: &str,
    text: &[u8],
) -> io::Result<()> {
    tally.count(agrees);
    if !agrees && tally.differ <= NAMED {
        name_line(rt, number, place, text)?;
    }
    Ok(())
}

/// Counts the case of a block of lines, on a plain bus and on the machine.
fn count_block<R: Print>(
    rt: &R,
    alloc: Global,
    tallies: &mut Tallies,
    number: usize,
    block: &[u8],
) -> io::Result<()> {
    let (plain, machine) = block_agrees(alloc, block)?;
    count(rt, &mut tallies.cases, plain, number, "", block)?;
    count(rt, &mut tallies.machine, machine, number, THROUGH, block)
}

/// Counts the cases: each line is one, and from a line `case` on the lines up to an empty one are one.
fn compare<R: Print>(rt: &R, alloc: Global, text: &[u8]) -> io::Result<Tallies> {
    let mut tallies = Tallies::new();
    let mut block = Vec::new(alloc);
    let mut first = 0;
    for (at, line) in text.split(|byte| *byte == b'\n').enumerate() {
        if line.starts_with(b"case ") {
            first = at + 1;
        }
        if first == 0 {
            let agrees = line_agrees(line);
            count(rt, &mut tallies.cases, agrees, at + 1, "", line)?;
        } else if line.is_empty() {
            count_block(rt, alloc, &mut tallies, first, block.as_slice())?;
            block.clear();
            first = 0;
        } else {
            block.extend_from_slice(line)?;
            block.push(b'\n')?;
        }
    }
    if first != 0 {
        count_block(rt, alloc, &mut tallies, first, block.as_slice())?;
    }
    Ok(tallies)
}

fn main(rt: HostRuntime) -> io::Result<ExitCode> {
    let mut bytes = Vec::new(rt.alloc());
    rt.reader().read_to_end(&mut bytes)?;
    let tallies = if bytes.is_empty() {
        Tallies::new()
    } else {
        compare(&rt, rt.alloc(), without_end(&bytes))?
    };
    let Tallies { cases, machine } = tallies;
    println!(rt; "{} agree, {} differ", cases.agree, cases.differ)?;
    println!(rt;
        "through the machine: {} agree, {} differ",
        machine.agree, machine.differ
    )?;
    Ok(if cases.is_clean() && machine.is_clean() {
        ExitCode::SUCCESS
    } else {
        ExitCode::FAILURE
    })
}
