// The command itself, but for the line on the error output.

ghost use Rattle.std.specs.Prelude.{◌≡◌, IfOk, IsTrue};
ghost use Rattle.bk_base.specs.Outside.{SourceState};
ghost use Rattle.bk_base.specs.Written.{Took, Broke};
ghost use Rattle.bk_gen.specs.Image.{generated_image};
ghost use Rattle.bk_gen.specs.Script.{generated_script};
ghost use Rattle.bk_replay.specs.Played.{summary_of};
ghost use Rattle.blpk.specs.Made.{is_conversion, made_of, most_for_words};
ghost use Rattle.blpk.specs.Words.{texts};
ghost use Rattle.blpk.specs.Outcomes.{CameTo, MakesText, Performed, Wrote, outcome_of};

use crate::outcome::{Outcome, Refusal};
use crate::words::{Command, command_of};
use bk_base::{Failed, NoMemory, NullSink, ReadStop, Sink, Source, read_all, write_all};
use bk_conf::{BuildStop, build, list};
use bk_gen::generate;
use bk_image::write_image;
use bk_replay::{PlayStop, RunStop, Summary, play, replay, write_end};
use std::alloc::Global;

/// The most bytes of a configuration that are read: those that it has at most, and one more.
const MOST_TEXT: u32 = 1_048_577;

/// What the answer of a run comes to.
fn outcome_of(answer: Result<Summary, RunStop>) -> Outcome
    ensures { result ≡ outcome_of answer }
{
    match answer {
        Ok(_) => Outcome::Written,
        Err(RunStop::Read) => Outcome::Read,
        Err(RunStop::Image(fault)) => Outcome::Refused(Refusal::Image(fault)),
        Err(RunStop::Script(fault)) => Outcome::Refused(Refusal::Script(fault)),
        Err(RunStop::Write) => Outcome::Write,
        Err(RunStop::NoMemory) => Outcome::NoMemory,
    }
}

/// The command `run`: the report of the run of what is read.
fn run<I: Source, O: Sink>(alloc: Global, input: &mut I, out: &mut O) -> Outcome
    ensures came { CameTo Command.Run (I.state input.old) (I.state input.new) (out.new ≡ out.old)
        (Took (O.taken out.old) (O.taken out.new) (O.faults out.old) (O.faults out.new))
        (Broke (O.taken out.old) (O.taken out.new) (O.faults out.old) (O.faults out.new)) result }
    ensures read_told { (result ≡ Outcome.Read → ⊥) → (I.state input.new).faults ≡ (I.state input.old).faults }
    ensures write_told { (result ≡ Outcome.Write → ⊥) → O.faults out.new ≡ O.faults out.old }
{
    outcome_of(replay(alloc, input, out))
}

// The bytes of the image of a configuration.
fn image_text(alloc: Global, text: &[u8]) -> Result<Vec<u8>, BuildStop>
    ensures { MakesText result (made_of Command.Build text.now) }
{
    let image = build(alloc, text)?;
    match write_image(alloc, &image) {
        Ok(bytes) => Ok(bytes),
        Err(_) => Err(BuildStop::NoMemory),
    }
}

// The listing of a configuration.
fn listing_text(alloc: Global, text: &[u8]) -> Result<Vec<u8>, BuildStop>
    ensures { MakesText result (made_of Command.List text.now) }
{
    list(alloc, text)
}

// What `build` or `list` makes of a configuration.
fn text_made(alloc: Global, command: Command, text: &[u8]) -> Result<Vec<u8>, BuildStop>
    requires { IsTrue (is_conversion command) }
    ensures { MakesText result (made_of command text.now) }
{
    match command {
        Command::Build => image_text(alloc, text),
        Command::List => listing_text(alloc, text),
        Command::Run | Command::Gen(_) => Err(BuildStop::NoMemory),
    }
}

// Writes a text.
fn write_text<O: Sink>(out: &mut O, text: &[u8]) -> Outcome
    ensures wrote { Wrote (Took (O.taken out.old) (O.taken out.new) (O.faults out.old) (O.faults out.new) text.now)
        (Broke (O.taken out.old) (O.taken out.new) (O.faults out.old) (O.faults out.new) text.now) result }
    ensures write_told { (result ≡ Outcome.Write → ⊥) → O.faults out.new ≡ O.faults out.old }
{
    match write_all(out, text) {
        Ok(()) => Outcome::Written,
        Err(_) => Outcome::Write,
    }
}

/// The commands `build` and `list`: what they make of the configuration that is read.
fn convert<I: Source, O: Sink>(
    alloc: Global,
    command: Command,
    input: &mut I,
    out: &mut O,
) -> Outcome
    requires { IsTrue (is_conversion command) }
    ensures came { CameTo command (I.state input.old) (I.state input.new) (out.new ≡ out.old)
        (Took (O.taken out.old) (O.taken out.new) (O.faults out.old) (O.faults out.new))
        (Broke (O.taken out.old) (O.taken out.new) (O.faults out.old) (O.faults out.new)) result }
    ensures read_told { (result ≡ Outcome.Read → ⊥) → (I.state input.new).faults ≡ (I.state input.old).faults }
    ensures write_told { (result ≡ Outcome.Write → ⊥) → O.faults out.new ≡ O.faults out.old }
{
    let text = match read_all(alloc, input, MOST_TEXT) {
        Ok(text) => text,
        Err(ReadStop::Fault) => return Outcome::Read,
        Err(ReadStop::NoMemory) => return Outcome::NoMemory,
    };
    let bytes = match text_made(alloc, command, text.as_slice()) {
        Ok(bytes) => bytes,
        Err(BuildStop::Bad(fault)) => return Outcome::Refused(Refusal::Build(fault)),
        Err(BuildStop::NoMemory) => return Outcome::NoMemory,
    };
    write_text(out, bytes.as_slice())
}

/// The totals of the run that is generated from the number, or want of memory. Its report goes nowhere.
fn generated(alloc: Global, n: u32) -> Result<Summary, NoMemory>
    ensures { IfOk result (λ summary. summary ≡ summary_of generated_image (generated_script n).typed (generated_script n).slots) }
{
    let (image, script) = generate(alloc, n)?;
    let mut nowhere = NullSink::new();
    match play(alloc, &image, &script, &mut nowhere) {
        Ok(summary) => Ok(summary),
        Err(PlayStop::NoMemory) => Err(NoMemory),
        Err(PlayStop::Write) => unreachable!(),
    }
}

/// The command `gen`: the last line of the report of a generated run.
fn generate_run<O: Sink>(alloc: Global, n: u32, out: &mut O) -> Outcome
    ensures came { (state : SourceState) → CameTo (Command.Gen n) state state (out.new ≡ out.old)
        (Took (O.taken out.old) (O.taken out.new) (O.faults out.old) (O.faults out.new))
        (Broke (O.taken out.old) (O.taken out.new) (O.faults out.old) (O.faults out.new)) result }
    ensures write_told { (result ≡ Outcome.Write → ⊥) → O.faults out.new ≡ O.faults out.old }
{
    let Ok(summary) = generated(alloc, n) else {
        return Outcome::NoMemory;
    };
    match write_end(&summary, out) {
        Ok(()) => Outcome::Written,
        Err(Failed) => Outcome::Write,
    }
}

/// Performs what the words ask for, and says what it came to.
pub fn perform<I: Source, O: Sink>(
    alloc: Global,
    words: &Vec<String>,
    input: &mut I,
    out: &mut O,
) -> Outcome
    ensures performed { Performed (texts words.now.items) (I.state input.old) (I.state input.new) (input.new ≡ input.old) (out.new ≡ out.old)
        (Took (O.taken out.old) (O.taken out.new) (O.faults out.old) (O.faults out.new))
        (Broke (O.taken out.old) (O.taken out.new) (O.faults out.old) (O.faults out.new)) result }
    ensures unread { most_for_words (texts words.now.items) ≡ 0 → input.new ≡ input.old }
    ensures read_told { (result ≡ Outcome.Read → ⊥) → (I.state input.new).faults ≡ (I.state input.old).faults }
    ensures write_told { (result ≡ Outcome.Write → ⊥) → O.faults out.new ≡ O.faults out.old }
{
    match command_of(words) {
        None => Outcome::Usage,
        Some(Command::Run) => run(alloc, input, out),
        Some(Command::Build) => convert(alloc, Command::Build, input, out),
        Some(Command::List) => convert(alloc, Command::List, input, out),
        Some(Command::Gen(n)) => generate_run(alloc, n, out),
    }
}
