// A run from its bytes to its report.

ghost use Rattle.std.specs.Prelude.{◌≡◌, ◌⊎◌, IsOk};
ghost use Rattle.bk_base.specs.Outside.{Rose};
ghost use Rattle.bk_base.specs.Written.{Took, Broke};
ghost use Rattle.bk_replay.specs.Input.{OnInput};
ghost use Rattle.bk_replay.specs.Isolated.{IsIsolated};
ghost use Rattle.bk_replay.specs.Replayed.{IsAsked, Replayed, most_read};

use crate::playing::{PlayStop, play};
use bk_base::{ReadStop, Sink, Source, read_all};
use bk_image::{ImageFault, ImageStop, read_image};
use bk_kernel::Summary;
use bk_script::{ScriptFault, ScriptStop, read_script};
use std::alloc::Global;

/// The most bytes that are read: an image and a script at their limits, and one more.
const MOST_BYTES: u32 = 1_572_865;

/// Why no report of a run was written.
#[derive(Clone, Copy, PartialEq, Eq, Debug)]
pub enum RunStop {
    /// The input failed.
    Read,
    /// No prefix of the input is an image.
    Image(ImageFault),
    /// The bytes after the image are no script for it.
    Script(ScriptFault),
    /// The output failed.
    Write,
    /// The runtime had no more memory.
    NoMemory,
}

fn read_and_play<I: Source, O: Sink>(
    alloc: Global,
    input: &mut I,
    out: &mut O,
) -> Result<Summary, RunStop>
    ensures answer { Replayed (I.state input.old) (I.state input.new) (out.new ≡ out.old)
        (Took (O.taken out.old) (O.taken out.new) (O.faults out.old) (O.faults out.new))
        (Broke (O.taken out.old) (O.taken out.new) (O.faults out.old) (O.faults out.new)) result }
    ensures read_told { (result ≡ Err RunStop.Read → ⊥) → (I.state input.new).faults ≡ (I.state input.old).faults }
    ensures write_told { (result ≡ Err RunStop.Write → ⊥) → O.faults out.new ≡ O.faults out.old }
{
    let bytes = match read_all(alloc, input, MOST_BYTES) {
        Ok(bytes) => bytes,
        Err(ReadStop::Fault) => return Err(RunStop::Read),
        Err(ReadStop::NoMemory) => return Err(RunStop::NoMemory),
    };
    let (image, length) = match read_image(alloc, bytes.as_slice()) {
        Ok(read) => read,
        Err(ImageStop::Bad(fault)) => return Err(RunStop::Image(fault)),
        Err(ImageStop::NoMemory) => return Err(RunStop::NoMemory),
    };
    let (_, rest) = bytes.as_slice().split_at(length);
    let script = match read_script(alloc, rest, &image) {
        Ok(script) => script,
        Err(ScriptStop::Bad(fault)) => return Err(RunStop::Script(fault)),
        Err(ScriptStop::NoMemory) => return Err(RunStop::NoMemory),
    };
    match play(alloc, &image, &script, out) {
        Ok(summary) => Ok(summary),
        Err(PlayStop::Write) => Err(RunStop::Write),
        Err(PlayStop::NoMemory) => Err(RunStop::NoMemory),
    }
}

/// Reads an image and a script for it, and plays the script: the report goes out, and its totals are the answer.
///
/// At most 1,572,865 bytes are read, and where over 1,048,576 follow the image the script is refused as too long. The steps
/// are reading, image, script, the kernel's start, writing, and the first refusal is the answer. The order of the steps, and
/// the formats, are this project's own.
pub fn replay<I: Source, O: Sink>(
    alloc: Global,
    input: &mut I,
    out: &mut O,
) -> Result<Summary, RunStop>
    // What each answer says, of the bytes that were read, and of all that the input had left, where it tells: with Ok they are
    // an image and a script, all is read, and the output took exactly the report of their run; a refusal has its cause, and
    // all but Write leave the output untouched.
    ensures answer { Replayed (I.state input.old) (I.state input.new) (out.new ≡ out.old)
        (Took (O.taken out.old) (O.taken out.new) (O.faults out.old) (O.faults out.new))
        (Broke (O.taken out.old) (O.taken out.new) (O.faults out.old) (O.faults out.new)) result }

    // The answer is Read exactly where a read failed, and Write exactly where a write did: elsewhere the counts are as before.
    ensures read_told { (result ≡ Err RunStop.Read → ⊥) → (I.state input.new).faults ≡ (I.state input.old).faults }
    ensures write_told { (result ≡ Err RunStop.Write → ⊥) → O.faults out.new ≡ O.faults out.old }

    // With Ok, for every level, the line records of the lines under it are those of the report of the same image without the
    // bytes typed on other lines.
    ensures isolated { IsOk result → OnInput most_read (I.state input.old) (I.state input.new) (IsIsolated (O.taken out.old) (O.taken out.new)) }

    // Where no count rose, the answer is the first fault of the image, or else of the script, or else Ok; or NoMemory.
    ensures complete { (Rose (I.state input.old).faults (I.state input.new).faults → ⊥) → (Rose (O.faults out.old) (O.faults out.new) → ⊥)
        → (result ≡ Err RunStop.NoMemory) ⊎ OnInput most_read (I.state input.old) (I.state input.new) (IsAsked result) }
{
    read_and_play(alloc, input, out)
}
