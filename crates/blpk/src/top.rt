// The top call.

ghost use Rattle.std.specs.Prelude.{◌≡◌, ◌⊎◌, ◌≤◌, None, List, ℕ, length};
ghost use Rattle.bk_base.specs.Outside.{Rose};
ghost use Rattle.bk_base.specs.Written.{Took, Broke};
ghost use Rattle.bk_replay.specs.Input.{OnInput};
ghost use Rattle.blpk.specs.Words.{command_of, texts};
ghost use Rattle.blpk.specs.Made.{IsIsolatedFor, expected, most_for_words};
ghost use Rattle.blpk.specs.Causes.{Asked, Made, Row, IsRead, IsRefusal, ByOut, ByErr};

use crate::finish::finish;
use crate::perform::perform;
use crate::status::Status;
use bk_base::{Sink, Source};
use std::alloc::Global;

/// The whole command. `words` are the arguments without the program's name.
///
/// What a clause says of the bytes read it says twice: of those that the input gave in this call, whatever it tells of itself,
/// and of all that it had left, where it tells them.
pub fn run_blpk<I: Source, O: Sink, E: Sink>(
    alloc: Global,
    words: &Vec<String>,
    input: &mut I,
    out: &mut O,
    err: &mut E,
) -> Status
    // The words name a command, which has read what it reads (all that there is, but for `gen`, which reads nothing), and the
    // output took exactly what the command makes of it: `run` makes the report of the run of an image and a script, `build` the
    // bytes of the image of a configuration, `list` its listing, and `gen` the last line of the report of the run that is generated
    // from its number.
    ensures ok { result ≡ Status.Ok → IsRead (texts words.now.items) (I.state input.old) (I.state input.new)
        × Asked (texts words.now.items) (I.state input.old) (I.state input.new)
        (Made (Took (O.taken out.old) (O.taken out.new) (O.faults out.old) (O.faults out.new))) }
    ensures quiet { result ≡ Status.Ok → err.new ≡ err.old }

    // For every level, of the bytes that the output took, the line records of the lines under the level are those of the report
    // of the same image, with as many slots, without the bytes typed on other lines.
    ensures isolated { result ≡ Status.Ok → Asked (texts words.now.items) (I.state input.old) (I.state input.new)
        (IsIsolatedFor (O.taken out.old) (O.taken out.new)) }

    // A status with a line: its cause holds, the error output took the line alone, and the output is untouched.
    ensures refused { IsRefusal result → (line : List ℕ) × Row (texts words.now.items) (I.state input.old) (I.state input.new) result line
        × Took (E.taken err.old) (E.taken err.new) (E.faults err.old) (E.faults err.new) line × (out.new ≡ out.old) }

    // WriteFault: by the output, with a front on it of what the command makes, or by the error output, with a front on it of the
    // line of a row that holds.
    ensures write_fault { result ≡ Status.WriteFault →
        ByOut (texts words.now.items) (I.state input.old) (I.state input.new) (err.new ≡ err.old)
        (Broke (O.taken out.old) (O.taken out.new) (O.faults out.old) (O.faults out.new))
        ⊎ ByErr (texts words.now.items) (I.state input.old) (I.state input.new) (out.new ≡ out.old)
        (Broke (E.taken err.old) (E.taken err.new) (E.faults err.old) (E.faults err.new)) }

    // Where the words ask for no input nothing is read, whatever the status.
    ensures unread { most_for_words (texts words.now.items) ≡ 0 → input.new ≡ input.old }

    // Wrong words give Usage, or WriteFault by the error output.
    ensures wrong_words { command_of (texts words.now.items) ≡ None →
        ((result ≡ Status.Usage) ⊎ (result ≡ Status.WriteFault)) × (input.new ≡ input.old) × (out.new ≡ out.old) }

    // No failed read or write is passed over: but with ReadFault and WriteFault the input's count of faults is as before, and but
    // with WriteFault those of the two outputs are.
    ensures read_told { (result ≡ Status.ReadFault → ⊥) → (result ≡ Status.WriteFault → ⊥)
        → (I.state input.new).faults ≡ (I.state input.old).faults }
    ensures write_told { (result ≡ Status.WriteFault → ⊥)
        → (O.faults out.new ≡ O.faults out.old) × (E.faults err.new ≡ E.faults err.old) }

    // Where no count rose, the status is what the words and the input ask for, or NoMemory.
    ensures complete { (Rose (I.state input.old).faults (I.state input.new).faults → ⊥) → (Rose (O.faults out.old) (O.faults out.new) → ⊥)
        → (Rose (E.faults err.old) (E.faults err.new) → ⊥)
        → (result ≡ Status.NoMemory) ⊎ OnInput (most_for_words (texts words.now.items)) (I.state input.old) (I.state input.new)
        (λ bytes. result ≡ expected (texts words.now.items) bytes) }
{
    let outcome = perform(alloc, words, input, out);
    finish(err, outcome)
}
