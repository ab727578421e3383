// The status of the command, and its line on the error output.

ghost use Rattle.std.specs.Prelude.{◌≡◌};
ghost use Rattle.bk_base.specs.Written.{Took, Broke};
ghost use Rattle.blpk.specs.Outcomes.{Finished, Said};

use crate::outcome::Outcome;
use crate::status::Status;
use bk_base::{Sink, write_all};

/// Writes a status's line.
fn say<E: Sink>(err: &mut E, line: &[u8], own: Status) -> Status
    ensures { Said (Took (E.taken err.old) (E.taken err.new) (E.faults err.old) (E.faults err.new))
        (Broke (E.taken err.old) (E.taken err.new) (E.faults err.old) (E.faults err.new)) line.now own result }
{
    match write_all(err, line) {
        Ok(()) => own,
        Err(_) => Status::WriteFault,
    }
}

/// The status, and its line on the error output.
pub fn finish<E: Sink>(err: &mut E, outcome: Outcome) -> Status
    ensures { Finished (err.new ≡ err.old) (Took (E.taken err.old) (E.taken err.new) (E.faults err.old) (E.faults err.new))
        (Broke (E.taken err.old) (E.taken err.new) (E.faults err.old) (E.faults err.new)) result outcome }
{
    match outcome {
        Outcome::Written => Status::Ok,
        Outcome::Write => Status::WriteFault,
        Outcome::Usage => say(
            err,
            b"usage: blpk run | build | list | gen N\n",
            Status::Usage,
        ),
        Outcome::Read => say(err, b"read fault\n", Status::ReadFault),
        Outcome::Refused(refusal) => say(err, refusal.line().as_slice(), refusal.status()),
        Outcome::NoMemory => say(err, b"no memory\n", Status::NoMemory),
    }
}
