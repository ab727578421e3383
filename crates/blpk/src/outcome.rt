// What the command came to, before a line is written on the error output.

ghost use Rattle.std.specs.Prelude.{◌≡◌};
ghost use Rattle.blpk.specs.Lines.{line_of};
ghost use Rattle.blpk.specs.Made.{status_of};

use crate::lines::{build_line, image_line, script_line};
use crate::status::Status;
use arrayvec::ArrayVec;
use bk_conf::BuildFault;
use bk_image::ImageFault;
use bk_script::ScriptFault;

/// Why what was read is refused: its first fault.
#[derive(Clone, Copy, PartialEq, Eq, Debug)]
pub enum Refusal {
    Image(ImageFault),
    Script(ScriptFault),
    Build(BuildFault),
}

impl Refusal {
    /// The status that it ends with.
    pub fn status(self) -> Status
        ensures { result ≡ status_of self }
    {
        match self {
            Refusal::Image(_) => Status::ImageRefused,
            Refusal::Script(_) => Status::ScriptRefused,
            Refusal::Build(_) => Status::BuildRefused,
        }
    }

    /// Its line on the error output.
    pub fn line(self) -> ArrayVec<u8, 96>
        ensures { result.items ≡ line_of self }
    {
        match self {
            Refusal::Image(fault) => image_line(fault),
            Refusal::Script(fault) => script_line(fault),
            Refusal::Build(fault) => build_line(fault),
        }
    }
}

/// What the command came to.
#[derive(Clone, Copy, PartialEq, Eq, Debug)]
pub enum Outcome {
    /// What it makes of its input is written.
    Written,
    /// The words are none of the command's.
    Usage,
    /// A read of the input failed.
    Read,
    /// What was read is refused.
    Refused(Refusal),
    /// A write of the output failed.
    Write,
    /// The runtime had no more memory.
    NoMemory,
}
