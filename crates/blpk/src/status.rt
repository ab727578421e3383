ghost use Rattle.std.specs.Prelude.{◌≡◌};
ghost use Rattle.std.specs.Process.{exit_status};
ghost use Rattle.blpk.specs.Statuses.{number_of};

use std::process::ExitCode;

/// How the command ended.
#[derive(Clone, Copy, PartialEq, Eq, Debug)]
pub enum Status {
    /// All output is written, and all input was read to its end.
    Ok,
    /// The words are none of the command's.
    Usage,
    /// No image is a prefix of the input.
    ImageRefused,
    /// The bytes after the image are no script for it.
    ScriptRefused,
    /// A configuration has a fault.
    BuildRefused,
    /// A read of the input failed.
    ReadFault,
    /// A write of the output, or of the error output, failed.
    WriteFault,
    /// The runtime had no more memory.
    NoMemory,
}

impl Status {
    /// The number that the program ends with.
    pub fn number(self) -> u8
        ensures { result ≡ number_of self }
    {
        match self {
            Status::Ok => 0,
            Status::Usage => 2,
            Status::ImageRefused => 3,
            Status::ScriptRefused => 4,
            Status::BuildRefused => 5,
            Status::ReadFault => 6,
            Status::WriteFault => 7,
            Status::NoMemory => 8,
        }
    }

    /// What `main` ends with: a code of that number.
    pub fn exit_code(self) -> ExitCode
        ensures { exit_status result ≡ number_of self }
    {
        ExitCode::from(self.number())
    }
}
