ghost use Rattle.std.specs.Prelude.{◌≡◌, ◌<◌};

use crate::flags::Flags;
use crate::reference::Mode;

/// The processor status of a process. Outside kernel mode a process has register set 1 and priority 0,
/// so neither is kept.
#[derive(Clone, Copy, PartialEq, Eq, Debug)]
pub struct Ps {
    /// The current mode, bits 15 and 14: supervisor 01, user 11.
    pub mode: Mode,
    /// The previous mode, bits 13 and 12.
    pub previous: Mode,
    /// The trace bit, T, bit 4.
    pub trace: bool,
    /// The condition codes, bits 3 to 0.
    pub flags: Flags,
}

impl Ps {
    ghost use Rattle.bk_space.specs.Status.{status_of, word_of, with_low, popped};

    /// The status with which a process starts: T and the condition codes are clear.
    pub fn process(mode: Mode, previous: Mode) -> Ps
        ensures { result ≡ status_of mode previous }
    {
        Ps {
            mode,
            previous,
            trace: false,
            flags: Flags {
                n: false,
                z: false,
                v: false,
                c: false,
            },
        }
    }

    /// The status as a word.
    pub fn word(self) -> u16
        ensures { result ≡ word_of self }
    {
        let mode = match self.mode {
            Mode::Supervisor => 0o040000,
            Mode::User => 0o140000,
        };
        let previous = match self.previous {
            Mode::Supervisor => 0o10000,
            Mode::User => 0o30000,
        };
        mode + previous
            + 0o4000
            + self.trace as u16 * 0o20
            + self.flags.n as u16 * 0o10
            + self.flags.z as u16 * 0o4
            + self.flags.v as u16 * 0o2
            + self.flags.c as u16
    }

    /// The current mode.
    pub fn mode(self) -> Mode
        ensures { result ≡ self.mode }
    {
        self.mode
    }

    /// The previous mode.
    pub fn previous(self) -> Mode
        ensures { result ≡ self.previous }
    {
        self.previous
    }

    /// The condition codes.
    pub fn flags(self) -> Flags
        ensures { result ≡ self.flags }
    {
        self.flags
    }

    /// The trace bit, T.
    pub fn trace(self) -> bool
        ensures { result ≡ self.trace }
    {
        self.trace
    }

    /// With bits 4 to 0 replaced.
    pub fn with_low(self, low: u8) -> Ps
        requires { low < 32 }
        ensures { result ≡ with_low self low }
    {
        Ps {
            trace: low >> 4 & 1 == 1,
            flags: flags_of(u16::from(low)),
            ..self
        }
    }

    /// With the condition codes replaced.
    pub fn with_flags(self, flags: Flags) -> Ps
        ensures { result ≡ record self { flags = flags } }
    {
        Ps { flags, ..self }
    }

    /// The status after RTI or RTT has popped a word outside kernel mode (own rule): its mode bits are
    /// OR-ed into the present ones, its T and condition codes are taken, and the rest stays.
    pub fn popped(self, word: u16) -> Ps
        ensures { result ≡ popped self word }
    {
        Ps {
            mode: or_mode(self.mode, word >> 14),
            previous: or_mode(self.previous, word >> 12),
            trace: word >> 4 & 1 == 1,
            flags: flags_of(word),
        }
    }
}

ghost use Rattle.bk_space.specs.Status.{flags_in, or_mode};

// The condition codes in bits 3 to 0.
fn flags_of(word: u16) -> Flags
    ensures { result ≡ flags_in word }
{
    Flags {
        n: word >> 3 & 1 == 1,
        z: word >> 2 & 1 == 1,
        v: word >> 1 & 1 == 1,
        c: word & 1 == 1,
    }
}

// Two bits OR-ed into a mode: only the higher one can change it.
fn or_mode(mode: Mode, bits: u16) -> Mode
    ensures { result ≡ or_mode mode bits }
{
    if bits >> 1 & 1 == 1 { Mode::User } else { mode }
}
