ghost use Rattle.std.specs.Prelude.{◌≡◌};
ghost use Rattle.bk_script.specs.Fault.{kind_text};

use bk_base::Stop;

/// Why a script is refused.
#[derive(Clone, Copy, PartialEq, Eq, Debug)]
pub enum ScriptKind {
    /// It has over 1,048,576 bytes.
    Long,
    /// A line has no LF, or there is no line where one must come.
    End,
    /// A line is neither a record nor an END line.
    Form,
    /// A record's slot is over 65,534, the slots are over 65,535, or the turns of all slots over 4,194,304.
    Limit,
    /// The image has no such line.
    Line,
    /// A record doesn't stand above the one before it, by slot and then by line.
    Order,
    /// The last record's slot isn't below the number of slots.
    Slot,
    /// Bytes follow the END line.
    After,
}

impl ScriptKind {
    /// The word for it.
    pub fn text(self) -> &'static str
        ensures { result.now ≡ kind_text self }
    {
        match self {
            ScriptKind::Long => "long",
            ScriptKind::End => "end",
            ScriptKind::Form => "form",
            ScriptKind::Limit => "limit",
            ScriptKind::Line => "line",
            ScriptKind::Order => "order",
            ScriptKind::Slot => "slot",
            ScriptKind::After => "after",
        }
    }
}

/// The first fault of a script: its line, counted from 1, and its kind. A script that is too long has it at line 0.
#[derive(Clone, Copy, PartialEq, Eq, Debug)]
pub struct ScriptFault {
    pub line: u32,
    pub kind: ScriptKind,
}

/// Why no script was read: a fault of its bytes, or want of memory.
pub type ScriptStop = Stop<ScriptFault>;

impl From<ScriptFault> for ScriptStop {
    ghost use Rattle.std.specs.Prelude.{◌≡◌};
    ghost use Rattle.bk_base.specs.declared.stop.Stop.TheVariants.{Bad};

    ghost from_gives = { λ fault stop. stop ≡ Bad fault };

    fn from(fault: ScriptFault) -> ScriptStop {
        Stop::Bad(fault)
    }
}
