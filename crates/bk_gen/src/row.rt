// Rows: to whom an object grants which modes.

ghost use Rattle.std.specs.Prelude.{◌≡◌, ◌<◌, ◌==◌, true};
ghost use Rattle.bk_object.specs.Modes.{only, Write};
ghost use Rattle.bk_gen.specs.Objects as model;
ghost use Rattle.bk_gen.specs.Subjects.{levels_made, line_of};

use crate::subject::{LEVELS, SUBJECTS};
use bk_object::{Modes, Row};

/// The row that grants the modes to all subjects.
pub(crate) fn to_all(modes: Modes) -> Row
    requires { modes.0 < 16 }
    ensures { result ≡ model.to_all modes }
{
    let mut row = Row::new();
    for subject in 0..SUBJECTS {
        row.add(subject, modes);
    }
    row
}

/// The row that grants w to the subjects of a line.
pub(crate) fn to_line(line: u8) -> Row
    ensures { result ≡ model.to_line line }
{
    let mut row = Row::new();
    for subject in 0..SUBJECTS {
        if subject % LEVELS == line {
            row.add(subject, Modes::W);
        }
    }
    row
}
