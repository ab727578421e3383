// The rows of objects: two sets of modes in each of 16 or 32 bytes.

ghost use Rattle.std.specs.Prelude.{◌≡◌, ◌<◌, ◌≤◌, ◌*◌, ◌==◌, drop, length};
ghost use Rattle.std.specs.List.{list_all};
ghost use Rattle.bk_object.specs.Kinds.{kind_modes};
ghost use Rattle.bk_object.specs.Modes.{is_within};
ghost use Rattle.bk_object.specs.Pairs.{split_pairs};
ghost use Rattle.bk_object.specs.Rows.{in_row};
ghost use Rattle.bk_image.specs.Objects as model;

use bitflags::Flags;
use bk_object::{Kind, Modes, Row};

// The modes of the subject in the bytes of a row.
fn modes_at(pairs: &[u8], subject: u8) -> Modes
    requires { subject < 2 * length pairs.now }
    ensures value { result ≡ in_row (split_pairs pairs.now) subject }
    ensures four { result.0 < 16 }
{
    let pair = pairs[subject as usize / 2];
    if subject % 2 == 0 {
        Modes::from_bits_retain(pair % 16)
    } else {
        Modes::from_bits_retain(pair / 16)
    }
}

// How many subjects the bytes have sets for.
fn subjects_in(pairs: &[u8]) -> u8
    requires { length pairs.now ≤ 32 }
    ensures { result ≡ 2 * length pairs.now }
{
    2 * pairs.len() as u8
}

/// The row that the bytes tell.
pub(crate) fn row_of(pairs: &[u8]) -> Row
    requires { length pairs.now ≤ 32 }
    ensures { result ≡ model.row_of pairs.now }
{
    let mut row = Row::new();
    for subject in 0..subjects_in(pairs) {
        row.add(subject, modes_at(pairs, subject));
    }
    row
}

/// Whether each set of modes is within the kind's.
pub(crate) fn fits_modes(kind: Kind, pairs: &[u8]) -> bool
    requires { length pairs.now ≤ 32 }
    ensures { result ≡ model.fits_modes kind (model.row_of pairs.now) }
{
    for subject in 0..subjects_in(pairs) {
        if !modes_at(pairs, subject).is_within(kind.modes()) {
            return false;
        }
    }
    true
}

/// Whether no subject from the number on has modes.
pub(crate) fn fits_subjects(subjects: u8, pairs: &[u8]) -> bool
    requires { length pairs.now ≤ 32 }
    ensures { result ≡ model.fits_subjects subjects (model.row_of pairs.now) }
{
    for subject in subjects..subjects_in(pairs) {
        if modes_at(pairs, subject).bits() != 0 {
            return false;
        }
    }
    true
}
