// Rows: which subject may hold an object by which modes.

ghost use Rattle.std.specs.Prelude.{◌≡◌, ◌<◌, ◌*◌, ◌++◌, length, replicate, slice_set};
ghost use Rattle.bk_object.specs.Modes.{no_modes};
ghost use Rattle.bk_object.specs.Rows.{given, in_row, rescinded};

use crate::Modes;
use crate::modes::{difference_of, union_of};
use bitflags::Flags;
use std::marker::Model;

/// How many subjects a system has at most.
pub const MOST_SUBJECTS: u8 = 64;

/// The access modes that an object grants to each of 2 N subjects.
///
/// Each of N bytes keeps two subjects, the lower one in its low four bits. A clause sees the list of all 2 N sets.
#[derive(Clone, Copy, Debug)]
pub struct RowOf<const N: usize> {
    pairs: [u8; N],
}

/// The row of an object: one for as many subjects as a system has at most.
pub type Row = RowOf<32>;

impl<const N: usize> Model for RowOf<N> {
    ghost use Rattle.std.specs.Prelude.{List};
    ghost use Rattle.bk_object.specs.declared.modes.Modes.{Modes as Set};

    ghost Value = { List Set };

    ghost use Rattle.bk_object.specs.Pairs.{sets_of, HasPairs, pairs_of, pairs_of-sets_of};

    ghost view = { sets_of };

    ghost invariant = { HasPairs N };

    ghost inverse = { pairs_of };

    ghost inverse_ok = { pairs_of-sets_of };
}

impl<const N: usize> RowOf<N> {
    /// A row that grants nothing to any subject.
    pub fn new() -> RowOf<N>
        ensures { result ≡ replicate (2 * N) no_modes }
    {
        RowOf { pairs: [0; N] }
    }

    /// The modes that the subject has in the row.
    pub fn get(&self, subject: u8) -> Modes
        requires { subject < 2 * N }
        ensures value { result ≡ in_row self.now subject }
        ensures four { result.0 < 16 }
        ensures sets { length self.now ≡ 2 * N }
    {
        let pair = self.pairs[subject as usize / 2];
        if subject % 2 == 0 {
            Modes::from_bits_retain(pair % 16)
        } else {
            Modes::from_bits_retain(pair / 16)
        }
    }

    /// The subject has these modes too; all other subjects keep theirs.
    pub fn add(&mut self, subject: u8, modes: Modes)
        requires { subject < 2 * N }
        ensures { self.new ≡ given subject modes self.old }
    {
        let set = union_of(self.get(subject), modes);
        self.set(subject, set);
    }

    /// The subject no longer has these modes; all other subjects keep theirs.
    pub fn remove(&mut self, subject: u8, modes: Modes)
        requires { subject < 2 * N }
        ensures { self.new ≡ rescinded subject modes self.old }
    {
        let set = difference_of(self.get(subject), modes);
        self.set(subject, set);
    }

    // The subject's set becomes this one.
    fn set(&mut self, subject: u8, modes: Modes)
        requires subject { subject < 2 * N }
        requires modes { modes.0 < 16 }
        ensures { self.new ≡ slice_set self.old subject modes }
    {
        let place = subject as usize / 2;
        self.pairs[place] = if subject % 2 == 0 {
            self.pairs[place] / 16 * 16 + modes.bits()
        } else {
            self.pairs[place] % 16 + 16 * modes.bits()
        };
    }
}

impl RowOf<16> {
    /// The row in which each subject below 32 has the same modes, and no other subject has any.
    pub fn widen(&self) -> Row
        ensures { result ≡ self.now ++ replicate 32 no_modes }
    {
        let mut pairs = [0; 32];
        pairs[..16].copy_from_slice(&self.pairs);
        RowOf { pairs }
    }
}
