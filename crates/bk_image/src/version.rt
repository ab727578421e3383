// The two versions of the format, and all in which they differ.

ghost use Rattle.std.specs.Prelude.{◌≡◌, ◌≤◌};
ghost use Rattle.std.specs.List.{list_all};
ghost use Rattle.bk_level.specs.Levels.{has_only_below};
ghost use Rattle.bk_object.specs.Rows.{most_subjects};
ghost use Rattle.bk_image.specs.Parts.{Gives};
ghost use Rattle.bk_image.specs.Subjects.{after_levels};
ghost use Rattle.bk_image.specs.Versions as model;

use crate::fault::{ImageField, ImageStop};
use crate::part::bad;
use bk_level::{Level, LevelTable};
use bk_state::Image;

/// The version of an image: at most 32 subjects and categories below 16, or at most 64 subjects and categories below 48.
#[derive(Clone, Copy, PartialEq, Eq, Debug)]
pub enum Version {
    One,
    Two,
}

impl Version {
    /// The version with the number, which is 1 or 2.
    pub(crate) fn of(number: u16) -> Version
        ensures { result ≡ model.version_of number }
    {
        if number == 1 {
            Version::One
        } else {
            Version::Two
        }
    }

    /// Its number.
    pub(crate) fn number(self) -> u16
        ensures { result ≡ model.version_number self }
    {
        match self {
            Version::One => 1,
            Version::Two => 2,
        }
    }

    /// The bytes of a level.
    pub(crate) fn level_size(self) -> u32
        ensures { result ≡ model.level_size self }
    {
        match self {
            Version::One => 4,
            Version::Two => 8,
        }
    }

    /// The bytes of a row.
    pub(crate) fn row_size(self) -> u8
        ensures value { result ≡ model.bytes_of_row self }
        ensures few { result ≤ 32 }
    {
        match self {
            Version::One => 16,
            Version::Two => 32,
        }
    }

    /// The bytes of an object without its words.
    pub(crate) fn record_size(self) -> u32
        ensures value { result ≡ model.record_size self }
        ensures few { result ≤ 44 }
    {
        12 + u32::from(self.row_size())
    }

    /// How many subjects an image has at most.
    pub(crate) fn subjects(self) -> u8
        ensures value { result ≡ model.subjects_of self }
        ensures few { result ≤ most_subjects }
    {
        2 * self.row_size()
    }

    /// Whether it is version 2 though version 1 could say so many subjects and these levels.
    fn is_needless(self, subjects: u8, levels: &LevelTable) -> bool
        ensures { result ≡ model.is_needless self subjects levels.now }
    {
        match self {
            Version::One => false,
            Version::Two => subjects <= 32 && levels.has_only_first_words(),
        }
    }
}

/// Version 1 where it can say the image with these levels, and else version 2.
pub(crate) fn version_for(levels: &[Level], image: &Image) -> Version
    ensures { result ≡ model.version_for (record image.now { levels = levels.now }) }
{
    if image.subjects.as_slice().len() <= 32 && have_only_first_words(levels) {
        Version::One
    } else {
        Version::Two
    }
}

// Whether each level has only categories below 16.
fn have_only_first_words(levels: &[Level]) -> bool
    ensures { result ≡ list_all (has_only_below 16) levels.now }
{
    for level in levels {
        if !level.has_only_first_word() {
            return false;
        }
    }
    true
}

/// What is checked after the last level: the version isn't 2 where version 1 could say it.
#[tactic(auto, unfolding(crate::specs::Subjects::after_levels))]
pub(crate) fn check_version(
    version: Version,
    subjects: u8,
    levels: &LevelTable,
) -> Result<(), ImageStop>
    ensures { Gives (λ x. tt) result (after_levels version subjects levels.now) }
{
    if version.is_needless(subjects, levels) {
        return Err(bad(4, ImageField::Version));
    }
    Ok(())
}
