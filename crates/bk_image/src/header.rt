// The header: each of its fields is a part.

ghost use Rattle.std.specs.Prelude.{◌≤◌, IfOk};
ghost use Rattle.bk_level.specs.Levels.{most_levels};
ghost use Rattle.bk_object.specs.Rows.{most_subjects};
ghost use Rattle.bk_image.specs.Header.{byte_at, word_at, magic_at, header_at};
ghost use Rattle.bk_image.specs.Parts.{Gives};
ghost use Rattle.bk_image.specs.Views.{rest_of, header_in};

use crate::fault::{ImageField, ImageStop};
use crate::limits::{MOST_HOLDS, MOST_LINES, MOST_OBJECTS, MOST_PLACES, MOST_TURNS};
use crate::part::{bad, part, word};
use crate::rest::Rest;
use crate::version::Version;
use bk_level::MOST_LEVELS;

/// The version, the turns of a slot, and how many parts of each kind there are.
#[derive(Clone, Copy)]
pub(crate) struct Header {
    pub(crate) version: Version,
    pub(crate) turns: u16,
    pub(crate) levels: u8,
    pub(crate) subjects: u8,
    pub(crate) lines: u8,
    pub(crate) schedule: u8,
    pub(crate) objects: u16,
    pub(crate) holds: u16,
}

// A number of one byte, from low to high.
#[tactic(auto, unfolding(crate::specs::Header::byte_at))]
fn byte_of(rest: &mut Rest, field: ImageField, low: u8, high: u8) -> Result<u8, ImageStop>
    ensures within { IfOk result (λ x. x ≤ high) }
    ensures exact { Gives (λ x. (x, rest_of rest.new)) result (byte_at field low high (rest_of rest.old)) }
{
    let at = rest.at;
    let bytes = part(rest, 1)?;
    let number = bytes[0];
    if number < low || high < number {
        return Err(bad(at, field));
    }
    Ok(number)
}

// A number of two bytes, from low to high.
#[tactic(auto, unfolding(crate::specs::Header::word_at))]
fn word_of(rest: &mut Rest, field: ImageField, low: u16, high: u16) -> Result<u16, ImageStop>
    ensures { Gives (λ x. (x, rest_of rest.new)) result (word_at field low high (rest_of rest.old)) }
{
    let at = rest.at;
    let bytes = part(rest, 2)?;
    let number = word(bytes, 0);
    if number < low || high < number {
        return Err(bad(at, field));
    }
    Ok(number)
}

// The first four bytes.
#[tactic(auto, unfolding(crate::specs::Header::magic_at))]
fn magic(rest: &mut Rest) -> Result<(), ImageStop>
    ensures { Gives (λ x. (tt, rest_of rest.new)) result (magic_at (rest_of rest.old)) }
{
    let at = rest.at;
    let bytes = part(rest, 4)?;
    if !(bytes[0] == b'B' && bytes[1] == b'L' && bytes[2] == b'P' && bytes[3] == b'K') {
        return Err(bad(at, ImageField::Magic));
    }
    Ok(())
}

/// The 16 bytes of the header.
#[tactic(auto, unfolding(crate::specs::Header::header_at))]
pub(crate) fn read_header(rest: &mut Rest) -> Result<Header, ImageStop>
    ensures levels { IfOk result (λ header. header.levels ≤ most_levels) }
    ensures subjects { IfOk result (λ header. header.subjects ≤ most_subjects) }
    ensures exact { Gives (λ header. (header_in header, rest_of rest.new)) result (header_at (rest_of rest.old)) }
{
    magic(rest)?;
    let version = Version::of(word_of(rest, ImageField::Version, 1, 2)?);
    let turns = word_of(rest, ImageField::Turns, 1, MOST_TURNS)?;
    let levels = byte_of(rest, ImageField::Counts, 1, MOST_LEVELS as u8)?;
    let subjects = byte_of(rest, ImageField::Counts, 1, version.subjects())?;
    let lines = byte_of(rest, ImageField::Counts, 0, MOST_LINES)?;
    let schedule = byte_of(rest, ImageField::Counts, 1, MOST_PLACES)?;
    let objects = word_of(rest, ImageField::Counts, 1, MOST_OBJECTS)?;
    let holds = word_of(rest, ImageField::Counts, 0, MOST_HOLDS)?;
    Ok(Header {
        version,
        turns,
        levels,
        subjects,
        lines,
        schedule,
        objects,
        holds,
    })
}
