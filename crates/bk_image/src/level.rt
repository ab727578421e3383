// Levels: each stands once, and by the version has one word of categories or three.

ghost use Rattle.std.specs.Prelude.{◌≡◌, ◌<◌, ◌≤◌, [], ◌∷◌, ◌++◌, false, length, drop, IfOk};
ghost use Rattle.bk_level.specs.Levels.{has_level, most_levels};
ghost use Rattle.bk_level.specs.Masks.{mask_in};
ghost use Rattle.bk_image.specs.Numbers.{words_of};
ghost use Rattle.bk_image.specs.Parts.{Gives, each_of};
ghost use Rattle.bk_image.specs.Subjects.{level_at, level_of};
ghost use Rattle.bk_image.specs.Versions.{level_size};
ghost use Rattle.bk_image.specs.Views.{rest_of};

use crate::fault::{ImageField, ImageStop};
use crate::part::{bad, part, word};
use crate::rest::Rest;
use crate::version::Version;
use bk_level::{Level, LevelTable};

// One more level, which doesn't stand in the table yet.
fn add_level(levels: &mut LevelTable, level: Level)
    requires few { length levels.old < most_levels }
    requires new { has_level levels.old level ≡ false }
    ensures { levels.new ≡ levels.old ++ level ∷ [] }
{
    let _added = levels.push(level);
}

// The words of the categories; those that the version doesn't have are 0.
fn words(version: Version, bytes: &[u8]) -> [u16; 3]
    requires { length bytes.now ≡ level_size version }
    ensures { mask_in result ≡ mask_in (words_of (drop 2 bytes.now)) }
{
    match version {
        Version::One => [word(bytes, 2), 0, 0],
        Version::Two => [word(bytes, 2), word(bytes, 4), word(bytes, 6)],
    }
}

// The level that the bytes tell.
fn level_of(version: Version, bytes: &[u8]) -> Level
    requires { length bytes.now ≡ level_size version }
    ensures { result ≡ level_of bytes.now }
{
    Level {
        class: bytes[0],
        cats: words(version, bytes),
    }
}

#[tactic(auto, unfolding(crate::specs::Subjects::level_at))]
fn next(version: Version, before: &LevelTable, rest: &mut Rest) -> Result<Level, ImageStop>
    ensures exact { Gives (λ level. (level, rest_of rest.new)) result (level_at version before.now (rest_of rest.old)) }
    ensures new { IfOk result (λ level. has_level before.now level ≡ false) }
{
    let at = rest.at;
    let bytes = part(rest, version.level_size())?;
    if bytes[1] != 0 {
        return Err(bad(at, ImageField::Level));
    }
    let level = level_of(version, bytes);
    if before.has(level) {
        return Err(bad(at, ImageField::Level));
    }
    Ok(level)
}

/// So many levels.
pub(crate) fn read_levels(
    version: Version,
    count: u8,
    rest: &mut Rest,
) -> Result<LevelTable, ImageStop>
    requires { count ≤ most_levels }
    ensures { Gives (λ levels. (levels, rest_of rest.new)) result (each_of (level_at version) count [] (rest_of rest.old)) }
{
    let mut levels = LevelTable::new();
    for _ in 0..count {
        let level = next(version, &levels, rest)?;
        add_level(&mut levels, level);
    }
    Ok(levels)
}
