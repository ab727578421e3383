// Objects: the bytes of each, by the version 28 or 44, its checks, and its words.

ghost use Rattle.std.specs.Prelude.{◌≡◌, ◌≤◌, ◌+◌, ◌*◌, ◌&&◌, ◌||◌, ◌==◌, not, nat_lt, true, [], length, sum_by, take, drop, IfOk, MatchResult, Some};
ghost use Rattle.std.specs.List.{list_any};
ghost use Rattle.bk_level.specs.Levels as levels_model;
ghost use Rattle.bk_object.specs.Kinds as kinds;
ghost use Rattle.bk_path.specs.Paths as paths;
ghost use Rattle.bk_quota.specs.Charges.{level_in};
ghost use Rattle.bk_state.specs.Start as start;
ghost use Rattle.bk_object.specs.Rows.{most_subjects};
ghost use Rattle.bk_image.specs.Numbers as numbers;
ghost use Rattle.bk_base.specs.declared.stop.Stop.TheVariants as stop;
ghost use Rattle.bk_image.specs.Parts.{Gives, each_of, first_failing, last};
ghost use Rattle.bk_image.specs.Objects as model;
ghost use Rattle.bk_image.specs.Versions.{bytes_of_row, record_size};
ghost use Rattle.bk_image.specs.Views.{rest_of, IsAscending};

use crate::fault::{ImageField, ImageStop};
use crate::lookup::facts_at;
use crate::part::{bad, part, path_in, word};
use crate::rest::Rest;
use crate::row::{fits_modes, fits_subjects, row_of};
use crate::subject::dominates_at;
use crate::version::Version;
use bk_base::Words;
use bk_level::LevelTable;
use bk_object::{Facts, Kind, LARGEST_QUOTA, MOST_BLOCKS, WORDS_OF_BLOCK};
use bk_path::Path;
use bk_state::ObjectRec;
use std::alloc::Global;

fn kind_of(number: u8, line: u8) -> Kind
    ensures { result ≡ model.kind_of number line }
{
    if number == 0 {
        Kind::Directory
    } else if number == 1 {
        Kind::Segment
    } else if number == 2 {
        Kind::Mailbox
    } else {
        Kind::Line(line)
    }
}

fn blocks_of(kind: Kind, blocks: u8) -> u8
    ensures { result ≡ model.blocks_of kind blocks }
{
    match kind {
        Kind::Directory | Kind::Segment | Kind::Mailbox => blocks,
        Kind::Line(_) => 0,
    }
}

// The facts that an object's bytes tell.
fn facts_of(version: Version, bytes: &[u8]) -> Facts
    requires { length bytes.now ≡ record_size version }
    ensures { result ≡ model.facts_of version bytes.now }
{
    let kind = kind_of(bytes[4], bytes[5]);
    Facts {
        kind,
        blocks: blocks_of(kind, bytes[5]),
        level: bytes[6],
        quota: word(bytes, 8),
        row: row_of(pairs_of(version, bytes)),
    }
}

// The bytes of the row.
fn pairs_of(version: Version, bytes: &[u8]) -> &[u8]
    requires { length bytes.now ≡ record_size version }
    ensures value { result.now ≡ take (bytes_of_row version) (drop 10 bytes.now) }
    ensures whole { length result.now ≡ bytes_of_row version }
    ensures few { length result.now ≤ 32 }
{
    let (_, from) = bytes.split_at(10);
    let (pairs, _) = from.split_at(version.row_size() as usize);
    pairs
}

/// Whether the object is a directory.
pub(crate) fn is_directory(kind: Kind) -> bool
    ensures { result ≡ kinds.is_directory kind }
{
    match kind {
        Kind::Directory => true,
        Kind::Segment | Kind::Mailbox | Kind::Line(_) => false,
    }
}

// The path stands above that of the last object; the first is root.
fn follows(before: &[ObjectRec], path: Path) -> bool
    ensures order { result ≡ model.path_follows (last before.now) path }
{
    match before.last() {
        None => path.is_root(),
        Some(object) => object.path.cmp(&path).is_lt(),
    }
}

// Whether a directory stands at the parent.
fn has_parent(objects: &[ObjectRec], path: Path) -> bool
    requires { IsAscending objects.now }
    ensures { result ≡ model.has_parent (model.objects_in objects.now) path }
{
    match facts_at(objects, path.above()) {
        None => false,
        Some(above) => is_directory(above.kind),
    }
}

// Whether the line has the number.
fn is_line(n: u8, kind: Kind) -> bool
    ensures { result ≡ start.is_line n kind }
{
    match kind {
        Kind::Directory | Kind::Segment | Kind::Mailbox => false,
        Kind::Line(number) => number == n,
    }
}

// Whether a line has the number already.
fn is_used(n: u8, before: &[ObjectRec]) -> bool
    ensures { result ≡ list_any (λ o. start.is_line n o.facts.kind) before.now }
{
    for object in before {
        if is_line(n, object.facts.kind) {
            return true;
        }
    }
    false
}

fn fits_kind(lines: u8, before: &[ObjectRec], kind: Kind, blocks: u8) -> bool
    ensures { result ≡ model.fits_kind lines before.now kind blocks }
{
    match kind {
        Kind::Directory | Kind::Mailbox => blocks == 0,
        Kind::Segment => !(blocks < 1 || MOST_BLOCKS < blocks),
        Kind::Line(n) => blocks == 0 && n < lines && !is_used(n, before),
    }
}

// Whether the level dominates that of the object at the parent.
fn dominates_above(levels: &LevelTable, objects: &[ObjectRec], path: Path, level: u8) -> bool
    requires { IsAscending objects.now }
    ensures { result ≡ model.dominates_above levels.now (model.objects_in objects.now) path level }
{
    match facts_at(objects, path.above()) {
        None => false,
        Some(above) => dominates_at(levels, level, above.level),
    }
}

/// The number of the level of the object at the path; 0 where there is none.
pub(crate) fn level_of(objects: &[ObjectRec], path: Path) -> u8
    requires { IsAscending objects.now }
    ensures { result ≡ level_in (λ object. object.facts) (model.objects_in objects.now) path }
{
    match facts_at(objects, path) {
        None => 0,
        Some(facts) => facts.level,
    }
}

/// Whether an object with the path and these facts has a cell: root, or an upgraded directory.
pub(crate) fn has_cell(objects: &[ObjectRec], path: Path, kind: Kind, level: u8) -> bool
    requires { IsAscending objects.now }
    ensures { result ≡ (paths.is_root path || kinds.is_directory kind && not (model.level_above (model.objects_in objects.now) path == level)) }
{
    path.is_root() || is_directory(kind) && level_of(objects, path.above()) != level
}

fn fits_cell(has_cell: bool, quota: u16) -> bool
    ensures { result ≡ model.fits_cell has_cell quota }
{
    if has_cell {
        !(quota < 1 || LARGEST_QUOTA < quota)
    } else {
        quota == 0
    }
}

fn room(facts: &Facts) -> u16
    ensures { result ≡ model.room facts.now }
{
    match facts.kind {
        Kind::Segment => WORDS_OF_BLOCK * u16::from(facts.blocks),
        Kind::Directory | Kind::Mailbox | Kind::Line(_) => 0,
    }
}

// The words of the bytes, of which there are two for each.
fn words_of(alloc: Global, bytes: &[u8], count: u16) -> Result<Vec<u16>, ImageStop>
    requires { length bytes.now ≡ 2 * count }
    ensures words { MatchResult result (λ v. v.items ≡ numbers.words_of bytes.now) (λ e. e ≡ stop.NoMemory) }
    ensures len { IfOk result (λ v. length v.items ≡ count) }
{
    let mut words = Vec::new(alloc);
    for i in 0..count {
        words.push(word(bytes, 2 * i as usize))?;
    }
    Ok(words)
}

// The count of words, behind the row.
fn count_in(version: Version, bytes: &[u8]) -> u16
    requires { length bytes.now ≡ record_size version }
    ensures { result ≡ model.count_in version bytes.now }
{
    word(bytes, 10 + version.row_size() as usize)
}

// Whether the last word is 0.
fn ends_in_zero(words: &[u16]) -> bool
    ensures { result ≡ model.is_zero (last words.now) }
{
    match words.last() {
        None => false,
        Some(word) => *word == 0,
    }
}

// The checks of an object's bytes, in their order; then its path.
fn check(
    at: u32,
    version: Version,
    levels: &LevelTable,
    subjects: u8,
    lines: u8,
    before: &[ObjectRec],
    bytes: &[u8],
) -> Result<Path, ImageStop>
    requires whole { length bytes.now ≡ record_size version }
    requires subjects { subjects ≤ most_subjects }
    requires ascending { IsAscending before.now }
    ensures exact { Gives (λ x. tt) result (first_failing at (model.object_fails version levels.now subjects lines before.now bytes.now)) }
    ensures path { IfOk result (λ path. path ≡ numbers.path_at bytes.now 0) }
    ensures follows { IfOk result (λ path. model.path_follows (last before.now) path ≡ true) }
{
    match path_in(bytes, 0) {
        None => Err(bad(at, ImageField::Path)),
        Some(path) => {
            check_at(at, version, levels, subjects, lines, before, bytes, path)?;
            Ok(path)
        }
    }
}

// Those after the first, where the words are this path.
fn check_at(
    at: u32,
    version: Version,
    levels: &LevelTable,
    subjects: u8,
    lines: u8,
    before: &[ObjectRec],
    bytes: &[u8],
    path: Path,
) -> Result<(), ImageStop>
    requires whole { length bytes.now ≡ record_size version }
    requires subjects { subjects ≤ most_subjects }
    requires ascending { IsAscending before.now }
    requires path { numbers.path_in bytes.now 0 ≡ Some path }
    ensures exact { Gives (λ x. tt) result (first_failing at (model.object_fails version levels.now subjects lines before.now bytes.now)) }
    ensures follows { IfOk result (λ x. model.path_follows (last before.now) path ≡ true) }
{
    let facts = facts_of(version, bytes);
    if !follows(before, path) {
        return Err(bad(at, ImageField::Path));
    }
    if !path.is_root() && !has_parent(before, path) {
        return Err(bad(at, ImageField::Parent));
    }
    if 3 < bytes[4] || path.is_root() && !is_directory(facts.kind) {
        return Err(bad(at, ImageField::Kind));
    }
    if !fits_kind(lines, before, facts.kind, facts.blocks) {
        return Err(bad(at, ImageField::Blocks));
    }
    if facts.level >= levels.len() {
        return Err(bad(at, ImageField::Level));
    }
    if !path.is_root() && !dominates_above(levels, before, path, facts.level) {
        return Err(bad(at, ImageField::Level));
    }
    if bytes[7] != 0 {
        return Err(bad(at, ImageField::Zero));
    }
    if !fits_cell(has_cell(before, path, facts.kind, facts.level), facts.quota) {
        return Err(bad(at, ImageField::Quota));
    }
    let pairs = pairs_of(version, bytes);
    if !fits_modes(facts.kind, pairs) || !fits_subjects(subjects, pairs) {
        return Err(bad(at, ImageField::Row));
    }
    if room(&facts) < count_in(version, bytes) {
        return Err(bad(at, ImageField::Contents));
    }
    Ok(())
}

#[tactic(auto, unfolding(crate::specs::Objects::object_at))]
fn next(
    alloc: Global,
    version: Version,
    levels: &LevelTable,
    subjects: u8,
    lines: u8,
    before: &[ObjectRec],
    rest: &mut Rest,
) -> Result<ObjectRec, ImageStop>
    requires subjects { subjects ≤ most_subjects }
    requires ascending { IsAscending before.now }
    ensures place { IfOk result (λ o. rest.new.at ≡ rest.old.at + model.size version o) }
    ensures follows { IfOk result (λ o. model.path_follows (last before.now) o.path ≡ true) }
    ensures exact { Gives (λ o. (o, rest_of rest.new)) result (model.object_at version levels.now subjects lines before.now (rest_of rest.old)) }
{
    let at = rest.at;
    let bytes = part(rest, version.record_size())?;
    let path = check(at, version, levels, subjects, lines, before, bytes)?;
    let count = count_in(version, bytes);
    let contents = part(rest, 2 * u32::from(count))?;
    let words = words_of(alloc, contents, count)?;
    if ends_in_zero(&words) {
        return Err(bad(at, ImageField::Contents));
    }
    Ok(object_of(version, path, bytes, words))
}

// The object with that path, which its bytes and these words tell.
fn object_of(version: Version, path: Path, bytes: &[u8], words: Vec<u16>) -> ObjectRec
    requires whole { length bytes.now ≡ record_size version }
    requires path { path ≡ numbers.path_at bytes.now 0 }
    ensures { result ≡ model.object_of version bytes.now words.items }
{
    ObjectRec {
        path,
        facts: facts_of(version, bytes),
        words: Words::from_vec(words),
    }
}

/// So many objects.
pub(crate) fn read_objects(
    alloc: Global,
    version: Version,
    levels: &LevelTable,
    subjects: u8,
    lines: u8,
    count: u16,
    rest: &mut Rest,
) -> Result<Vec<ObjectRec>, ImageStop>
    requires { subjects ≤ most_subjects }
    ensures place { IfOk result (λ v. rest.new.at ≡ rest.old.at + sum_by (model.size version) v.items) }
    ensures ascending { IfOk result (λ v. IsAscending v.items) }
    ensures few { IfOk result (λ v. length v.items ≤ 65535) }
    ensures exact { Gives (λ v. (v.items, rest_of rest.new)) result (each_of (model.object_at version levels.now subjects lines) count [] (rest_of rest.old)) }
{
    let mut objects = Vec::new(alloc);
    for _ in 0..count {
        let object = next(alloc, version, levels, subjects, lines, &objects, rest)?;
        objects.push(object)?;
    }
    Ok(objects)
}
