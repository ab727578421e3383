// Holds: by which modes a subject holds an object at the start.

ghost use Rattle.std.specs.Prelude.{◌≡◌, ◌≤◌, [], length, unwrap_or};
ghost use Rattle.bk_object.specs.Kinds.{kind_modes};
ghost use Rattle.bk_object.specs.Modes as modes_model;
ghost use Rattle.bk_object.specs.Rows.{in_row, most_subjects};
ghost use Rattle.bk_level.specs.Levels as levels_model;
ghost use Rattle.bk_quota.specs.Charges.{passes};
ghost use Rattle.bk_image.specs.Numbers as numbers;
ghost use Rattle.bk_image.specs.Parts.{Gives, each_of, first_failing, last};
ghost use Rattle.bk_image.specs.Objects.{facts_at, objects_in};
ghost use Rattle.bk_image.specs.Holds as model;
ghost use Rattle.bk_image.specs.Views.{rest_of, IsAscending};

use crate::fault::{ImageField, ImageStop};
use crate::lookup::facts_at;
use crate::part::{bad, part, path_in};
use crate::rest::Rest;
use bitflags::Flags;
use bk_level::{Level, LevelTable};
use bk_object::Modes;
use bk_path::Path;
use bk_state::{Hold, ObjectRec, SubjectRec};
use std::alloc::Global;

// The hold that six bytes tell; where the words are no path, it is of root.
fn hold_of(bytes: &[u8]) -> Hold
    requires { length bytes.now ≡ 6 }
    ensures { result ≡ model.hold_of bytes.now }
{
    Hold {
        subject: bytes[0],
        modes: Modes::from_bits_retain(bytes[1]),
        path: path_or_root(path_in(bytes, 2)),
    }
}

fn path_or_root(path: Option<Path>) -> Path
    ensures { result ≡ unwrap_or path [] }
{
    match path {
        Some(path) => path,
        None => Path::root(),
    }
}

// The subject and the path stand above those of the last hold.
fn follows(before: &[Hold], hold: Hold) -> bool
    ensures { result ≡ model.hold_follows (last before.now) hold }
{
    match before.last() {
        None => true,
        Some(last) => {
            last.subject < hold.subject
                || last.subject == hold.subject && last.path.cmp(&hold.path).is_lt()
        }
    }
}

// The greatest level of the subject.
fn greatest(levels: &LevelTable, subjects: &[SubjectRec], n: u8) -> Level
    ensures { result ≡ model.greatest_in levels.now subjects.now n }
{
    match subjects.get(n as usize) {
        Some(subject) => levels.at(subject.f_s),
        None => levels.at(0),
    }
}

// Its current level.
fn current(levels: &LevelTable, subjects: &[SubjectRec], n: u8) -> Level
    ensures { result ≡ model.current_in levels.now subjects.now n }
{
    match subjects.get(n as usize) {
        Some(subject) => levels.at(subject.f_c),
        None => levels.at(0),
    }
}

fn reads(modes: Modes) -> bool
    ensures { result ≡ modes_model.has modes modes_model.Read }
{
    Modes::R.is_within(modes)
}

fn executes(modes: Modes) -> bool
    ensures { result ≡ modes_model.has modes modes_model.Execute }
{
    Modes::E.is_within(modes)
}

fn writes(modes: Modes) -> bool
    ensures { result ≡ modes_model.has modes modes_model.Write }
{
    Modes::W.is_within(modes)
}

fn appends(modes: Modes) -> bool
    ensures { result ≡ modes_model.has modes modes_model.Append }
{
    Modes::A.is_within(modes)
}

// The simple security condition (MTR-2997).
fn fits_ss(modes: Modes, greatest: Level, object: Level) -> bool
    ensures simple { result ≡ model.fits_ss modes greatest object }
{
    let below = greatest.dominates(object);
    (!reads(modes) || below) && (!executes(modes) || below) && (!writes(modes) || below)
}

// The *-property (MTR-2997).
fn fits_star(modes: Modes, current: Level, object: Level) -> bool
    ensures star { result ≡ model.fits_star modes current object }
{
    let below = current.dominates(object);
    (!reads(modes) || below)
        && (!executes(modes) || below)
        && (!writes(modes) || object == current)
        && (!appends(modes) || object.dominates(current))
}

// Whether the current level dominates that of the object at the parent.
fn dominates_parent(levels: &LevelTable, objects: &[ObjectRec], current: Level, path: Path) -> bool
    requires { IsAscending objects.now }
    ensures { result ≡ model.dominates_parent levels.now (objects_in objects.now) current path }
{
    match facts_at(objects, path.above()) {
        None => false,
        Some(above) => current.dominates(levels.at(above.level)),
    }
}

// The checks of a hold, in their order.
fn check(
    at: u32,
    levels: &LevelTable,
    subjects: &[SubjectRec],
    objects: &[ObjectRec],
    before: &[Hold],
    is_path: bool,
    hold: Hold,
) -> Result<(), ImageStop>
    requires ascending { IsAscending objects.now }
    requires few { length subjects.now ≤ most_subjects }
    ensures exact { Gives (λ x. tt) result (first_failing at (model.hold_checks levels.now subjects.now (objects_in objects.now) before.now is_path hold)) }
{
    if hold.subject as usize >= subjects.len() {
        return Err(bad(at, ImageField::Subject));
    }
    if hold.modes.bits() < 1 || 15 < hold.modes.bits() {
        return Err(bad(at, ImageField::Modes));
    }
    if !is_path || !follows(before, hold) {
        return Err(bad(at, ImageField::Path));
    }
    match facts_at(objects, hold.path) {
        None => Err(bad(at, ImageField::Exists)),
        Some(facts) => {
            let greatest = greatest(levels, subjects, hold.subject);
            let current = current(levels, subjects, hold.subject);
            let object = levels.at(facts.level);
            if !hold.modes.is_within(facts.kind.modes()) {
                return Err(bad(at, ImageField::Kind));
            }
            if !hold.modes.is_within(facts.row.get(hold.subject)) {
                return Err(bad(at, ImageField::Row));
            }
            if !fits_ss(hold.modes, greatest, object) {
                return Err(bad(at, ImageField::Ss));
            }
            if !fits_star(hold.modes, current, object) {
                return Err(bad(at, ImageField::Star));
            }
            if !hold.path.is_root() && !dominates_parent(levels, objects, current, hold.path) {
                return Err(bad(at, ImageField::Parent));
            }
            Ok(())
        }
    }
}

#[tactic(auto, unfolding(crate::specs::Holds::hold_at))]
fn next(
    levels: &LevelTable,
    subjects: &[SubjectRec],
    objects: &[ObjectRec],
    before: &[Hold],
    rest: &mut Rest,
) -> Result<Hold, ImageStop>
    requires ascending { IsAscending objects.now }
    requires few { length subjects.now ≤ most_subjects }
    ensures { Gives (λ hold. (hold, rest_of rest.new)) result (model.hold_at levels.now subjects.now (objects_in objects.now) before.now (rest_of rest.old)) }
{
    let at = rest.at;
    let bytes = part(rest, 6)?;
    let is_path = path_in(bytes, 2).is_some();
    check(
        at,
        levels,
        subjects,
        objects,
        before,
        is_path,
        hold_of(bytes),
    )?;
    Ok(hold_of(bytes))
}

/// So many holds.
pub(crate) fn read_holds(
    alloc: Global,
    levels: &LevelTable,
    subjects: &[SubjectRec],
    objects: &[ObjectRec],
    count: u16,
    rest: &mut Rest,
) -> Result<Vec<Hold>, ImageStop>
    requires ascending { IsAscending objects.now }
    requires few { length subjects.now ≤ most_subjects }
    ensures { Gives (λ v. (v.items, rest_of rest.new)) result (each_of (model.hold_at levels.now subjects.now (objects_in objects.now)) count [] (rest_of rest.old)) }
{
    let mut holds = Vec::new(alloc);
    for _ in 0..count {
        let hold = next(levels, subjects, objects, &holds, rest)?;
        holds.push(hold)?;
    }
    Ok(holds)
}
