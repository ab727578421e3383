// What is checked after all objects: no cell is used over its limit, and there are as many line objects as lines.

ghost use Rattle.std.specs.Prelude.{◌≡◌, ◌+◌, ◌*◌, ◌^◌, ◌≤◌, ◌<◌, ◌==◌, not, length, map, sum_by, MatchResult};
ghost use Rattle.std.specs.List.{count_by};
ghost use Rattle.bk_object.specs.Kinds as kinds;
ghost use Rattle.bk_base.specs.declared.stop.Stop.TheVariants as stop;
ghost use Rattle.bk_image.specs.Limits.{most_bytes};
ghost use Rattle.bk_image.specs.Parts.{Gives};
ghost use Rattle.bk_image.specs.Objects as model;
ghost use Rattle.bk_image.specs.Views.{IsAscending, first_of, part_of, share_at};

use crate::fault::{ImageField, ImageStop};
use crate::lookup::ByPath;
use crate::object::{has_cell, level_of};
use crate::part::bad;
use crate::version::Version;
use bk_object::{Facts, Kind};
use bk_path::Path;
use bk_quota::{charge_of, governing};
use bk_state::ObjectRec;
use std::alloc::Global;

/// What an object is charged, and the path of the cell that pays for it.
#[derive(Clone, Copy)]
pub(crate) struct Share {
    pub(crate) cell: Path,
    pub(crate) charge: u16,
}

// The share of an object with that path and those facts.
fn share_at(objects: &[ObjectRec], path: Path, facts: &Facts) -> Share
    requires { IsAscending objects.now }
    ensures { result ≡ share_at (model.objects_in objects.now) path facts.now }
{
    match path.parent() {
        None => Share {
            cell: Path::root(),
            charge: 0,
        },
        Some(above) => Share {
            cell: governing(&ByPath { objects }, above),
            charge: charge_of(facts, level_of(objects, above)),
        },
    }
}

// The shares of all objects.
fn shares_of(alloc: Global, objects: &[ObjectRec]) -> Result<Vec<Share>, ImageStop>
    requires { IsAscending objects.now }
    ensures { MatchResult result (λ v. v.items ≡ map (λ o. share_at (model.objects_in objects.now) o.path o.facts) objects.now) (λ e. e ≡ stop.NoMemory) }
{
    let mut shares = Vec::new(alloc);
    for object in objects {
        shares.push(share_at(objects, object.path, &object.facts))?;
    }
    Ok(shares)
}

// The used number of the cell: 1, and the charges of all for which it pays.
fn used(shares: &[Share], cell: Path) -> u64
    requires { length shares.now < 2 ^ 16 }
    ensures { result ≡ 1 + sum_by (part_of cell) shares.now }
{
    let mut sum = 1u64;
    for share in shares {
        if share.cell == cell {
            sum += u64::from(share.charge);
        }
    }
    sum
}

// Whether more of the object's cell is used than there is.
fn is_over(objects: &[ObjectRec], shares: &[Share], object: &ObjectRec) -> bool
    requires ascending { IsAscending objects.now }
    requires shares { shares.now ≡ map (λ o. share_at (model.objects_in objects.now) o.path o.facts) objects.now }
    requires few { length shares.now < 2 ^ 16 }
    ensures { result ≡ model.is_over (model.objects_in objects.now) object.now }
{
    has_cell(objects, object.path, object.facts.kind, object.facts.level)
        && u64::from(object.facts.quota) < used(shares, object.path)
}

// The place that was found before, or else this one where the object's cell is over its limit.
fn first_of(found: Option<u32>, at: u32, is_over: bool) -> Option<u32>
    ensures { result ≡ first_of found at is_over }
{
    match found {
        Some(found) => Some(found),
        None => is_over.then_some(at),
    }
}

// No cell is used over its limit; the objects stand from the place on.
fn check_quotas(
    version: Version,
    objects: &[ObjectRec],
    shares: &[Share],
    start: u32,
) -> Result<(), ImageStop>
    requires ascending { IsAscending objects.now }
    requires shares { shares.now ≡ map (λ o. share_at (model.objects_in objects.now) o.path o.facts) objects.now }
    requires few { length shares.now < 2 ^ 16 }
    requires fits { start + sum_by (model.size version) objects.now ≤ most_bytes }
    ensures { Gives (λ x. tt) result (model.quotas_at version (model.objects_in objects.now) objects.now start) }
{
    let mut at = start;
    let mut found = None;
    for object in objects {
        found = first_of(found, at, is_over(objects, shares, object));
        at += version.record_size() + 2 * object.words.as_slice().len() as u32;
    }
    match found {
        Some(at) => Err(bad(at, ImageField::Quota)),
        None => Ok(()),
    }
}

fn is_any_line(kind: Kind) -> bool
    ensures { result ≡ kinds.is_any_line kind }
{
    match kind {
        Kind::Directory | Kind::Segment | Kind::Mailbox => false,
        Kind::Line(_) => true,
    }
}

// How many line objects there are.
fn line_objects(objects: &[ObjectRec]) -> usize
    ensures { result ≡ count_by (λ o. kinds.is_any_line o.facts.kind) objects.now }
{
    let mut count = 0;
    for object in objects {
        if is_any_line(object.facts.kind) {
            count += 1;
        }
    }
    count
}

/// What is checked after all objects, which stand from the place on.
#[tactic(auto, unfolding(crate::specs::Objects::after_objects))]
pub(crate) fn check_objects(
    alloc: Global,
    version: Version,
    lines: u8,
    objects: &[ObjectRec],
    start: u32,
) -> Result<(), ImageStop>
    requires ascending { IsAscending objects.now }
    requires few { length objects.now < 2 ^ 16 }
    requires fits { start + sum_by (model.size version) objects.now ≤ most_bytes }
    ensures { Gives (λ x. tt) result (model.after_objects version lines objects.now start) }
{
    let shares = shares_of(alloc, objects)?;
    check_quotas(version, objects, &shares, start)?;
    if line_objects(objects) < lines as usize {
        return Err(bad(10, ImageField::Lines));
    }
    Ok(())
}
