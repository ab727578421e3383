// The schedule: the number of a subject for each place.

ghost use Rattle.std.specs.Prelude.{[]};
ghost use Rattle.bk_image.specs.Parts.{Gives, each_of};
ghost use Rattle.bk_image.specs.Subjects.{schedule_at};
ghost use Rattle.bk_image.specs.Views.{rest_of};

use crate::fault::{ImageField, ImageStop};
use crate::part::{bad, part};
use crate::rest::Rest;
use std::alloc::Global;

#[tactic(auto, unfolding(crate::specs::Subjects::schedule_at))]
fn next(subjects: u8, before: &[u8], rest: &mut Rest) -> Result<u8, ImageStop>
    ensures { Gives (λ x. (x, rest_of rest.new)) result (schedule_at subjects before.now (rest_of rest.old)) }
{
    let at = rest.at;
    let bytes = part(rest, 1)?;
    let subject = bytes[0];
    if subject >= subjects {
        return Err(bad(at, ImageField::Schedule));
    }
    Ok(subject)
}

/// So many places.
pub(crate) fn read_schedule(
    alloc: Global,
    subjects: u8,
    count: u8,
    rest: &mut Rest,
) -> Result<Vec<u8>, ImageStop>
    ensures { Gives (λ x. (x.items, rest_of rest.new)) result (each_of (schedule_at subjects) count [] (rest_of rest.old)) }
{
    let mut schedule = Vec::new(alloc);
    for _ in 0..count {
        let subject = next(subjects, &schedule, rest)?;
        schedule.push(subject)?;
    }
    Ok(schedule)
}
