// Images, as their parts follow one another.

ghost use Rattle.std.specs.Prelude.{◌≡◌, ◌++◌, ℕ, List, length, Ok, IfOk};
ghost use Rattle.bk_state.specs.Secure.{Secure};
ghost use Rattle.bk_state.specs.Start.{state_of};
ghost use Rattle.bk_image.specs.Accepted.{IsAccepted};
ghost use Rattle.bk_image.specs.Image.{image_at, image_of, IsImage};
ghost use Rattle.bk_image.specs.Parts.{Gives};
ghost use Rattle.bk_image.specs.Spelling.{spelling, IsSpelt};
ghost use Rattle.bk_image.specs.Views.{rest_of};

use crate::fault::ImageStop;
use crate::header::read_header;
use crate::hold::read_holds;
use crate::level::read_levels;
use crate::object::read_objects;
use crate::quota::check_objects;
use crate::rest::Rest;
use crate::schedule::read_schedule;
use crate::subject::read_subjects;
use crate::version::check_version;
use bk_base::Bytes;
use bk_state::{Holds, Image, Objects, Subjects};
use std::alloc::Global;

#[tactic(auto, unfolding(crate::specs::Image::image_at))]
fn next(alloc: Global, rest: &mut Rest) -> Result<Image, ImageStop>
    ensures { Gives (λ image. (image, rest_of rest.new)) result (image_at (rest_of rest.old)) }
{
    let header = read_header(rest)?;
    let levels = read_levels(header.version, header.levels, rest)?;
    check_version(header.version, header.subjects, &levels)?;
    let schedule = read_schedule(alloc, header.subjects, header.schedule, rest)?;
    let subjects = read_subjects(alloc, &levels, header.subjects, rest)?;
    let start = rest.at;
    let objects = read_objects(
        alloc,
        header.version,
        &levels,
        header.subjects,
        header.lines,
        header.objects,
        rest,
    )?;
    check_objects(alloc, header.version, header.lines, &objects, start)?;
    let holds = read_holds(alloc, &levels, &subjects, &objects, header.holds, rest)?;
    Ok(Image {
        turns: header.turns,
        levels,
        lines: header.lines,
        schedule: Bytes::from_vec(schedule),
        subjects: Subjects::from_vec(subjects),
        objects: Objects::from_vec(objects),
        holds: Holds::from_vec(holds),
    })
}

// The image that the first bytes spell, or their first fault.
#[tactic(auto, unfolding(crate::specs::Image::image_of))]
fn first_image(alloc: Global, bytes: &[u8]) -> Result<(Image, usize), ImageStop>
    ensures { Gives (λ x. x) result (image_of bytes.now) }
{
    let mut rest = Rest { at: 0, bytes };
    let image = next(alloc, &mut rest)?;
    Ok((image, rest.at as usize))
}

/// The image that the first bytes spell, and how many bytes those are; what follows them isn't looked at.
///
/// `Bad` gives the place, from 0, and the field of the first fault: parts are read in order, each is checked when it is
/// whole, and its checks have an order too. The format, and what is checked of it, is this project's own; the security
/// checks of held objects are those of MTR-2997.
pub fn read_image(alloc: Global, bytes: &[u8]) -> Result<(Image, usize), ImageStop>
    // What is read, or which fault it is.
    ensures exact { Gives (λ x. x) result (image_of bytes.now) }
    // What is read is spelt by exactly those bytes.
    ensures spelt { IfOk result (λ x. IsSpelt bytes.now x.0 x.1) }
    // No fault: all checks of each part passed, and the state that the image stands for is secure.
    ensures accepted { IfOk result (λ x. IsAccepted x.0) }
    ensures secure { IfOk result (λ x. Secure (state_of x.0)) }
    // An image is read again, whatever follows it.
    ensures again { (image : Image) (more : List ℕ) → IsImage (spelling image) image → bytes.now ≡ spelling image ++ more → Gives (λ x. x) result (Ok (image, length (spelling image))) }
{
    first_image(alloc, bytes)
}
