// The image of a configuration, and its listing.

ghost use Rattle.std.specs.Prelude.{◌≡◌, ℕ, List, Result, Ok, IfOk, IfErr};
ghost use Rattle.bk_base.specs.Faults.{Gives, Refuses};
ghost use Rattle.bk_image.specs.Accepted.{IsAccepted};
ghost use Rattle.bk_image.specs.Writing.{Fits, written_image};
ghost use Rattle.bk_image.specs.declared.fault.ImageFault.{ImageFault as Fault};
ghost use Rattle.bk_state.specs.declared.image.Image.{Image as Started};
ghost use Rattle.bk_conf.specs.Built.{built, if_written, listing_of, listings_of, IsWhole};
ghost use Rattle.bk_conf.specs.Ordered as model;
ghost use Rattle.bk_conf.specs.Views.{said_of};

use crate::fault::{BuildFault, BuildKind, BuildStop};
use crate::ordered::ordered;
use crate::reading::read_configuration;
use crate::said::{Named, Said};
use bk_asm::listing;
use bk_base::NoMemory;
use bk_image::{ImageStop, read_image, write_with_levels};
use bk_state::Image;
use std::alloc::Global;

// The stop of the image.
fn at_image(stop: ImageStop) -> BuildStop
    ensures { (image : Started) (written : Result (List ℕ) Fault) → Refuses stop written → Refuses result (if_written image written) }
{
    match stop {
        ImageStop::Bad(fault) => BuildStop::Bad(BuildFault {
            line: 0,
            kind: BuildKind::Image(fault.field),
        }),
        ImageStop::NoMemory => BuildStop::NoMemory,
    }
}

// The image whose bytes these are.
#[tactic(auto, using(crate::proofs::Images::read_whole))]
fn read_back(alloc: Global, bytes: &[u8]) -> Result<Image, NoMemory>
    ensures whole { (first : Started) → Fits first → written_image first ≡ Ok bytes.now → IfOk result (λ image. (image ≡ first) × IsWhole image) }
    ensures accepted { IfOk result IsAccepted }
{
    match read_image(alloc, bytes) {
        Ok((image, _count)) => Ok(image),
        Err(_) => Err(NoMemory),
    }
}

// The image of what was said, where its bytes are one.
#[tactic(auto, using(crate::proofs::Images::written_as, crate::proofs::Images::image_read))]
fn image_in(alloc: Global, said: &Said) -> Result<Image, BuildStop>
    ensures exact { Gives (λ x. x) result (if_written (model.ordered (said_of said.now)) (written_image (model.ordered (said_of said.now)))) }
    ensures whole { IfOk result IsWhole }
    ensures accepted { IfOk result IsAccepted }
{
    let image = ordered(alloc, said)?;
    match write_with_levels(alloc, &said.levels, &image) {
        Ok(bytes) => match read_back(alloc, &bytes) {
            Ok(image) => Ok(image),
            Err(_) => Err(BuildStop::NoMemory),
        },
        Err(stop) => Err(at_image(stop)),
    }
}

/// The image of a configuration, in order: objects by path, windows by number, holds by subject and path, and words without the
/// zeros at their end. The language is this project's own.
///
/// `Bad` is the first fault: the text is too long; else that of the first line that has one, a program's at its own line; else
/// the first line that names what isn't there; else that something is missing; else that of the image's bytes. It takes memory for
/// what the lines say and for the image.
#[tactic(auto, using(crate::proofs::Images::built_stopped, crate::proofs::Images::built_ok, crate::proofs::Images::built_err))]
pub fn build(alloc: Global, text: &[u8]) -> Result<Image, BuildStop>
    ensures ok { IfOk result (λ image. built text.now ≡ Ok image) }
    ensures bad { IfErr result (λ stop. Refuses stop (built text.now)) }

    // Its bytes are its spelling, and are read again, whatever follows them; and it passes all checks of an image, so that a run
    // takes it.
    ensures whole { IfOk result IsWhole }
    ensures accepted { IfOk result IsAccepted }
{
    match read_configuration(alloc, text) {
        Ok(said) => image_in(alloc, &said),
        Err(stop) => Err(stop),
    }
}

// The listings of programs, one behind the other.
fn list_all(alloc: Global, programs: &[Named]) -> Result<Vec<u8>, NoMemory>
    ensures { IfOk result (λ bytes. bytes.items ≡ listings_of programs.now) }
{
    let mut out = Vec::new(alloc);
    for named in programs {
        let text = listing(alloc, named.name.as_slice(), &named.program)?;
        let Ok(()) = out.extend_from_slice(&text) else {
            return Err(NoMemory);
        };
    }
    Ok(out)
}

/// The listing of the programs of a configuration, in their order: of each its name, origin and number of words, its symbols, and
/// its words.
///
/// `Bad` is the first fault, as of `build`, but that the bytes of the image aren't asked. It takes memory for what the lines say
/// and for the listing.
#[tactic(auto, using(crate::proofs::Images::listing_stopped, crate::proofs::Images::listing_ok))]
pub fn list(alloc: Global, text: &[u8]) -> Result<Vec<u8>, BuildStop>
    ensures ok { IfOk result (λ bytes. listing_of text.now ≡ Ok bytes.items) }
    ensures bad { IfErr result (λ stop. Refuses stop (listing_of text.now)) }
{
    match read_configuration(alloc, text) {
        Ok(said) => match list_all(alloc, &said.programs) {
            Ok(bytes) => Ok(bytes),
            Err(_) => Err(BuildStop::NoMemory),
        },
        Err(stop) => Err(stop),
    }
}
