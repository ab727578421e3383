// An image and a script for it, from a number.

ghost use Rattle.std.specs.Prelude.{◌≡◌, Ok, IfOk};
ghost use Rattle.bk_state.specs.Secure.{Secure};
ghost use Rattle.bk_state.specs.Start.{state_of};
ghost use Rattle.bk_image.specs.Accepted.{IsAccepted};
ghost use Rattle.bk_image.specs.Image.{IsImage};
ghost use Rattle.bk_image.specs.Spelling.{spelling};
ghost use Rattle.bk_image.specs.Writing.{written_image};
ghost use Rattle.bk_script.specs.Script.{IsScript};
ghost use Rattle.bk_gen.specs.Image.{generated_image};
ghost use Rattle.bk_gen.specs.Script.{generated_script};

use crate::object::objects;
use crate::subject::{LEVELS, SUBJECTS, holds, levels, subjects};
use crate::typing::script;
use bk_base::{Bytes, NoMemory};
use bk_state::{Holds, Image, Objects, Subjects};
use bk_system::Script;
use std::alloc::{AllocError, Global};

/// How many turns a slot has.
const TURNS: u16 = 64;

/// Each subject has every eighth slot.
const SCHEDULE: [u8; SUBJECTS as usize] = [0, 1, 2, 3, 4, 5, 6, 7];

// The image, which is the same for each number.
#[tactic(auto, unfolding(crate::specs::Image::generated_image, crate::specs::Subjects::generated_subjects, crate::specs::Subjects::generated_holds))]
fn image(alloc: Global) -> Result<Image, AllocError>
    ensures { IfOk result (λ image. image ≡ generated_image) }
{
    Ok(Image {
        turns: TURNS,
        levels: levels(),
        lines: LEVELS,
        schedule: Bytes::from_vec(SCHEDULE.to_vec(alloc)?),
        subjects: Subjects::from_vec(subjects(alloc, SUBJECTS)?),
        objects: Objects::from_vec(objects(alloc)?),
        holds: Holds::from_vec(holds(alloc, SUBJECTS)?),
    })
}

/// A large run that can be made again: an image of 279 objects, with eight subjects at four levels that echo what is typed on
/// their lines, and a script of 4,096 slots in which the number decides what is typed on which line. The image is the same for
/// each number. The only refusal is `NoMemory`, where the host has no more. What is made so is this project's own.
pub fn generate(alloc: Global, n: u32) -> Result<(Image, Script), NoMemory>
    // What is made.
    ensures image { IfOk result (λ made. made.0 ≡ generated_image) }
    ensures script { IfOk result (λ made. made.1 ≡ generated_script n) }

    // The image passes all checks, and the state that it stands for is secure.
    ensures accepted { IfOk result (λ made. IsAccepted made.0) }
    ensures secure { IfOk result (λ made. Secure (state_of made.0)) }

    // It is written as its spelling, and its spelling is read as it.
    ensures written { IfOk result (λ made. written_image made.0 ≡ Ok (spelling made.0)) }
    ensures read { IfOk result (λ made. IsImage (spelling made.0) made.0) }

    // The script is one for the image.
    ensures typed { IfOk result (λ made. IsScript made.0.lines made.0.turns made.1.typed made.1.slots) }
{
    let image = image(alloc)?;
    let script = script(alloc, n)?;
    Ok((image, script))
}
