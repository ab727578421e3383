// Parts of the input: the next bytes, and the numbers and paths in them.

ghost use Rattle.std.specs.Prelude.{◌≡◌, ◌+◌, ◌<◌, ◌≤◌, length, IfOk};
ghost use Rattle.bk_image.specs.Numbers as numbers;
ghost use Rattle.bk_base.specs.declared.stop.Stop.TheVariants.{Bad};
ghost use Rattle.bk_image.specs.Parts.{fault_at, Gives, part};
ghost use Rattle.bk_image.specs.Views.{rest_of};

use crate::fault::{ImageFault, ImageField, ImageStop};
use crate::limits::MOST_BYTES;
use crate::rest::Rest;
use bk_path::Path;
use byteorder::{ByteOrder, LittleEndian};

/// A fault of the field, told of the place.
pub(crate) fn bad(at: u32, field: ImageField) -> ImageStop
    ensures { result ≡ Bad (fault_at at field) }
{
    ImageStop::Bad(ImageFault { at, field })
}

/// The next n bytes, which are then taken.
#[tactic(auto, unfolding(bk_base::specs::Parts::part))]
pub(crate) fn part<'a>(rest: &mut Rest<'a>, n: u32) -> Result<&'a [u8], ImageStop>
    ensures exact { Gives (λ b. (b.now, rest_of rest.new)) result (part n (rest_of rest.old)) }
    ensures whole { IfOk result (λ b. length b.now ≡ n) }
    ensures place { IfOk result (λ b. rest.new.at ≡ rest.old.at + n) }
{
    if n > MOST_BYTES || rest.at > MOST_BYTES - n {
        return Err(bad(rest.at, ImageField::Long));
    }
    if rest.bytes.len() < n as usize {
        return Err(bad(rest.at + rest.bytes.len() as u32, ImageField::End));
    }
    let (front, after) = rest.bytes.split_at(n as usize);
    *rest = Rest {
        at: rest.at + n,
        bytes: after,
    };
    Ok(front)
}

/// The number of two bytes, the low one first.
pub(crate) fn word(bytes: &[u8], i: usize) -> u16
    requires { i + 2 ≤ length bytes.now }
    ensures { result ≡ numbers.word bytes.now i }
{
    LittleEndian::read_u16(&bytes[i..i + 2])
}

/// The path that two words spell, where they spell one.
pub(crate) fn path_in(bytes: &[u8], i: usize) -> Option<Path>
    requires { i + 4 ≤ length bytes.now }
    ensures { result ≡ numbers.path_in bytes.now i }
{
    Path::unpack(word(bytes, i), word(bytes, i + 2))
}
