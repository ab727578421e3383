// Windows: the number of each, and the path that it shows.

ghost use Rattle.std.specs.Prelude.{◌≡◌, []};
ghost use Rattle.bk_image.specs.Parts.{Gives, each_of, last};
ghost use Rattle.bk_image.specs.Subjects.{window_at, window_follows};
ghost use Rattle.bk_image.specs.Views.{rest_of};

use crate::fault::{ImageField, ImageStop};
use crate::part::{bad, part, path_in};
use crate::rest::Rest;
use bk_process::WINDOWS;
use bk_state::WindowRec;
use std::alloc::Global;

// The number stands above that of the last window.
fn follows(before: &[WindowRec], index: u8) -> bool
    ensures { result ≡ window_follows (last before.now) index }
{
    match before.last() {
        None => true,
        Some(window) => window.index < index,
    }
}

#[tactic(auto, unfolding(crate::specs::Subjects::window_at))]
fn next(before: &[WindowRec], rest: &mut Rest) -> Result<WindowRec, ImageStop>
    ensures { Gives (λ x. (x, rest_of rest.new)) result (window_at before.now (rest_of rest.old)) }
{
    let at = rest.at;
    let bytes = part(rest, 5)?;
    let index = bytes[0];
    if index >= WINDOWS || !follows(before, index) {
        return Err(bad(at, ImageField::Window));
    }
    match path_in(bytes, 1) {
        None => Err(bad(at, ImageField::Window)),
        Some(path) => Ok(WindowRec { index, path }),
    }
}

/// So many windows.
pub(crate) fn read_windows(
    alloc: Global,
    count: u8,
    rest: &mut Rest,
) -> Result<Vec<WindowRec>, ImageStop>
    ensures { Gives (λ x. (x.items, rest_of rest.new)) result (each_of window_at count [] (rest_of rest.old)) }
{
    let mut windows = Vec::new(alloc);
    for _ in 0..count {
        let window = next(&windows, rest)?;
        windows.push(window)?;
    }
    Ok(windows)
}
