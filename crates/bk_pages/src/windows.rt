ghost use Rattle.std.specs.Prelude.{◌≡◌, length};

use bk_path::Path;
use bk_process::WINDOWS;
use bk_space::PAGES;

/// The path that each window of a process shows, or None where it is free.
pub(crate) type Windows = [Option<Path>; WINDOWS as usize];

/// There is a window for each page.
#[inline(always)]
pub(crate) fn law_windows(windows: &Windows)
    ensures { length windows.now ≡ PAGES }
{
    let _windows = windows.len();
}
