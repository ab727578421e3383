// The pages are set from the store.

ghost use Rattle.std.specs.Prelude.{◌≡◌, ◌<◌, Some, replicate, slice_set};
ghost use Rattle.bk_object.specs.Modes.{has, Read, Execute, Write};
ghost use Rattle.bk_object.specs.Rows.{most_subjects};
ghost use Rattle.bk_system.specs.Space.{is_data, rights_by};
ghost use Rattle.bk_mmu.specs.ActivePages.{active_page, non_resident};
ghost use Rattle.bk_pages.specs.Pages.{page_for, pages_for};

use crate::windows::Windows;
use bitflags::Flags;
use bk_machine::Machine;
use bk_object::Modes;
use bk_path::Path;
use bk_space::{PAGES, Rights};
use bk_store::Store;

// What may be done in a window with what the subject holds by these modes.
fn rights_by(window: u8, modes: Modes) -> Rights
    ensures { result ≡ rights_by (is_data window) (has modes Read) (has modes Execute) (has modes Write) }
{
    let bits = modes.bits();
    if window / 8 % 2 == 1 {
        if bits / 4 % 2 == 1 {
            Rights::Write
        } else if bits % 2 == 1 {
            Rights::Read
        } else {
            Rights::None
        }
    } else if bits / 2 % 2 == 1 {
        Rights::Read
    } else {
        Rights::None
    }
}

// The page, which is not there, becomes that of a window which shows the path, or is free.
fn set_page(machine: &mut Machine, store: &Store, subject: u8, window: u8, shown: Option<Path>)
    requires subject { subject < most_subjects }
    requires window { window < PAGES }
    requires clear { active_page machine.old.pages.registers window ≡ non_resident }
    ensures page { machine.new.pages.registers ≡ slice_set machine.old.pages.registers window (page_for store.now subject window (Some shown)) }
    ensures rest { machine.new ≡ record machine.old { pages = machine.new.pages } }
{
    store.law_contents();
    let Some(path) = shown else {
        return;
    };
    if let Some((first, size, modes)) = store.shown(subject, path) {
        machine.load_page(window, first as u16, size, rights_by(window, modes));
    }
}

// All 32 pages, of which none is there, become those of the windows.
fn set_each(machine: &mut Machine, store: &Store, subject: u8, windows: &Windows)
    requires subject { subject < most_subjects }
    requires clear { machine.old.pages.registers ≡ replicate PAGES non_resident }
    ensures pages { machine.new.pages.registers ≡ pages_for store.now subject windows.now }
    ensures rest { machine.new ≡ record machine.old { pages = machine.new.pages } }
{
    for window in 0..PAGES {
        set_page(machine, store, subject, window, windows[window as usize]);
    }
}

/// All 32 pages become those of the subject whose process has these windows: of each window that shows a segment, by what the
/// subject holds of it now, the page over the blocks where the segment stands now. Every other page becomes non-resident.
pub fn set_pages(machine: &mut Machine, store: &Store, subject: u8, windows: &Windows)
    requires { subject < most_subjects }
    ensures pages { machine.new.pages.registers ≡ pages_for store.now subject windows.now }
    ensures rest { machine.new ≡ record machine.old { pages = machine.new.pages } }
{
    machine.clear_pages();
    set_each(machine, store, subject, windows);
}
