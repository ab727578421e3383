// The parts of an image as bytes, put at the end of those that stand already.

ghost use Rattle.std.specs.Prelude.{◌≡◌, ◌++◌, ◌∷◌, ◌+◌, ◌*◌, [], ◌<◌, ◌≤◌, ℕ, All, length, take, flat_map, OnOk, IsTrue};
ghost use Rattle.std.specs.List.{list_all};
ghost use Rattle.bk_object.specs.Rows.{in_row, most_subjects};
ghost use Rattle.bk_path.specs.Paths.{IsPath};
ghost use Rattle.bk_image.specs.Spelling.{word_bytes, words_bytes, path_bytes, level_bytes, mode_number, window_bytes, subject_bytes, kind_bytes};
ghost use Rattle.bk_image.specs.Spelling.{row_bytes, object_bytes, hold_bytes};
ghost use Rattle.bk_image.specs.Objects.{fits_subjects};
ghost use Rattle.bk_image.specs.Versions.{category_words, subjects_of};
ghost use Rattle.bk_image.specs.Writing.{windows_fit, object_fits, LevelFits, WindowFits, SubjectFits, RowFits, ObjectFits, HoldFits};

use crate::version::Version;
use bitflags::Flags;
use bk_level::Level;
use bk_object::{Facts, Kind, Row};
use bk_path::Path;
use bk_space::Mode;
use bk_state::{Hold, ObjectRec, SubjectRec, WindowRec};
use byteorder::{ByteOrder, LittleEndian};
use std::alloc::AllocError;

/// The low byte, and then the high one.
pub(crate) fn put_word(out: &mut Vec<u8>, n: u16) -> Result<(), AllocError>
    ensures { OnOk result (out.new.items ≡ out.old.items ++ word_bytes n) }
{
    let mut bytes = [0; 2];
    LittleEndian::write_u16(&mut bytes, n);
    out.extend_from_slice(&bytes)
}

fn put_words(out: &mut Vec<u8>, words: &[u16]) -> Result<(), AllocError>
    ensures { OnOk result (out.new.items ≡ out.old.items ++ words_bytes words.now) }
{
    for n in words {
        put_word(out, *n)?;
    }
    Ok(())
}

#[tactic(auto, unfolding(crate::specs::Spelling::path_bytes))]
fn put_path(out: &mut Vec<u8>, path: Path) -> Result<(), AllocError>
    ensures text { OnOk result (out.new.items ≡ out.old.items ++ path_bytes path) }
    ensures fits { IsPath path }
{
    let (first, second) = path.pack();
    put_word(out, first)?;
    put_word(out, second)
}

// Class, zero, and as many words of the categories as the version has.
fn put_class(
    out: &mut Vec<u8>,
    version: Version,
    class: u8,
    words: &[u16; 3],
) -> Result<(), AllocError>
    ensures { OnOk result (out.new.items ≡ out.old.items ++ class ∷ 0 ∷ words_bytes (take (category_words version) words.now)) }
{
    out.push(class)?;
    out.push(0)?;
    match version {
        Version::One => put_words(out, &words[..1]),
        Version::Two => put_words(out, words),
    }
}

fn put_level(out: &mut Vec<u8>, version: Version, level: Level) -> Result<(), AllocError>
    ensures text { OnOk result (out.new.items ≡ out.old.items ++ level_bytes version level) }
    ensures fits { LevelFits level }
{
    put_class(out, version, level.class, &level.cats)
}

pub(crate) fn put_levels(
    out: &mut Vec<u8>,
    version: Version,
    levels: &[Level],
) -> Result<(), AllocError>
    ensures text { OnOk result (out.new.items ≡ out.old.items ++ flat_map (level_bytes version) levels.now) }
    ensures fits { OnOk result (All LevelFits levels.now) }
{
    for level in levels {
        put_level(out, version, *level)?;
    }
    Ok(())
}

fn mode_number(mode: Mode) -> u8
    ensures { result ≡ mode_number mode }
{
    match mode {
        Mode::Supervisor => 1,
        Mode::User => 3,
    }
}

fn put_windows(out: &mut Vec<u8>, windows: &[WindowRec]) -> Result<(), AllocError>
    ensures text { OnOk result (out.new.items ≡ out.old.items ++ flat_map window_bytes windows.now) }
    ensures fits { OnOk result (All WindowFits windows.now) }
{
    for window in windows {
        out.push(window.index)?;
        put_path(out, window.path)?;
    }
    Ok(())
}

fn put_subject(out: &mut Vec<u8>, s: &SubjectRec) -> Result<(), AllocError>
    requires { IsTrue (windows_fit s.now) }
    ensures text { OnOk result (out.new.items ≡ out.old.items ++ subject_bytes s.now) }
    ensures fits { OnOk result (SubjectFits s.now) }
{
    let windows = s.windows.as_slice();
    out.push(s.f_s)?;
    out.push(s.f_c)?;
    out.push(mode_number(s.mode))?;
    out.push(mode_number(s.previous))?;
    put_words(out, &s.regs)?;
    put_word(out, s.user_sp)?;
    put_word(out, s.super_sp)?;
    put_word(out, s.pc)?;
    put_words(out, &s.entries)?;
    out.push(windows.len() as u8)?;
    put_windows(out, windows)
}

pub(crate) fn put_subjects(out: &mut Vec<u8>, subjects: &[SubjectRec]) -> Result<(), AllocError>
    requires { IsTrue (list_all windows_fit subjects.now) }
    ensures text { OnOk result (out.new.items ≡ out.old.items ++ flat_map subject_bytes subjects.now) }
    ensures fits { OnOk result (All SubjectFits subjects.now) }
{
    for s in subjects {
        put_subject(out, s)?;
    }
    Ok(())
}

// A byte of a row: two subjects, the lower one in its low half.
fn row_byte(row: &Row, place: u8) -> u8
    requires { place < 32 }
    ensures value { result ≡ (in_row row.now (2 * place)).0 + 16 * (in_row row.now (2 * place + 1)).0 }
    ensures low { (in_row row.now (2 * place)).0 < 16 }
    ensures high { (in_row row.now (2 * place + 1)).0 < 16 }
    ensures sets { length row.now ≡ most_subjects }
{
    let low = row.get(2 * place);
    let high = row.get(2 * place + 1);
    low.bits() + 16 * high.bits()
}

#[tactic(auto, unfolding(crate::specs::Spelling::row_bytes))]
fn put_row(out: &mut Vec<u8>, version: Version, row: &Row) -> Result<(), AllocError>
    requires { IsTrue (fits_subjects (subjects_of version) row.now) }
    ensures text { OnOk result (out.new.items ≡ out.old.items ++ row_bytes version row.now) }
    ensures fits { OnOk result (RowFits row.now) }
{
    for place in 0..version.row_size() {
        out.push(row_byte(row, place))?;
    }
    Ok(())
}

// Kind, blocks or line number, level, and zero.
#[tactic(auto, unfolding(crate::specs::Spelling::kind_bytes))]
fn put_kind(out: &mut Vec<u8>, facts: &Facts) -> Result<(), AllocError>
    ensures { OnOk result (out.new.items ≡ out.old.items ++ kind_bytes facts.now) }
{
    out.push(facts.kind.number())?;
    out.push(facts.kind.blocks_or_line(facts.blocks))?;
    out.push(facts.level)?;
    out.push(0)?;
    Ok(())
}

#[tactic(auto, unfolding(crate::specs::Spelling::object_bytes))]
fn put_object(out: &mut Vec<u8>, version: Version, o: &ObjectRec) -> Result<(), AllocError>
    requires { IsTrue (object_fits version o.now) }
    ensures text { OnOk result (out.new.items ≡ out.old.items ++ object_bytes version o.now) }
    ensures fits { OnOk result (ObjectFits o.now) }
{
    let words = o.words.as_slice();
    put_path(out, o.path)?;
    put_kind(out, &o.facts)?;
    put_word(out, o.facts.quota)?;
    put_row(out, version, &o.facts.row)?;
    put_word(out, words.len() as u16)?;
    put_words(out, words)
}

pub(crate) fn put_objects(
    out: &mut Vec<u8>,
    version: Version,
    objects: &[ObjectRec],
) -> Result<(), AllocError>
    requires { IsTrue (list_all (object_fits version) objects.now) }
    ensures text { OnOk result (out.new.items ≡ out.old.items ++ flat_map (object_bytes version) objects.now) }
    ensures fits { OnOk result (All ObjectFits objects.now) }
{
    for o in objects {
        put_object(out, version, o)?;
    }
    Ok(())
}

pub(crate) fn put_holds(out: &mut Vec<u8>, holds: &[Hold]) -> Result<(), AllocError>
    ensures text { OnOk result (out.new.items ≡ out.old.items ++ flat_map hold_bytes holds.now) }
    ensures fits { OnOk result (All HoldFits holds.now) }
{
    for hold in holds {
        out.push(hold.subject)?;
        out.push(hold.modes.bits())?;
        put_path(out, hold.path)?;
    }
    Ok(())
}
