// Writing an image: its fields have to hold the value, and its bytes have to be an image.

ghost use Rattle.std.specs.Prelude.{◌≡◌, ◌++◌, ◌∷◌, [], ℕ, List, length, Ok, OnOk, IfOk, IsTrue};
ghost use Rattle.std.specs.List.{list_all};
ghost use Rattle.bk_image.specs.Parts.{Gives};
ghost use Rattle.bk_image.specs.Image.{image_of};
ghost use Rattle.bk_image.specs.Objects.{fits_subjects};
ghost use Rattle.bk_image.specs.Spelling.{word_bytes, header_bytes, header_of, spelling};
ghost use Rattle.bk_image.specs.Versions.{version_number, version_for};
ghost use Rattle.bk_image.specs.Writing.{windows_fit, blocks_fit, object_fits, counts_fit, Fits, written_image};

use crate::fault::{ImageField, ImageStop};
use crate::part::bad;
use crate::put::{put_holds, put_levels, put_objects, put_subjects, put_word};
use crate::reading::read_image;
use crate::version::{Version, version_for};
use bitflags::Flags;
use bk_level::{Level, LevelTable};
use bk_object::{Kind, MOST_SUBJECTS, Row};
use bk_state::{Image, ObjectRec, SubjectRec};
use std::alloc::{AllocError, Global};

// Whether the number of each subject's windows fits into a byte.
fn all_windows_fit(subjects: &[SubjectRec]) -> bool
    ensures { result ≡ list_all windows_fit subjects.now }
{
    for s in subjects {
        if s.windows.as_slice().len() >= 256 {
            return false;
        }
    }
    true
}

// Whether the number in the place of the blocks is all that has to stand there.
fn blocks_fit(kind: Kind, blocks: u8) -> bool
    ensures { result ≡ blocks_fit kind blocks }
{
    match kind {
        Kind::Directory | Kind::Segment | Kind::Mailbox => true,
        Kind::Line(_) => blocks == 0,
    }
}

// Whether no subject from the number on has modes.
fn fits_subjects(subjects: u8, row: &Row) -> bool
    ensures { result ≡ fits_subjects subjects row.now }
{
    for subject in 0..MOST_SUBJECTS {
        if row.get(subject).bits() != 0 && subject >= subjects {
            return false;
        }
    }
    true
}

fn object_fits(version: Version, o: &ObjectRec) -> bool
    ensures { result ≡ object_fits version o.now }
{
    o.words.as_slice().len() < 65536
        && blocks_fit(o.facts.kind, o.facts.blocks)
        && fits_subjects(version.subjects(), &o.facts.row)
}

fn all_objects_fit(version: Version, objects: &[ObjectRec]) -> bool
    ensures { result ≡ list_all (object_fits version) objects.now }
{
    for o in objects {
        if !object_fits(version, o) {
            return false;
        }
    }
    true
}

// Whether each count holds the number of what it counts, and each field its value.
fn counts_fit(version: Version, levels: &[Level], image: &Image) -> bool
    requires { version ≡ version_for (record image.now { levels = levels.now }) }
    ensures { result ≡ counts_fit (record image.now { levels = levels.now }) }
{
    let subjects = image.subjects.as_slice();
    let objects = image.objects.as_slice();
    levels.len() < 256
        && subjects.len() < 256
        && image.schedule.as_slice().len() < 256
        && objects.len() < 65536
        && image.holds.as_slice().len() < 65536
        && all_windows_fit(subjects)
        && all_objects_fit(version, objects)
}

// The magic, the version, and the turns of a slot.
fn put_turns(out: &mut Vec<u8>, version: Version, turns: u16) -> Result<(), AllocError>
    ensures { OnOk result (out.new.items ≡ out.old.items ++ (66 ∷ 76 ∷ 80 ∷ 75 ∷ []) ++ word_bytes (version_number version) ++ word_bytes turns) }
{
    out.extend_from_slice(b"BLPK")?;
    put_word(out, version.number())?;
    put_word(out, turns)
}

// The four counts of one byte.
fn put_counts(
    out: &mut Vec<u8>,
    levels: u8,
    subjects: u8,
    lines: u8,
    schedule: u8,
) -> Result<(), AllocError>
    ensures { OnOk result (out.new.items ≡ out.old.items ++ levels ∷ subjects ∷ lines ∷ schedule ∷ []) }
{
    out.push(levels)?;
    out.push(subjects)?;
    out.push(lines)?;
    out.push(schedule)?;
    Ok(())
}

fn put_header(
    out: &mut Vec<u8>,
    version: Version,
    levels: &[Level],
    image: &Image,
) -> Result<(), AllocError>
    requires version { version ≡ version_for (record image.now { levels = levels.now }) }
    requires counts { IsTrue (counts_fit (record image.now { levels = levels.now })) }
    ensures { OnOk result (out.new.items ≡ out.old.items ++ header_bytes (header_of (record image.now { levels = levels.now }))) }
{
    let subjects = image.subjects.as_slice().len() as u8;
    let schedule = image.schedule.as_slice().len() as u8;
    put_turns(out, version, image.turns)?;
    put_counts(out, levels.len() as u8, subjects, image.lines, schedule)?;
    put_word(out, image.objects.as_slice().len() as u16)?;
    put_word(out, image.holds.as_slice().len() as u16)
}

// The bytes of an image with these levels, whose fields fit.
#[tactic(auto, unfolding(crate::specs::Spelling::spelling))]
fn spell(
    alloc: Global,
    version: Version,
    levels: &[Level],
    image: &Image,
) -> Result<Vec<u8>, AllocError>
    requires version { version ≡ version_for (record image.now { levels = levels.now }) }
    requires counts { IsTrue (counts_fit (record image.now { levels = levels.now })) }
    ensures text { IfOk result (λ bytes. bytes.items ≡ spelling (record image.now { levels = levels.now })) }
    ensures fits { IfOk result (λ bytes. Fits (record image.now { levels = levels.now })) }
{
    let mut out = Vec::new(alloc);
    put_header(&mut out, version, levels, image)?;
    put_levels(&mut out, version, levels)?;
    out.extend_from_slice(image.schedule.as_slice())?;
    put_subjects(&mut out, image.subjects.as_slice())?;
    put_objects(&mut out, version, image.objects.as_slice())?;
    put_holds(&mut out, image.holds.as_slice())?;
    Ok(out)
}

/// The bytes of the image with these levels in place of its own, of which some may stand twice: what `write_image` says of
/// an image holds of this one.
#[tactic(auto, unfolding(crate::specs::Writing::written_image))]
pub fn write_with_levels(
    alloc: Global,
    levels: &[Level],
    image: &Image,
) -> Result<Vec<u8>, ImageStop>
    ensures exact { Gives (λ bytes. bytes.items) result (written_image (record image.now { levels = levels.now })) }
    ensures fits { IfOk result (λ bytes. Fits (record image.now { levels = levels.now })) }
{
    let version = version_for(levels, image);
    if !counts_fit(version, levels, image) {
        return Err(bad(0, ImageField::Counts));
    }
    let bytes = spell(alloc, version, levels, image)?;
    read_image(alloc, &bytes)?;
    Ok(bytes)
}

// The levels of a table, in order.
fn listed(alloc: Global, table: &LevelTable) -> Result<Vec<Level>, AllocError>
    ensures { IfOk result (λ levels. levels.items ≡ table.now) }
{
    let mut levels = Vec::new(alloc);
    for n in 0..table.len() {
        levels.push(table.get(n).unwrap())?;
    }
    Ok(levels)
}

/// The bytes of an image: its one spelling, in version 1 exactly where it has at most 32 subjects and no category over 15,
/// and else in version 2.
///
/// `Bad` is `counts` at 0 where the fields of the format can't hold the value: a count has more to count than it can hold, a
/// line has blocks, or a row grants something to a subject beyond those that the version's rows have room for. Otherwise it
/// is the first fault of the bytes, where they are no image. The format is this project's own.
pub fn write_image(alloc: Global, image: &Image) -> Result<Vec<u8>, ImageStop>
    // What is written, or why there is nothing to write.
    ensures exact { Gives (λ bytes. bytes.items) result (written_image image.now) }
    // What is written is read again as the image, whatever follows it.
    ensures again { IfOk result (λ bytes. (more : List ℕ) → image_of (bytes.items ++ more) ≡ Ok (image.now, length bytes.items)) }
{
    let levels = listed(alloc, &image.levels)?;
    write_with_levels(alloc, &levels, image)
}
