// Subjects: the numbers of their levels, their processes at the start, and their windows.

ghost use Rattle.std.specs.Prelude.{◌≡◌, ◌≤◌, ◌+◌, ◌%◌, ◌==◌, [], length, take, drop, IfOk};
ghost use Rattle.std.specs.List.{list_all};
ghost use Rattle.bk_level.specs.Levels as levels_model;
ghost use Rattle.bk_image.specs.Numbers.{words_of};
ghost use Rattle.bk_image.specs.Parts.{Gives, each_of, first_failing};
ghost use Rattle.bk_image.specs.Subjects.{is_mode, mode_of, subject_at, subject_fails, subject_of};
ghost use Rattle.bk_image.specs.Views.{rest_of};

use crate::fault::{ImageField, ImageStop};
use crate::part::{bad, part, word};
use crate::rest::Rest;
use crate::window::read_windows;
use bk_level::LevelTable;
use bk_process::WINDOWS;
use bk_space::Mode;
use bk_state::{SubjectRec, WindowRec, Windows};
use std::alloc::Global;

/// Whether the level with the first number dominates that with the second; a number past the end is that of the lowest level.
pub(crate) fn dominates_at(levels: &LevelTable, above: u8, below: u8) -> bool
    ensures { result ≡ levels_model.dominates (levels_model.level_at levels.now above) (levels_model.level_at levels.now below) }
{
    levels.at(above).dominates(levels.at(below))
}

fn is_mode(number: u8) -> bool
    ensures { result ≡ is_mode number }
{
    number == 1 || number == 3
}

fn mode_of(number: u8) -> Mode
    ensures { result ≡ mode_of number }
{
    if number == 1 {
        Mode::Supervisor
    } else {
        Mode::User
    }
}

// The six words from byte 4 on.
fn regs(bytes: &[u8]) -> [u16; 6]
    requires { length bytes.now ≡ 39 }
    ensures { result ≡ words_of (take 12 (drop 4 bytes.now)) }
{
    [
        word(bytes, 4),
        word(bytes, 6),
        word(bytes, 8),
        word(bytes, 10),
        word(bytes, 12),
        word(bytes, 14),
    ]
}

// The eight words from byte 22 on.
fn entries(bytes: &[u8]) -> [u16; 8]
    requires { length bytes.now ≡ 39 }
    ensures { result ≡ words_of (take 16 (drop 22 bytes.now)) }
{
    [
        word(bytes, 22),
        word(bytes, 24),
        word(bytes, 26),
        word(bytes, 28),
        word(bytes, 30),
        word(bytes, 32),
        word(bytes, 34),
        word(bytes, 36),
    ]
}

fn are_even(entries: &[u16]) -> bool
    ensures { result ≡ list_all (λ entry. entry % 2 == 0) entries.now }
{
    entries.iter().all(|entry| *entry % 2 == 0)
}

// The checks of a subject's 39 bytes, in their order.
fn check(at: u32, levels: &LevelTable, bytes: &[u8]) -> Result<(), ImageStop>
    requires { length bytes.now ≡ 39 }
    ensures { Gives (λ x. tt) result (first_failing at (subject_fails levels.now bytes.now)) }
{
    if bytes[0] >= levels.len() || bytes[1] >= levels.len() {
        return Err(bad(at, ImageField::Level));
    }
    if !dominates_at(levels, bytes[0], bytes[1]) {
        return Err(bad(at, ImageField::Level));
    }
    if !(is_mode(bytes[2]) && is_mode(bytes[3])) {
        return Err(bad(at, ImageField::Mode));
    }
    if !are_even(&entries(bytes)) {
        return Err(bad(at, ImageField::Entry));
    }
    if bytes[38] > WINDOWS {
        return Err(bad(at, ImageField::Counts));
    }
    Ok(())
}

// The subject that 39 bytes and these windows tell.
fn subject_of(bytes: &[u8], windows: Vec<WindowRec>) -> SubjectRec
    requires { length bytes.now ≡ 39 }
    ensures { result ≡ subject_of bytes.now windows.items }
{
    SubjectRec {
        f_s: bytes[0],
        f_c: bytes[1],
        mode: mode_of(bytes[2]),
        previous: mode_of(bytes[3]),
        regs: regs(bytes),
        user_sp: word(bytes, 16),
        super_sp: word(bytes, 18),
        pc: word(bytes, 20),
        entries: entries(bytes),
        windows: Windows::from_vec(windows),
    }
}

#[tactic(auto, unfolding(crate::specs::Subjects::subject_at))]
fn next(
    alloc: Global,
    levels: &LevelTable,
    before: &[SubjectRec],
    rest: &mut Rest,
) -> Result<SubjectRec, ImageStop>
    ensures { Gives (λ x. (x, rest_of rest.new)) result (subject_at levels.now before.now (rest_of rest.old)) }
{
    let at = rest.at;
    let bytes = part(rest, 39)?;
    check(at, levels, bytes)?;
    let windows = read_windows(alloc, bytes[38], rest)?;
    Ok(subject_of(bytes, windows))
}

/// So many subjects.
pub(crate) fn read_subjects(
    alloc: Global,
    levels: &LevelTable,
    count: u8,
    rest: &mut Rest,
) -> Result<Vec<SubjectRec>, ImageStop>
    ensures few { IfOk result (λ v. length v.items ≡ count) }
    ensures exact { Gives (λ v. (v.items, rest_of rest.new)) result (each_of (subject_at levels.now) count [] (rest_of rest.old)) }
{
    let mut subjects = Vec::new(alloc);
    for _ in 0..count {
        let subject = next(alloc, levels, &subjects, rest)?;
        subjects.push(subject)?;
    }
    Ok(subjects)
}
