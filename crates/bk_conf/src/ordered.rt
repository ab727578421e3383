// The image of what a configuration says, in order.

ghost use Rattle.std.specs.Prelude.{◌≡◌, ◌<◌, [], map, unwrap_or, IfOk, Some};
ghost use Rattle.bk_conf.specs.Ordered as model;
ghost use Rattle.bk_conf.specs.Views.{said_of, words_of};

use crate::line::SubjectLine;
use crate::said::{Placed, Said};
use bitflags::Flags;
use bk_base::{Bytes, Words};
use bk_level::LevelTable;
use bk_object::{Facts, MOST_SUBJECTS, Modes, Row};
use bk_path::Path;
use bk_process::FAULT_ENTRIES;
use bk_state::{Hold, Holds, Image, ObjectRec, Objects, SubjectRec, Subjects, WindowRec, Windows};
use std::alloc::{AllocError, Global};
use std::collections::BTreeMap;

// The entry of a subject for a fault, or 0.
fn entry_at(entries: &BTreeMap<(u8, u8), u16>, subject: u8, fault: u8) -> u16
    ensures { result ≡ model.entry_at entries.now.entries subject fault }
{
    match entries.get(&(subject, fault)) {
        Some(address) => *address,
        None => 0,
    }
}

// The fault entries of a subject.
fn entries_in(entries: &BTreeMap<(u8, u8), u16>, subject: u8) -> [u16; FAULT_ENTRIES as usize]
    ensures { result ≡ model.entries_in entries.now.entries subject }
{
    [
        entry_at(entries, subject, 0),
        entry_at(entries, subject, 1),
        entry_at(entries, subject, 2),
        entry_at(entries, subject, 3),
        entry_at(entries, subject, 4),
        entry_at(entries, subject, 5),
        entry_at(entries, subject, 6),
        entry_at(entries, subject, 7),
    ]
}

// The windows of a subject, by their numbers.
fn windows_in(
    alloc: Global,
    windows: &BTreeMap<(u8, u8), Path>,
    subject: u8,
) -> Result<Windows, AllocError>
    ensures { IfOk result (λ shown. shown ≡ model.windows_in windows.now.entries subject) }
{
    let mut shown = Vec::new(alloc);
    for (key, path) in windows {
        if key.0 == subject {
            shown.push(WindowRec {
                index: key.1,
                path: *path,
            })?;
        }
    }
    Ok(Windows::from_vec(shown))
}

fn subject_in(
    alloc: Global,
    said: &Said,
    number: u8,
    subject: SubjectLine,
) -> Result<SubjectRec, AllocError>
    ensures { IfOk result (λ one. one ≡ model.subject_in (said_of said.now) number subject) }
{
    Ok(SubjectRec {
        f_s: subject.f_s,
        f_c: subject.f_c,
        mode: subject.mode,
        previous: subject.previous,
        regs: subject.regs,
        user_sp: subject.user_sp,
        super_sp: subject.super_sp,
        pc: subject.pc,
        entries: entries_in(&said.entries, number),
        windows: windows_in(alloc, &said.windows, number)?,
    })
}

fn subjects_in(alloc: Global, said: &Said) -> Result<Subjects, AllocError>
    ensures { IfOk result (λ subjects. subjects ≡ model.subjects_from (said_of said.now) 0 (said_of said.now).subjects) }
{
    let mut subjects = Vec::new(alloc);
    for number in 0..said.subjects.len() {
        subjects.push(subject_in(alloc, said, number as u8, said.subjects[number])?)?;
    }
    Ok(Subjects::from_vec(subjects))
}

// The modes that a line gives a subject in the row of an object, or none.
fn modes_at(rows: &BTreeMap<(Path, u8), Modes>, path: Path, subject: u8) -> Modes
    ensures { result ≡ model.modes_at rows.now.entries path subject }
{
    match rows.get(&(path, subject)) {
        Some(modes) => *modes,
        None => Modes::from_bits_retain(0),
    }
}

// The row of an object.
fn row_in(rows: &BTreeMap<(Path, u8), Modes>, path: Path) -> Row
    ensures { result ≡ model.row_in rows.now.entries path }
{
    let mut row = Row::new();
    for subject in 0..MOST_SUBJECTS {
        row.add(subject, modes_at(rows, path, subject));
    }
    row
}

// The words of the program with the name, or none.
#[tactic(auto, using(crate::proofs::Words::value_at_words))]
fn words_at(
    alloc: Global,
    words: &BTreeMap<Vec<u8>, Words>,
    name: &[u8],
) -> Result<Words, AllocError>
    ensures { IfOk result (λ found. found ≡ model.words_in (words_of words.now.entries) (Some name.now)) }
{
    match words.get(name) {
        Some(words) => Ok(Words::from_vec(words.as_slice().to_vec(alloc)?)),
        None => Ok(Words::from_vec(Vec::new(alloc))),
    }
}

// The words of a program, or none.
fn words_in(
    alloc: Global,
    words: &BTreeMap<Vec<u8>, Words>,
    program: &Option<Bytes>,
) -> Result<Words, AllocError>
    ensures { IfOk result (λ found. found ≡ model.words_in (words_of words.now.entries) program.now) }
{
    match program {
        Some(name) => words_at(alloc, words, name.as_slice()),
        None => Ok(Words::from_vec(Vec::new(alloc))),
    }
}

#[tactic(auto, unfolding(crate::specs::Ordered::object_in))]
fn object_in(
    alloc: Global,
    said: &Said,
    path: Path,
    placed: &Placed,
) -> Result<ObjectRec, AllocError>
    ensures { IfOk result (λ object. object ≡ model.object_in (said_of said.now) (path, placed.now)) }
{
    Ok(ObjectRec {
        path,
        facts: Facts {
            kind: placed.facts.kind,
            blocks: placed.facts.blocks,
            level: placed.facts.level,
            quota: placed.facts.quota,
            row: row_in(&said.rows, path),
        },
        words: words_in(alloc, &said.words, &placed.program)?,
    })
}

fn objects_in(alloc: Global, said: &Said) -> Result<Objects, AllocError>
    ensures { IfOk result (λ objects. objects ≡ map (model.object_in (said_of said.now)) said.now.objects.entries) }
{
    let mut objects = Vec::new(alloc);
    for (path, placed) in &said.objects {
        objects.push(object_in(alloc, said, *path, placed)?)?;
    }
    Ok(Objects::from_vec(objects))
}

fn holds_in(alloc: Global, said: &Said) -> Result<Holds, AllocError>
    ensures { IfOk result (λ holds. holds ≡ map model.hold_in said.now.holds.entries) }
{
    let mut holds = Vec::new(alloc);
    for (key, modes) in &said.holds {
        holds.push(Hold {
            subject: key.0,
            modes: *modes,
            path: key.1,
        })?;
    }
    Ok(Holds::from_vec(holds))
}

// The schedule, or no places.
fn schedule_in(alloc: Global, schedule: &Option<Bytes>) -> Result<Bytes, AllocError>
    ensures { IfOk result (λ places. places ≡ unwrap_or schedule.now []) }
{
    match schedule {
        Some(places) => Ok(Bytes::from_vec(places.as_slice().to_vec(alloc)?)),
        None => Ok(Bytes::from_vec(Vec::new(alloc))),
    }
}

/// The image in order, but for its levels: the table has none, since some may stand twice.
#[tactic(auto, unfolding(crate::specs::Ordered::ordered))]
pub fn ordered(alloc: Global, said: &Said) -> Result<Image, AllocError>
    ensures { IfOk result (λ image. record image { levels = said.now.levels.items } ≡ model.ordered (said_of said.now)) }
{
    Ok(Image {
        turns: said.turns.unwrap_or(0),
        levels: LevelTable::new(),
        lines: said.lines,
        schedule: schedule_in(alloc, &said.schedule)?,
        subjects: subjects_in(alloc, said)?,
        objects: objects_in(alloc, said)?,
        holds: holds_in(alloc, said)?,
    })
}
