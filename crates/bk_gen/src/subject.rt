// Levels, lines, subjects, and what each subject holds at the start.

ghost use Rattle.std.specs.Prelude.{◌≡◌, ◌<◌, ◌≤◌, ◌++◌, ◌∷◌, [], false, map, flat_map, length, IfOk, OnOk};
ghost use Rattle.bk_level.specs.Levels.{has_level, most_levels};
ghost use Rattle.bk_gen.specs.Subjects as model;

use bk_level::{Level, LevelTable};
use bk_object::Modes;
use bk_path::Path;
use bk_space::Mode;
use bk_state::{Hold, SubjectRec, WindowRec, Windows};
use std::alloc::{AllocError, Global};

/// How many levels and lines there are: each level has a line of it.
pub(crate) const LEVELS: u8 = 4;

/// How many subjects there are.
pub(crate) const SUBJECTS: u8 = 8;

/// The window of page 0 of user I space.
const FIRST_WINDOW: u8 = 16;

/// The path with one more entry.
pub(crate) fn child(path: Path, entry: u8) -> Path
    requires room { length path < 7 }
    requires entry { entry < 16 }
    ensures { result ≡ entry ∷ path }
{
    path.child(entry).unwrap()
}

/// The path of the program that all subjects run.
pub(crate) fn program_path() -> Path
    ensures { result ≡ model.program_path }
{
    child(Path::root(), 0)
}

/// The path of a line.
pub(crate) fn line_path(line: u8) -> Path
    requires { line < model.levels_made }
    ensures { result ≡ model.line_path line }
{
    child(Path::root(), 1 + line)
}

// One more level, which doesn't stand in the table yet.
fn add_level(levels: &mut LevelTable, level: Level)
    requires few { length levels.old < most_levels }
    requires new { has_level levels.old level ≡ false }
    ensures { levels.new ≡ levels.old ++ level ∷ [] }
{
    levels.push(level).unwrap();
}

/// Levels whose classes are their numbers.
pub(crate) fn levels() -> LevelTable
    ensures { result ≡ model.generated_levels }
{
    let mut levels = LevelTable::new();
    for class in 0..LEVELS {
        add_level(
            &mut levels,
            Level {
                class,
                cats: [0; 3],
            },
        );
    }
    levels
}

// A subject that begins with the path of its line in R5.
fn subject(alloc: Global, number: u8) -> Result<SubjectRec, AllocError>
    ensures subject { IfOk result (λ subject. subject ≡ model.subject_of number) }
{
    let line = number % LEVELS;
    let (path, _) = line_path(line).pack();
    let window = WindowRec {
        index: FIRST_WINDOW,
        path: program_path(),
    };
    Ok(SubjectRec {
        f_s: line,
        f_c: line,
        mode: Mode::User,
        previous: Mode::User,
        regs: [0, 0, 0, 0, 0, path],
        user_sp: 0,
        super_sp: 0,
        pc: 0,
        entries: [0; 8],
        windows: Windows::from_vec(vec![in alloc; window]?),
    })
}

/// So many subjects.
pub(crate) fn subjects(alloc: Global, count: u8) -> Result<Vec<SubjectRec>, AllocError>
    ensures { IfOk result (λ subjects. subjects.items ≡ map model.subject_of (model.numbers_below count)) }
{
    let mut subjects = Vec::new(alloc);
    for number in 0..count {
        subjects.push(subject(alloc, number)?)?;
    }
    Ok(subjects)
}

// What a subject holds: r on root, e on the program and w on its line.
#[tactic(auto, unfolding(crate::specs::Subjects::holds_of))]
fn holds_of(subject: u8) -> [Hold; 3]
    ensures { result ≡ model.holds_of subject }
{
    [
        Hold {
            subject,
            modes: Modes::R,
            path: Path::root(),
        },
        Hold {
            subject,
            modes: Modes::E,
            path: program_path(),
        },
        Hold {
            subject,
            modes: Modes::W,
            path: line_path(subject % LEVELS),
        },
    ]
}

/// What so many subjects hold.
pub(crate) fn holds(alloc: Global, count: u8) -> Result<Vec<Hold>, AllocError>
    ensures { IfOk result (λ holds. holds.items ≡ flat_map model.holds_of (model.numbers_below count)) }
{
    let mut holds = Vec::new(alloc);
    for subject in 0..count {
        holds.extend_from_slice(&holds_of(subject))?;
    }
    Ok(holds)
}
