// What a state has beside its store: what no event changes, and the processes.

ghost use Rattle.std.specs.Prelude.{◌≡◌, IfOk, map};
ghost use Rattle.std.specs.List.{range_with_len};
ghost use Rattle.bk_state.specs.Start.{is_line, line_level, process_from, shown_in, windows_from};
ghost use Rattle.bk_load.specs.Beginning.{clearance_from, HasBegun};

use bk_object::Kind;
use bk_path::Path;
use bk_process::{Process, Status9, WINDOWS};
use bk_space::{Ps, Regs};
use bk_state::{Clearance, Image, ObjectRec, SubjectRec, WindowRec};
use std::alloc::{AllocError, Global};

/// The levels of the subjects and of the lines, the turns of a slot, the schedule and the processes.
#[derive(Drop)]
pub(crate) struct Beginning {
    pub(crate) clearances: Vec<Clearance>,
    pub(crate) lines: Vec<u8>,
    pub(crate) turns: u16,
    pub(crate) schedule: Vec<u8>,
    pub(crate) processes: Vec<Process>,
}

// The path that the window of that number shows.
fn shown_in(windows: &[WindowRec], number: usize) -> Option<Path>
    ensures { result ≡ shown_in windows.now number }
{
    windows
        .iter()
        .find(|window| usize::from(window.index) == number)
        .map(|window| window.path)
}

// The paths that the windows show, by their numbers.
fn windows_from(shown: &[WindowRec]) -> [Option<Path>; WINDOWS as usize]
    ensures { result ≡ windows_from shown.now }
{
    let mut windows = [None; WINDOWS as usize];
    for number in 0..WINDOWS as usize {
        windows[number] = shown_in(shown, number);
    }
    windows
}

fn process_from(subject: &SubjectRec) -> Process
    ensures { result ≡ process_from subject.now }
{
    Process {
        registers: Regs {
            general: subject.regs,
            supervisor: subject.super_sp,
            user: subject.user_sp,
            pc: subject.pc,
            ps: Ps::process(subject.mode, subject.previous),
        },
        windows: windows_from(subject.windows.as_slice()),
        entries: subject.entries,
        status: Status9::Running,
    }
}

fn clearance_from(subject: &SubjectRec) -> Clearance
    ensures { result ≡ clearance_from subject.now }
{
    Clearance {
        greatest: subject.f_s,
        current: subject.f_c,
    }
}

fn is_line(object: &ObjectRec, number: u8) -> bool
    ensures { result ≡ is_line number object.now.facts.kind }
{
    match object.facts.kind {
        Kind::Line(line) => line == number,
        Kind::Directory | Kind::Segment | Kind::Mailbox => false,
    }
}

// The number of the level of a line, which is that of its object.
fn line_level(objects: &[ObjectRec], number: u8) -> u8
    ensures { result ≡ line_level objects.now number }
{
    match objects.iter().find(|object| is_line(object, number)) {
        Some(object) => object.facts.level,
        None => 0,
    }
}

fn line_levels(alloc: Global, objects: &[ObjectRec], lines: u8) -> Result<Vec<u8>, AllocError>
    ensures { IfOk result (λ levels. levels.items ≡ map (line_level objects.now) (range_with_len 0 lines)) }
{
    (0..lines)
        .map(|number| line_level(objects, number))
        .collect(alloc)
}

fn processes_from(alloc: Global, subjects: &[SubjectRec]) -> Result<Vec<Process>, AllocError>
    ensures { IfOk result (λ processes. processes.items ≡ map process_from subjects.now) }
{
    subjects.iter().map(process_from).collect(alloc)
}

fn clearances_from(alloc: Global, subjects: &[SubjectRec]) -> Result<Vec<Clearance>, AllocError>
    ensures { IfOk result (λ clearances. clearances.items ≡ map clearance_from subjects.now) }
{
    subjects.iter().map(clearance_from).collect(alloc)
}

impl Beginning {
    /// What an image's state has beside objects and accesses.
    #[tactic(auto, unfolding(bk_state::specs::Start::state_of))]
    pub(crate) fn from_image(alloc: Global, image: &Image) -> Result<Beginning, AllocError>
        ensures { IfOk result (λ beginning. HasBegun image.now beginning) }
    {
        let subjects = image.subjects.as_slice();
        let clearances = clearances_from(alloc, subjects)?;
        let lines = line_levels(alloc, image.objects.as_slice(), image.lines)?;
        let schedule = Vec::from_slice(alloc, image.schedule.as_slice())?;
        let processes = processes_from(alloc, subjects)?;
        Ok(Beginning {
            clearances,
            lines,
            turns: image.turns,
            schedule,
            processes,
        })
    }
}
