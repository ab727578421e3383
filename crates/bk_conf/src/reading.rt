// A configuration, line by line, and what it lacks.

ghost use Rattle.std.specs.Prelude.{◌≡◌, ◌≤◌, ◌∷◌, Result, IfOk};
ghost use Rattle.bk_base.specs.Faults.{Gives};
ghost use Rattle.bk_base.specs.declared.stop.Stop.TheVariants.{Bad, NoMemory};
ghost use Rattle.bk_conf.specs.Fault.{fault_at};
ghost use Rattle.bk_conf.specs.Lines.{program_lines};
ghost use Rattle.bk_conf.specs.Said.{Said as Told};
ghost use Rattle.bk_conf.specs.Steps as model;
ghost use Rattle.bk_conf.specs.Steps.{configuration_of, with_all};
ghost use Rattle.bk_conf.specs.Views.{lines_left, said_of, size_left, with_following, Reached};
ghost use Rattle.bk_conf.specs.declared.fault.BuildKind.{BuildKind as Kind};

use crate::fault::{BuildFault, BuildKind, BuildStop, KindStop};
use crate::kind::line_of;
use crate::line::Line;
use crate::program::body_of;
use crate::said::Said;
use crate::text::{Left, fields_of, first_line};
use bk_base::Bytes;
use std::alloc::Global;

/// How many bytes a configuration has at most.
const MOST_BYTES: usize = 1_048_576;

fn bad(line: u32, kind: BuildKind) -> BuildStop
    ensures { result ≡ Bad (fault_at line kind) }
{
    BuildStop::Bad(BuildFault { line, kind })
}

// The stop of a line.
fn at_line(at: u32, stop: KindStop) -> BuildStop
    ensures bad { (kind : Kind) → stop ≡ Bad kind → result ≡ Bad (fault_at at kind) }
    ensures none { stop ≡ NoMemory → result ≡ NoMemory }
{
    match stop {
        KindStop::Bad(kind) => bad(at, kind),
        KindStop::NoMemory => BuildStop::NoMemory,
    }
}

// The next line, or the fault of this one.
fn next<'a>(
    at: u32,
    after: Left<'a>,
    told: Result<(), KindStop>,
) -> Result<(u32, Left<'a>), BuildStop>
    ensures reached { (new : Told) (whole : Result Told Kind) → Gives (λ _. new) told whole → Reached result new (with_following at (lines_left after.entry) (model.told at whole)) }
    ensures shorter { IfOk result (λ next. size_left next.1 ≤ size_left after.entry) }
{
    match told {
        Ok(()) => Ok((at.saturating_add(1), after)),
        Err(stop) => Err(at_line(at, stop)),
    }
}

impl Said {
    // A program, from its line on.
    #[tactic(auto, using(crate::proofs::Reached::program_endless, crate::proofs::Reached::program_lines_none, crate::proofs::Reached::program_stopped, crate::proofs::Reached::program_reached))]
    fn read_program<'a>(
        &mut self,
        alloc: Global,
        at: u32,
        name: Bytes,
        origin: Option<u16>,
        after: Left<'a>,
    ) -> Result<(u32, Left<'a>), BuildStop>
        ensures reached { Reached result (said_of self.new)
            (with_following at (lines_left after.entry) (model.with_program (said_of self.old) at name origin (program_lines (lines_left after.entry)))) }
        ensures shorter { IfOk result (λ next. size_left next.1 ≤ size_left after.entry) }
    {
        let Some(text) = after else {
            return Err(bad(at, BuildKind::Form));
        };
        let Some(body) = body_of(text) else {
            return Err(bad(at, BuildKind::Form));
        };
        match self.program(alloc, at, name, origin, body) {
            Ok(()) => Ok((at.saturating_add(body.lines).saturating_add(2), body.left)),
            Err(stop) => Err(stop),
        }
    }

    // What a line says, and the next line, with what is left behind it.
    fn with_line<'a>(
        &mut self,
        alloc: Global,
        at: u32,
        line: Line,
        after: Left<'a>,
    ) -> Result<(u32, Left<'a>), BuildStop>
        ensures reached { Reached result (said_of self.new)
            (with_following at (lines_left after.entry) (model.with_line (said_of self.old) at line (lines_left after.entry))) }
        ensures shorter { IfOk result (λ next. size_left next.1 ≤ size_left after.entry) }
    {
        match line {
            Line::Turns(turns) => next(at, after, self.turns(turns)),
            Line::Level(level) => next(at, after, self.level(level)),
            Line::Schedule(schedule) => next(at, after, self.schedule(at, schedule)),
            Line::Subject(subject) => next(at, after, self.subject(subject)),
            Line::Fault {
                subject,
                fault,
                address,
            } => next(at, after, self.entry(at, subject, fault, address)),
            Line::Window {
                subject,
                index,
                path,
            } => next(at, after, self.window(at, subject, index, path)),
            Line::Object {
                path,
                facts,
                program,
            } => next(at, after, self.object(alloc, at, path, facts, program)),
            Line::Row {
                path,
                subject,
                modes,
            } => next(at, after, self.row(at, path, subject, modes)),
            Line::Hold {
                subject,
                path,
                modes,
            } => next(at, after, self.hold(at, subject, path, modes)),
            Line::Program { name, origin } => self.read_program(alloc, at, name, origin, after),
        }
    }

    // The first line, and the next one, with what is left behind it.
    #[tactic(auto, using(crate::proofs::Reached::with_all_first, crate::proofs::Reached::reading_stopped))]
    fn read<'a>(
        &mut self,
        alloc: Global,
        at: u32,
        line: &[u8],
        after: Left<'a>,
    ) -> Result<(u32, Left<'a>), BuildStop>
        ensures reached { Reached result (said_of self.new) (with_all (said_of self.old) at 0 (line.now ∷ lines_left after.entry)) }
        ensures shorter { IfOk result (λ next. size_left next.1 ≤ size_left after.entry) }
    {
        let fields = fields_of(alloc, line)?;
        match line_of(alloc, &fields) {
            Err(stop) => Err(at_line(at, stop)),
            Ok(None) => Ok((at.saturating_add(1), after)),
            Ok(Some(line)) => self.with_line(alloc, at, line, after),
        }
    }
}

// What all lines say.
#[tactic(auto, using(crate::proofs::Reached::said_long, crate::proofs::Reached::said_short, crate::proofs::Reached::with_all_none))]
fn read_lines(alloc: Global, text: &[u8]) -> Result<Said, BuildStop>
    ensures { Gives said_of result (model.all_said text.now) }
{
    if text.len() > MOST_BYTES {
        return Err(bad(0, BuildKind::Long));
    }
    let mut said = Said::new(alloc);
    let mut at = 1;
    let mut left = Some(text);
    while let Some(text) = left {
        let (line, after) = first_line(text);
        match said.read(alloc, at, line, after) {
            Ok(next) => {
                at = next.0;
                left = next.1;
            }
            Err(stop) => return Err(stop),
        }
    }
    Ok(said)
}

// All that is named is there.
fn check_mentions(said: &Said) -> Result<(), BuildStop>
    ensures { Gives (λ _. tt) result (model.all_there (said_of said.now) (said_of said.now).mentions) }
{
    for named in &said.mentions {
        if !said.has(&named.what) {
            return Err(bad(named.line, BuildKind::Unknown));
        }
    }
    Ok(())
}

fn is_missing(said: &Said) -> bool
    ensures { result ≡ model.is_missing (said_of said.now) }
{
    said.turns.is_none()
        || said.schedule.is_none()
        || said.levels.is_empty()
        || said.subjects.is_empty()
        || said.objects.is_empty()
}

// All that is named is there, and nothing is missing.
#[tactic(auto, using(crate::proofs::Reached::complete_unknown, crate::proofs::Reached::complete_missing, crate::proofs::Reached::complete_whole))]
fn check(said: &Said) -> Result<(), BuildStop>
    ensures { Gives (λ _. tt) result (model.is_complete (said_of said.now)) }
{
    match check_mentions(said) {
        Ok(()) => {
            if is_missing(said) {
                Err(bad(0, BuildKind::Missing))
            } else {
                Ok(())
            }
        }
        Err(stop) => Err(stop),
    }
}

/// What a configuration says, or its first fault but for that of the image.
#[tactic(auto, using(crate::proofs::Reached::configuration_stopped, crate::proofs::Reached::configuration_incomplete, crate::proofs::Reached::configuration_whole))]
pub fn read_configuration(alloc: Global, text: &[u8]) -> Result<Said, BuildStop>
    ensures { Gives said_of result (configuration_of text.now) }
{
    match read_lines(alloc, text) {
        Ok(said) => match check(&said) {
            Ok(()) => Ok(said),
            Err(stop) => Err(stop),
        },
        Err(stop) => Err(stop),
    }
}
