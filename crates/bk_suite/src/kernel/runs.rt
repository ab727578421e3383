// Runs of systems that are told by tables.

ghost use Rattle.std.specs.Prelude.{◌≡◌, ◌<◌, IfOk};
ghost use Rattle.bk_suite.specs.Subjects.{HasSubjects};

use bk_base::{Bytes, Failed, MemSink};
use bk_fixture::System;
use bk_image::{read_image, write_image};
use bk_kernel::{Kernel, Summary};
use bk_process::Status9;
use bk_report::ReportItem;
use bk_space::Regs;
use bk_system::TypedAt;
use std::alloc::Global;
use std::process::Abort as Ends;
use std::test::Fail;

/// What is typed before a slot: lines, each with its bytes.
pub(crate) type Typed<'a> = &'a [(u8, &'a [u8])];

/// A kernel, and how many subjects its system has.
#[derive(Drop)]
pub(crate) struct Run {
    pub(crate) kernel: Kernel,
    pub(crate) subjects: usize,
}

impl Run {
    /// After the slot that comes next.
    #[tactic(auto, using(crate::proofs::Subjects::slot_kept, crate::proofs::Subjects::slot_fresh))]
    fn slot(self, typed: &[TypedAt], out: &mut MemSink) -> Result<Run, Failed>
        requires subjects { HasSubjects self.kernel.progress.state self.subjects }
        requires fresh { self.kernel.progress.since ≡ 0 }
        ensures subjects { IfOk result (λ run. HasSubjects run.kernel.progress.state run.subjects) }
        ensures fresh { IfOk result (λ run. run.kernel.progress.since ≡ 0) }
    {
        let Run {
            mut kernel,
            subjects,
        } = self;
        kernel.slot(typed, out)?;
        Ok(Run { kernel, subjects })
    }

    /// The next turn, which is subject 0's.
    #[tactic(auto, using(crate::proofs::Subjects::turn_kept))]
    pub(crate) fn turn(&mut self) -> (Option<ReportItem>, Option<ReportItem>)
        requires { HasSubjects self.old.kernel.progress.state self.old.subjects }
        ensures { HasSubjects self.new.kernel.progress.state self.new.subjects }
    {
        self.kernel.turn(0)
    }

    /// The slot ends.
    #[tactic(auto, using(crate::proofs::Subjects::end_kept))]
    pub(crate) fn end_slot(&mut self)
        requires { HasSubjects self.old.kernel.progress.state self.old.subjects }
        ensures { HasSubjects self.new.kernel.progress.state self.new.subjects }
    {
        self.kernel.end_slot();
    }

    /// Whether the subject's process runs.
    #[tactic(auto, using(crate::proofs::Subjects::has_process))]
    pub(crate) fn status(&self, rt: &impl Ends, subject: u8) -> Status9
        requires { HasSubjects self.now.kernel.progress.state self.now.subjects }
    {
        assert!(rt; usize::from(subject) < self.subjects);
        self.kernel.status(subject)
    }

    /// The registers of subject 0, the only one.
    pub(crate) fn registers(&self) -> Regs {
        self.kernel.machine().process_regs()
    }
}

/// The system at its start, by the bytes of its image.
#[tactic(auto, using(crate::proofs::Subjects::begun_kept, crate::proofs::Subjects::begun_fresh))]
pub(crate) fn booted(rt: &impl Ends, alloc: Global, system: &System) -> Result<Run, Fail>
    ensures subjects { IfOk result (λ run. HasSubjects run.kernel.progress.state run.subjects) }
    ensures fresh { IfOk result (λ run. run.kernel.progress.since ≡ 0) }
{
    let image = system.image(alloc).ok_or("no image")?;
    let bytes = write_image(alloc, &image)?;
    let (image, length) = read_image(alloc, &bytes)?;
    assert_eq!(rt; length, bytes.len());
    let subjects = image.subjects.as_slice().len();
    match Kernel::boot(alloc, &image) {
        Ok(kernel) => Ok(Run { kernel, subjects }),
        Err(_) => Err("memory".into()),
    }
}

// The records of what is typed before a slot.
fn records_of(alloc: Global, slot: u32, typed: Typed) -> Result<Vec<TypedAt>, Fail> {
    let mut records = Vec::new(alloc);
    for (line, bytes) in typed {
        records.push(TypedAt {
            slot,
            line: *line,
            bytes: Bytes::from_vec(bytes.to_vec(alloc)?),
        })?;
    }
    Ok(records)
}

/// The run after a slot for each that something, or nothing, is typed before, and the text of these slots.
fn run_of(
    rt: &impl Ends,
    alloc: Global,
    system: &System,
    typed: &[Typed],
) -> Result<(Run, MemSink), Fail>
    ensures { IfOk result (λ made. HasSubjects made.0.kernel.progress.state made.0.subjects) }
{
    let mut run = booted(rt, alloc, system)?;
    let mut out = MemSink::new(alloc, 65_536, 100, Vec::new(alloc))
        .ok()
        .ok_or("memory")?;
    for records in typed {
        let records = records_of(alloc, run.kernel.summary().slots, records)?;
        run = match run.slot(records.as_slice(), &mut out) {
            Ok(run) => run,
            Err(_) => return Err("no room".into()),
        };
    }
    Ok((run, out))
}

/// What a run is to give: its text, and its turns, references and calls.
pub(crate) type Wanted<'a> = (&'a [u8], u32, u64, u32);

/// Runs a slot for each that something, or nothing, is typed before, and compares.
pub(crate) fn check(
    rt: &impl Ends,
    alloc: Global,
    system: &System,
    typed: &[Typed],
    wanted: Wanted,
) -> Result<Run, Fail>
    ensures { IfOk result (λ run. HasSubjects run.kernel.progress.state run.subjects) }
{
    let (made, out) = run_of(rt, alloc, system, typed)?;
    assert_eq!(rt; out.taken(), wanted.0);
    let Summary {
        slots,
        turns,
        references,
        calls,
    } = made.kernel.summary();
    assert_eq!(rt; slots as usize, typed.len());
    assert_eq!(rt; (turns, references, calls), (wanted.1, wanted.2, wanted.3));
    Ok(made)
}
