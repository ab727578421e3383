// All the slots of a run, and its END line.

ghost use Rattle.std.specs.Prelude.{◌≡◌, ◌≤◌, ◌++◌, [], length, take, drop, Ok, Err, IfOk, OnOk, OnErr};
ghost use Rattle.bk_base.specs.Written.{Took, Broke};
ghost use Rattle.bk_script.specs.Script.{IsInOrder, IsScript};
ghost use Rattle.bk_image.specs.Accepted.{IsAccepted};
ghost use Rattle.bk_state.specs.Start.{state_of};
ghost use Rattle.bk_system.specs.Report.{report_of};
ghost use Rattle.bk_kernel.specs.Progress.{begun};
ghost use Rattle.bk_report.specs.Text.{lines_of};
ghost use Rattle.bk_system.specs.Loops.{slots_of};
ghost use Rattle.bk_replay.specs.Played.{count_front, after_slots, summary_of, end_text};

use crate::gathered::{Gathered, Start};
use bk_base::{Failed, NoMemory, Sink, write_all};
use bk_kernel::{Kernel, Summary};
use bk_report::{ReportItem, print};
use bk_state::Image;
use bk_system::{Script, TypedAt};
use std::alloc::Global;
use std::marker::Brand;

/// Why a run isn't played to its end.
#[derive(Clone, Copy, PartialEq, Eq, Debug)]
pub enum PlayStop {
    /// The sink failed.
    Write,
    /// The runtime had no more memory.
    NoMemory,
}

impl From<NoMemory> for PlayStop {
    ghost use Rattle.bk_replay.specs.declared.playing.PlayStop.TheVariants as stop;

    ghost from_gives = { λ _ e. e ≡ stop.NoMemory };

    fn from(_: NoMemory) -> PlayStop {
        PlayStop::NoMemory
    }
}

impl From<Failed> for PlayStop {
    ghost use Rattle.bk_replay.specs.declared.playing.PlayStop.TheVariants as stop;

    ghost from_gives = { λ _ e. e ≡ stop.Write };

    fn from(_: Failed) -> PlayStop {
        PlayStop::Write
    }
}

/// How many records in front are of the slot.
fn count_front(records: &[TypedAt], slot: u32) -> usize
    ensures count { result ≡ count_front slot records.now }
    ensures within { result ≤ length records.now }
{
    for (i, typed) in records.iter().enumerate() {
        if typed.slot != slot {
            return i;
        }
    }
    records.len()
}

/// The records in front that are of the slot, and all others.
fn split_slot(records: &[TypedAt], slot: u32) -> (&[TypedAt], &[TypedAt])
    ensures front { result.0.now ≡ take (count_front slot records.now) records.now }
    ensures others { result.1.now ≡ drop (count_front slot records.now) records.now }
{
    records.split_at(count_front(records, slot))
}

/// All the slots, one after another. The kernel has ended none.
fn play_slots<O: Sink>(kernel: &mut Kernel, script: &Script, out: &mut O) -> Result<(), Failed>
    requires begun { kernel.old.progress ≡ begun kernel.old.progress.state }
    requires order { IsInOrder script.now.typed }
    ensures after { OnOk result (kernel.new.progress ≡ after_slots kernel.old.progress.state script.now.typed script.now.slots) }
    ensures written { OnOk result (Took (O.taken out.old) (O.taken out.new) (O.faults out.old) (O.faults out.new) (lines_of (slots_of kernel.old.progress.state script.now.typed script.now.slots).items)) }
    ensures failed { OnErr result (Broke (O.taken out.old) (O.taken out.new) (O.faults out.old) (O.faults out.new) (lines_of (slots_of kernel.old.progress.state script.now.typed script.now.slots).items)) }
{
    let mut rest = script.typed.as_slice();
    for slot in 0..script.slots {
        let (records, after) = split_slot(rest, slot);
        rest = after;
        kernel.slot(records, out)?;
    }
    Ok(())
}

/// Plays a script on a kernel that has begun: all its slots, and the END line with the totals, which it answers.
fn play_kernel<O: Sink>(
    kernel: &mut Kernel,
    image: &Image,
    script: &Script,
    out: &mut O,
) -> Result<Summary, Failed>
    requires begun { kernel.old.progress ≡ begun (state_of image.now) }
    requires script { IsScript image.now.lines image.now.turns script.now.typed script.now.slots }
    ensures totals { IfOk result (λ summary. summary ≡ summary_of image.now script.now.typed script.now.slots) }
    ensures written { OnOk result (Took (O.taken out.old) (O.taken out.new) (O.faults out.old) (O.faults out.new) (report_of image.now script.now.typed script.now.slots)) }
    ensures failed { OnErr result (Broke (O.taken out.old) (O.taken out.new) (O.faults out.old) (O.faults out.new) (report_of image.now script.now.typed script.now.slots)) }
{
    play_slots(kernel, script, out)?;
    let summary = kernel.summary();
    write_end(&summary, out)?;
    Ok(summary)
}

/// Plays it so that what waits at the end goes out too.
fn play_gathered<O: Sink, L: Start>(
    kernel: &mut Kernel,
    image: &Image,
    script: &Script,
    out: &mut Gathered<'_, O, L>,
) -> Result<Summary, Failed>
    requires begun { kernel.old.progress ≡ begun (state_of image.now) }
    requires script { IsScript image.now.lines image.now.turns script.now.typed script.now.slots }
    requires fresh { out.old.history.given ++ out.old.waiting.put ≡ [] }
    ensures same_reference { out.new.out.ghost_name ≡ out.old.out.ghost_name }
    ensures totals { IfOk result (λ summary. summary ≡ summary_of image.now script.now.typed script.now.slots) }
    ensures written { OnOk result (Took L.told (O.taken out.new.out.now) (O.faults out.old.out.now) (O.faults out.new.out.now) (report_of image.now script.now.typed script.now.slots)) }
    ensures failed { OnErr result (Broke L.told (O.taken out.new.out.now) (O.faults out.old.out.now) (O.faults out.new.out.now) (report_of image.now script.now.typed script.now.slots)) }
{
    let summary = play_kernel(kernel, image, script, out)?;
    out.empty()?;
    Ok(summary)
}

/// Plays it so that the sink takes the report in pieces of 4,096 bytes.
fn play_in_pieces<O: Sink, L: Start>(
    kernel: &mut Kernel,
    image: &Image,
    script: &Script,
    out: &mut O,
) -> Result<Summary, Failed>
    requires begun { kernel.old.progress ≡ begun (state_of image.now) }
    requires script { IsScript image.now.lines image.now.turns script.now.typed script.now.slots }
    requires start { L.told ≡ O.taken out.now }
    ensures totals { IfOk result (λ summary. summary ≡ summary_of image.now script.now.typed script.now.slots) }
    ensures written { OnOk result (Took (O.taken out.old) (O.taken out.new) (O.faults out.old) (O.faults out.new) (report_of image.now script.now.typed script.now.slots)) }
    ensures failed { OnErr result (Broke (O.taken out.old) (O.taken out.new) (O.faults out.old) (O.faults out.new) (report_of image.now script.now.typed script.now.slots)) }
{
    let mut gathered: Gathered<'_, O, L> = Gathered::new(out);
    play_gathered(kernel, image, script, &mut gathered)
}

/// Plays a script over an image: all its slots, and the END line with the totals, which it answers. The report goes out in
/// pieces of 4,096 bytes. A refused write leaves a front of it on the sink; where memory runs out nothing has gone out.
pub fn play<O: Sink>(
    alloc: Global,
    image: &Image,
    script: &Script,
    out: &mut O,
) -> Result<Summary, PlayStop>
    requires image { IsAccepted image.now }
    requires script { IsScript image.now.lines image.now.turns script.now.typed script.now.slots }
    ensures totals { IfOk result (λ summary. summary ≡ summary_of image.now script.now.typed script.now.slots) }
    ensures written { OnOk result (Took (O.taken out.old) (O.taken out.new) (O.faults out.old) (O.faults out.new) (report_of image.now script.now.typed script.now.slots)) }
    ensures failed { result ≡ Err PlayStop.Write → Broke (O.taken out.old) (O.taken out.new) (O.faults out.old) (O.faults out.new) (report_of image.now script.now.typed script.now.slots) }
    ensures memory { result ≡ Err PlayStop.NoMemory → out.new ≡ out.old }
{
    let mut kernel = Kernel::boot(alloc, image)?;
    let summary = play_in_pieces::<O, Brand>(&mut kernel, image, script, out)?;
    Ok(summary)
}

/// Writes the END line of these totals.
pub fn write_end<O: Sink>(summary: &Summary, out: &mut O) -> Result<(), Failed>
    ensures written { OnOk result (Took (O.taken out.old) (O.taken out.new) (O.faults out.old) (O.faults out.new) (end_text summary.now)) }
    ensures failed { OnErr result (Broke (O.taken out.old) (O.taken out.new) (O.faults out.old) (O.faults out.new) (end_text summary.now)) }
{
    let end = ReportItem::End {
        slots: summary.slots,
        turns: summary.turns,
        references: summary.references,
        calls: summary.calls,
    };
    write_all(out, print(&end).as_slice())
}
