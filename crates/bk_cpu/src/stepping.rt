ghost use Rattle.std.specs.Prelude.{◌≡◌, OnErr, IfSome};
ghost use Rattle.bk_space.specs.AddrSpace.{applied};
ghost use Rattle.bk_space.specs.Counts.{counted_on};
ghost use Rattle.bk_space.specs.Undo.{undone, IsFresh};
ghost use Rattle.bk_isa.specs.Codes.{IsListed};
ghost use Rattle.bk_exec.specs.Exec.{executed, running, exec};
ghost use Rattle.bk_cpu.specs.Reached.{Reaches, left_by, result_of};

use crate::control::{branch, call, codes, jump, mark, resume, resume_untraced, return_by};
use crate::doubles::double;
use crate::extending::{extended, subtract_one_and_branch};
use crate::outcome::Outcome;
use crate::previous::{move_from, move_to};
use crate::singles::{exclusive_or, single};
use crate::words::execute_word;
use bk_exec::{Ending, Event};
use bk_isa::Instr;
use bk_operand::next_word;
use bk_space::{Bus, Cause, Regs, Undo};

/// An instruction that has been fetched.
#[tactic(auto, using(crate::proofs::CountSets::no_part), unfolding(bk_exec::specs::Exec::executed))]
pub(crate) fn execute<B: Bus>(
    regs: &mut Regs,
    undo: &mut Undo,
    bus: &mut B,
    instr: Instr,
) -> Result<Ending, Cause>
    requires listed { IsListed instr }
    requires fresh { IsFresh undo.old }
    ensures reaches { Reaches result regs.new (executed (B.shown (B.state bus.old)) (Some instr) regs.old) }
    ensures count { B.references bus.new ≡ counted_on (B.references bus.old) (executed (B.shown (B.state bus.old)) (Some instr) regs.old).made }
    ensures state { B.state bus.new ≡ left_by B.after (B.state bus.old) (executed (B.shown (B.state bus.old)) (Some instr) regs.old).outcome }
    ensures undone { OnErr result (undone undo.new regs.new ≡ undone undo.old regs.old) }
{
    match instr {
        Instr::Double {
            op,
            width,
            src,
            dst,
        } => double(regs, undo, bus, op, width, src, dst),
        Instr::Single { op, width, dst } => single(regs, undo, bus, op, width, dst),
        Instr::Xor { reg, dst } => exclusive_or(regs, undo, bus, reg, dst),
        Instr::Eis { op, reg, src } => extended(regs, undo, bus, op, reg, src),
        Instr::Jmp { dst } => jump(regs, undo, bus, dst),
        Instr::Jsr { reg, dst } => call(regs, undo, bus, reg, dst),
        Instr::Rts { reg } => return_by(regs, undo, bus, reg),
        Instr::Sob { reg, back } => {
            subtract_one_and_branch(regs, reg, back);
            Ok(Ending::Completed)
        }
        Instr::Mark { count } => mark(regs, bus, count),
        Instr::Mfp { space, src } => move_from(regs, undo, bus, space, src),
        Instr::Mtp { space, dst } => move_to(regs, undo, bus, space, dst),
        Instr::Branch { cond, offset } => {
            branch(regs, cond, offset);
            Ok(Ending::Completed)
        }
        Instr::Codes { set, mask } => {
            regs.ps.flags = codes(set, mask, regs.ps.flags);
            Ok(Ending::Completed)
        }
        Instr::Spl { .. } | Instr::Wait | Instr::Reset => Ok(Ending::Completed),
        Instr::Emt { n } => Ok(Ending::Called(n)),
        Instr::Trap { .. } => Ok(Ending::Trapped),
        Instr::Halt => Err(Cause::Reserved),
        Instr::Rti => resume(regs, bus, Ending::Completed),
        Instr::Rtt => resume_untraced(regs, bus),
        Instr::Bpt => Ok(Ending::Broke),
        Instr::Iot => Ok(Ending::Interrupted),
    }
}

// Fetches the instruction word, and executes it.
#[inline(always)]
#[tactic(auto, using(bk_space::proofs::CountLemmas::counted_lemmas), unfolding(bk_exec::specs::Exec::running, bk_exec::specs::Exec::executed))]
fn run<B: Bus>(regs: &mut Regs, undo: &mut Undo, bus: &mut B) -> Outcome
    requires fresh { IsFresh undo.old }
    ensures reaches { Reaches (result_of result) regs.new (running (B.shown (B.state bus.old)) regs.old) }
    ensures count { B.references bus.new ≡ counted_on (B.references bus.old) (running (B.shown (B.state bus.old)) regs.old).made }
    ensures state { B.state bus.new ≡ left_by B.after (B.state bus.old) (running (B.shown (B.state bus.old)) regs.old).outcome }
    ensures undone { OnErr (result_of result) (undone undo.new regs.new ≡ undone undo.old regs.old) }
{
    match next_word(regs, bus) {
        Ok(word) => execute_word(regs, undo, bus, word),
        Err(abort) => Outcome::CutOff(Cause::from(abort)),
    }
}

/// One instruction. At a fault 0 to 4 the registers are restored by the notes of `Undo`, and nothing
/// is written.
#[inline(always)]
#[tactic(auto, using(bk_space::proofs::UndoneLemmas::undone_lemmas), unfolding(bk_exec::specs::Exec::exec))]
pub fn step<B: Bus>(regs: &mut Regs, bus: &mut B) -> Event
    ensures regs { regs.new ≡ (exec (B.shown (B.state bus.old)) regs.old).regs }
    ensures event { result ≡ (exec (B.shown (B.state bus.old)) regs.old).outcome }
    ensures references { B.references bus.new ≡ counted_on (B.references bus.old) (exec (B.shown (B.state bus.old)) regs.old).references }
    ensures written { B.state bus.new ≡ applied B.after (B.state bus.old) (exec (B.shown (B.state bus.old)) regs.old).write }
{
    let mut undo = Undo::new(regs);
    match run(regs, &mut undo, bus) {
        Outcome::Completed => {
            if regs.ps.trace {
                Event::Fault(Cause::Break)
            } else {
                Event::Ran
            }
        }
        Outcome::Returned => Event::Ran,
        Outcome::Called(n) => Event::Call(n),
        Outcome::Broke => Event::Fault(Cause::Break),
        Outcome::Interrupted => Event::Fault(Cause::Iot),
        Outcome::Trapped => Event::Fault(Cause::Trap),
        Outcome::CutOff(cause) => {
            undo.restore(regs);
            Event::Fault(cause)
        }
    }
}
