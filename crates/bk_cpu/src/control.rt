ghost use Rattle.std.specs.Prelude.{◌≡◌, ◌<◌, OnErr};
ghost use Rattle.bk_space.specs.Counts.{counted_on};
ghost use Rattle.bk_space.specs.Undo.{undone, IsFresh};
ghost use Rattle.bk_isa.specs.Codes.{IsField};
ghost use Rattle.bk_exec.specs.declared.ending.Ending.TheVariants.{Returned};
ghost use Rattle.bk_exec.specs.Control.{is_taken, target, branched, jumping, call_to, calling, returning, marking, resuming, codes_of};
ghost use Rattle.bk_cpu.specs.Reached.{Reaches, left_by};

use crate::stack::{pop, push};
use bk_exec::Ending;
use bk_isa::Cond;
use bk_operand::{Place, locate};
use bk_space::{Bus, Cause, Field, Flags, Regs, Space, Undo, Width};

#[inline(always)]
fn is_branch_taken(cond: Cond, f: Flags) -> bool
    ensures { result ≡ is_taken cond f }
{
    match cond {
        Cond::Br => true,
        Cond::Bne => !f.z,
        Cond::Beq => f.z,
        Cond::Bge => f.n == f.v,
        Cond::Blt => f.n != f.v,
        Cond::Bgt => !f.z && f.n == f.v,
        Cond::Ble => f.z || f.n != f.v,
        Cond::Bpl => !f.n,
        Cond::Bmi => f.n,
        Cond::Bhi => !f.c && !f.z,
        Cond::Blos => f.c || f.z,
        Cond::Bvc => !f.v,
        Cond::Bvs => f.v,
        Cond::Bcc | Cond::Bhis => !f.c,
        Cond::Bcs | Cond::Blo => f.c,
    }
}

// Where a branch leads: the offset is a signed number of words.
#[inline(always)]
fn target_of(pc: u16, offset: u8) -> u16
    ensures { result ≡ target pc offset }
{
    let twice = 2 * u16::from(offset);
    if offset < 0o200 {
        pc.wrapping_add(twice)
    } else {
        pc.wrapping_add(twice).wrapping_sub(0o1000)
    }
}

/// A branch.
#[inline(always)]
#[tactic(auto, unfolding(bk_exec::specs::Control::branched))]
pub(crate) fn branch(regs: &mut Regs, cond: Cond, offset: u8)
    ensures { regs.new ≡ branched cond offset regs.old }
{
    if is_branch_taken(cond, regs.ps.flags) {
        regs.pc = target_of(regs.pc, offset);
    }
}

/// JMP.
#[tactic(auto, using(crate::proofs::CountSets::no_part), unfolding(bk_exec::specs::Control::jumping))]
pub(crate) fn jump<B: Bus>(
    regs: &mut Regs,
    undo: &mut Undo,
    bus: &mut B,
    dst: Field,
) -> Result<Ending, Cause>
    requires dst { IsField dst }
    requires fresh { IsFresh undo.old }
    ensures reaches { Reaches result regs.new (jumping (B.shown (B.state bus.old)) dst regs.old) }
    ensures count { B.references bus.new ≡ counted_on (B.references bus.old) (jumping (B.shown (B.state bus.old)) dst regs.old).made }
    ensures state { B.state bus.new ≡ left_by B.after (B.state bus.old) (jumping (B.shown (B.state bus.old)) dst regs.old).outcome }
    ensures undone { OnErr result (undone undo.new regs.new ≡ undone undo.old regs.old) }
{
    match locate(regs, undo, bus, dst, Width::Word)? {
        Place::Reg(_) => Err(Cause::Reserved),
        Place::Mem { addr, .. } => {
            regs.pc = addr;
            Ok(Ending::Completed)
        }
    }
}

// JSR to a place: the register is pushed as it is before the push.
#[tactic(auto, using(crate::proofs::CountSets::no_part), unfolding(bk_exec::specs::Control::call_to))]
fn call_at<B: Bus>(regs: &mut Regs, bus: &mut B, r: u8, to: Place) -> Result<Ending, Cause>
    requires { r < 8 }
    ensures reaches { Reaches result regs.new (call_to (B.shown (B.state bus.old)) r to regs.old) }
    ensures count { B.references bus.new ≡ counted_on (B.references bus.old) (call_to (B.shown (B.state bus.old)) r to regs.old).made }
    ensures state { B.state bus.new ≡ left_by B.after (B.state bus.old) (call_to (B.shown (B.state bus.old)) r to regs.old).outcome }
    ensures kept { OnErr result (regs.new ≡ regs.old) }
{
    match to {
        Place::Reg(_) => Err(Cause::Reserved),
        Place::Mem { addr, .. } => {
            push(regs, bus, regs.reg(r))?;
            regs.set_reg(r, regs.pc);
            regs.pc = addr;
            Ok(Ending::Completed)
        }
    }
}

/// JSR.
#[tactic(auto, using(bk_space::proofs::CountLemmas::counted_lemmas), unfolding(bk_exec::specs::Control::calling))]
pub(crate) fn call<B: Bus>(
    regs: &mut Regs,
    undo: &mut Undo,
    bus: &mut B,
    r: u8,
    dst: Field,
) -> Result<Ending, Cause>
    requires r { r < 8 }
    requires dst { IsField dst }
    requires fresh { IsFresh undo.old }
    ensures reaches { Reaches result regs.new (calling (B.shown (B.state bus.old)) r dst regs.old) }
    ensures count { B.references bus.new ≡ counted_on (B.references bus.old) (calling (B.shown (B.state bus.old)) r dst regs.old).made }
    ensures state { B.state bus.new ≡ left_by B.after (B.state bus.old) (calling (B.shown (B.state bus.old)) r dst regs.old).outcome }
    ensures undone { OnErr result (undone undo.new regs.new ≡ undone undo.old regs.old) }
{
    let to = locate(regs, undo, bus, dst, Width::Word)?;
    call_at(regs, bus, r, to)
}

/// RTS.
#[tactic(auto, using(bk_space::proofs::CountLemmas::counted_lemmas), unfolding(bk_exec::specs::Control::returning))]
pub(crate) fn return_by<B: Bus>(
    regs: &mut Regs,
    undo: &mut Undo,
    bus: &mut B,
    r: u8,
) -> Result<Ending, Cause>
    requires r { r < 8 }
    requires fresh { IsFresh undo.old }
    ensures reaches { Reaches result regs.new (returning (B.shown (B.state bus.old)) r regs.old) }
    ensures count { B.references bus.new ≡ counted_on (B.references bus.old) (returning (B.shown (B.state bus.old)) r regs.old).made }
    ensures state { B.state bus.new ≡ left_by B.after (B.state bus.old) (returning (B.shown (B.state bus.old)) r regs.old).outcome }
    ensures undone { OnErr result (undone undo.new regs.new ≡ undone undo.old regs.old) }
{
    let to = regs.reg(r);
    let word = pop(regs, undo, bus)?;
    regs.pc = to;
    regs.set_reg(r, word);
    Ok(Ending::Completed)
}

/// MARK.
#[tactic(auto, using(crate::proofs::CountSets::no_part), unfolding(bk_exec::specs::Control::marking, bk_operand::specs::Part::reading))]
pub(crate) fn mark<B: Bus>(regs: &mut Regs, bus: &mut B, count: u8) -> Result<Ending, Cause>
    requires { count < 64 }
    ensures reaches { Reaches result regs.new (marking (B.shown (B.state bus.old)) count regs.old) }
    ensures count { B.references bus.new ≡ counted_on (B.references bus.old) (marking (B.shown (B.state bus.old)) count regs.old).made }
    ensures state { B.state bus.new ≡ left_by B.after (B.state bus.old) (marking (B.shown (B.state bus.old)) count regs.old).outcome }
    ensures kept { OnErr result (regs.new ≡ regs.old) }
{
    let sp = regs.pc.wrapping_add(2 * u16::from(count));
    let word = bus.read_word(regs.ps.mode, Space::D, sp)?;
    let to = regs.reg(5);
    regs.set_reg(6, sp.wrapping_add(2));
    regs.pc = to;
    regs.set_reg(5, word);
    Ok(Ending::Completed)
}

/// RTI and RTT.
#[tactic(auto, using(bk_space::proofs::CountLemmas::counted_lemmas), unfolding(bk_exec::specs::Control::resuming, bk_operand::specs::Part::reading))]
pub(crate) fn resume<B: Bus>(regs: &mut Regs, bus: &mut B, ending: Ending) -> Result<Ending, Cause>
    ensures reaches { Reaches result regs.new (resuming (B.shown (B.state bus.old)) ending regs.old) }
    ensures count { B.references bus.new ≡ counted_on (B.references bus.old) (resuming (B.shown (B.state bus.old)) ending regs.old).made }
    ensures state { B.state bus.new ≡ left_by B.after (B.state bus.old) (resuming (B.shown (B.state bus.old)) ending regs.old).outcome }
    ensures kept { OnErr result (regs.new ≡ regs.old) }
{
    let sp = regs.reg(6);
    let pc = bus.read_word(regs.ps.mode, Space::D, sp)?;
    let word = bus.read_word(regs.ps.mode, Space::D, sp.wrapping_add(2))?;
    let ps = regs.ps.popped(word);
    regs.set_reg(6, sp.wrapping_add(4));
    regs.pc = pc;
    regs.ps = ps;
    Ok(ending)
}

/// RTT: what comes after it is not traced.
pub(crate) fn resume_untraced<B: Bus>(regs: &mut Regs, bus: &mut B) -> Result<Ending, Cause>
    ensures reaches { Reaches result regs.new (resuming (B.shown (B.state bus.old)) Returned regs.old) }
    ensures count { B.references bus.new ≡ counted_on (B.references bus.old) (resuming (B.shown (B.state bus.old)) Returned regs.old).made }
    ensures state { B.state bus.new ≡ left_by B.after (B.state bus.old) (resuming (B.shown (B.state bus.old)) Returned regs.old).outcome }
    ensures kept { OnErr result (regs.new ≡ regs.old) }
{
    resume(regs, bus, Ending::Returned)
}

/// The condition codes of a mask, set or cleared.
pub(crate) fn codes(set: bool, mask: u8, f: Flags) -> Flags
    requires { mask < 16 }
    ensures { result ≡ codes_of set mask f }
{
    Flags {
        n: if mask >> 3 & 1 == 1 { set } else { f.n },
        z: if mask >> 2 & 1 == 1 { set } else { f.z },
        v: if mask >> 1 & 1 == 1 { set } else { f.v },
        c: if mask & 1 == 1 { set } else { f.c },
    }
}
