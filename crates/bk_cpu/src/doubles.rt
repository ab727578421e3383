ghost use Rattle.std.specs.Prelude.{◌≡◌, OnErr};
ghost use Rattle.bk_space.specs.Counts.{counted_on};
ghost use Rattle.bk_space.specs.Undo.{undone, IsFresh};
ghost use Rattle.bk_isa.specs.Codes.{IsField};
ghost use Rattle.bk_exec.specs.Operands.{comparing, combining, double_of};
ghost use Rattle.bk_cpu.specs.Reached.{Reaches, left_by};

use crate::moving::move_value;
use crate::operands::operands;
use bk_exec::Ending;
use bk_isa::Bin;
use bk_operand::{fetch, store};
use bk_space::{Bus, Cause, Field, Regs, Undo, Width};
use bk_word::binary;

// CMP and BIT.
#[inline(always)]
#[tactic(auto, using(bk_space::proofs::CountLemmas::counted_lemmas), unfolding(bk_exec::specs::Operands::comparing))]
fn compare<B: Bus>(
    regs: &mut Regs,
    undo: &mut Undo,
    bus: &mut B,
    op: Bin,
    width: Width,
    src: Field,
    dst: Field,
) -> Result<Ending, Cause>
    requires src { IsField src }
    requires dst { IsField dst }
    requires fresh { IsFresh undo.old }
    ensures reaches { Reaches result regs.new (comparing (B.shown (B.state bus.old)) op width src dst regs.old) }
    ensures count { B.references bus.new ≡ counted_on (B.references bus.old) (comparing (B.shown (B.state bus.old)) op width src dst regs.old).made }
    ensures state { B.state bus.new ≡ left_by B.after (B.state bus.old) (comparing (B.shown (B.state bus.old)) op width src dst regs.old).outcome }
    ensures undone { OnErr result (undone undo.new regs.new ≡ undone undo.old regs.old) }
{
    let (value, to) = operands(regs, undo, bus, width, src, dst)?;
    let old = fetch(regs, bus, to, width)?;
    let (_, flags) = binary(op, width, value, old, regs.ps.flags);
    regs.ps.flags = flags;
    Ok(Ending::Completed)
}

// BIC, BIS, ADD and SUB.
#[inline(always)]
#[tactic(auto, using(bk_space::proofs::CountLemmas::counted_lemmas), unfolding(bk_exec::specs::Operands::combining))]
fn combine<B: Bus>(
    regs: &mut Regs,
    undo: &mut Undo,
    bus: &mut B,
    op: Bin,
    width: Width,
    src: Field,
    dst: Field,
) -> Result<Ending, Cause>
    requires src { IsField src }
    requires dst { IsField dst }
    requires fresh { IsFresh undo.old }
    ensures reaches { Reaches result regs.new (combining (B.shown (B.state bus.old)) op width src dst regs.old) }
    ensures count { B.references bus.new ≡ counted_on (B.references bus.old) (combining (B.shown (B.state bus.old)) op width src dst regs.old).made }
    ensures state { B.state bus.new ≡ left_by B.after (B.state bus.old) (combining (B.shown (B.state bus.old)) op width src dst regs.old).outcome }
    ensures undone { OnErr result (undone undo.new regs.new ≡ undone undo.old regs.old) }
{
    let (value, to) = operands(regs, undo, bus, width, src, dst)?;
    let old = fetch(regs, bus, to, width)?;
    let (word, flags) = binary(op, width, value, old, regs.ps.flags);
    store(regs, bus, to, width, word)?;
    regs.ps.flags = flags;
    Ok(Ending::Completed)
}

/// An instruction with two fields.
#[inline(always)]
#[tactic(auto, unfolding(bk_exec::specs::Operands::double_of))]
pub(crate) fn double<B: Bus>(
    regs: &mut Regs,
    undo: &mut Undo,
    bus: &mut B,
    op: Bin,
    width: Width,
    src: Field,
    dst: Field,
) -> Result<Ending, Cause>
    requires src { IsField src }
    requires dst { IsField dst }
    requires fresh { IsFresh undo.old }
    ensures reaches { Reaches result regs.new (double_of (B.shown (B.state bus.old)) op width src dst regs.old) }
    ensures count { B.references bus.new ≡ counted_on (B.references bus.old) (double_of (B.shown (B.state bus.old)) op width src dst regs.old).made }
    ensures state { B.state bus.new ≡ left_by B.after (B.state bus.old) (double_of (B.shown (B.state bus.old)) op width src dst regs.old).outcome }
    ensures undone { OnErr result (undone undo.new regs.new ≡ undone undo.old regs.old) }
{
    match op {
        Bin::Mov => move_value(regs, undo, bus, width, src, dst),
        Bin::Cmp | Bin::Bit => compare(regs, undo, bus, op, width, src, dst),
        Bin::Bic | Bin::Bis | Bin::Add | Bin::Sub => combine(regs, undo, bus, op, width, src, dst),
    }
}
