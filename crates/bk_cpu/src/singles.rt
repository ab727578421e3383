ghost use Rattle.std.specs.Prelude.{◌≡◌, ◌<◌, OnErr};
ghost use Rattle.bk_space.specs.Counts.{counted_on};
ghost use Rattle.bk_space.specs.Undo.{undone, IsFresh};
ghost use Rattle.bk_isa.specs.Codes.{IsField, HasSingle};
ghost use Rattle.bk_exec.specs.Operands.{setting, testing, changing, single_of, exclusive};
ghost use Rattle.bk_cpu.specs.Reached.{Reaches, left_by};

use bk_exec::Ending;
use bk_isa::{Bin, Un};
use bk_operand::{fetch, locate, store};
use bk_space::{Bus, Cause, Field, Regs, Undo, Width};
use bk_word::{binary, unary};

// CLR and SXT.
#[inline(always)]
#[tactic(auto, using(bk_space::proofs::CountLemmas::counted_lemmas), unfolding(bk_exec::specs::Operands::setting))]
fn set<B: Bus>(
    regs: &mut Regs,
    undo: &mut Undo,
    bus: &mut B,
    op: Un,
    width: Width,
    dst: Field,
) -> Result<Ending, Cause>
    requires form { HasSingle op width }
    requires dst { IsField dst }
    requires fresh { IsFresh undo.old }
    ensures reaches { Reaches result regs.new (setting (B.shown (B.state bus.old)) op width dst regs.old) }
    ensures count { B.references bus.new ≡ counted_on (B.references bus.old) (setting (B.shown (B.state bus.old)) op width dst regs.old).made }
    ensures state { B.state bus.new ≡ left_by B.after (B.state bus.old) (setting (B.shown (B.state bus.old)) op width dst regs.old).outcome }
    ensures undone { OnErr result (undone undo.new regs.new ≡ undone undo.old regs.old) }
{
    let to = locate(regs, undo, bus, dst, width)?;
    let (word, flags) = unary(op, width, 0, regs.ps.flags);
    store(regs, bus, to, width, word)?;
    regs.ps.flags = flags;
    Ok(Ending::Completed)
}

// TST.
#[inline(always)]
#[tactic(auto, using(bk_space::proofs::CountLemmas::counted_lemmas), unfolding(bk_exec::specs::Operands::testing))]
fn test<B: Bus>(
    regs: &mut Regs,
    undo: &mut Undo,
    bus: &mut B,
    width: Width,
    dst: Field,
) -> Result<Ending, Cause>
    requires dst { IsField dst }
    requires fresh { IsFresh undo.old }
    ensures reaches { Reaches result regs.new (testing (B.shown (B.state bus.old)) width dst regs.old) }
    ensures count { B.references bus.new ≡ counted_on (B.references bus.old) (testing (B.shown (B.state bus.old)) width dst regs.old).made }
    ensures state { B.state bus.new ≡ left_by B.after (B.state bus.old) (testing (B.shown (B.state bus.old)) width dst regs.old).outcome }
    ensures undone { OnErr result (undone undo.new regs.new ≡ undone undo.old regs.old) }
{
    let to = locate(regs, undo, bus, dst, width)?;
    let old = fetch(regs, bus, to, width)?;
    let (_, flags) = unary(Un::Tst, width, old, regs.ps.flags);
    regs.ps.flags = flags;
    Ok(Ending::Completed)
}

// The others with one field.
#[inline(always)]
#[tactic(auto, using(bk_space::proofs::CountLemmas::counted_lemmas), unfolding(bk_exec::specs::Operands::changing))]
fn change<B: Bus>(
    regs: &mut Regs,
    undo: &mut Undo,
    bus: &mut B,
    op: Un,
    width: Width,
    dst: Field,
) -> Result<Ending, Cause>
    requires form { HasSingle op width }
    requires dst { IsField dst }
    requires fresh { IsFresh undo.old }
    ensures reaches { Reaches result regs.new (changing (B.shown (B.state bus.old)) op width dst regs.old) }
    ensures count { B.references bus.new ≡ counted_on (B.references bus.old) (changing (B.shown (B.state bus.old)) op width dst regs.old).made }
    ensures state { B.state bus.new ≡ left_by B.after (B.state bus.old) (changing (B.shown (B.state bus.old)) op width dst regs.old).outcome }
    ensures undone { OnErr result (undone undo.new regs.new ≡ undone undo.old regs.old) }
{
    let to = locate(regs, undo, bus, dst, width)?;
    let old = fetch(regs, bus, to, width)?;
    let (word, flags) = unary(op, width, old, regs.ps.flags);
    store(regs, bus, to, width, word)?;
    regs.ps.flags = flags;
    Ok(Ending::Completed)
}

/// An instruction with one field.
#[inline(always)]
#[tactic(auto, unfolding(bk_exec::specs::Operands::single_of))]
pub(crate) fn single<B: Bus>(
    regs: &mut Regs,
    undo: &mut Undo,
    bus: &mut B,
    op: Un,
    width: Width,
    dst: Field,
) -> Result<Ending, Cause>
    requires form { HasSingle op width }
    requires dst { IsField dst }
    requires fresh { IsFresh undo.old }
    ensures reaches { Reaches result regs.new (single_of (B.shown (B.state bus.old)) op width dst regs.old) }
    ensures count { B.references bus.new ≡ counted_on (B.references bus.old) (single_of (B.shown (B.state bus.old)) op width dst regs.old).made }
    ensures state { B.state bus.new ≡ left_by B.after (B.state bus.old) (single_of (B.shown (B.state bus.old)) op width dst regs.old).outcome }
    ensures undone { OnErr result (undone undo.new regs.new ≡ undone undo.old regs.old) }
{
    match op {
        Un::Clr | Un::Sxt => set(regs, undo, bus, op, width, dst),
        Un::Tst => test(regs, undo, bus, width, dst),
        _ => change(regs, undo, bus, op, width, dst),
    }
}

/// XOR.
#[tactic(auto, using(bk_space::proofs::CountLemmas::counted_lemmas), unfolding(bk_exec::specs::Operands::exclusive))]
pub(crate) fn exclusive_or<B: Bus>(
    regs: &mut Regs,
    undo: &mut Undo,
    bus: &mut B,
    r: u8,
    dst: Field,
) -> Result<Ending, Cause>
    requires r { r < 8 }
    requires dst { IsField dst }
    requires fresh { IsFresh undo.old }
    ensures reaches { Reaches result regs.new (exclusive (B.shown (B.state bus.old)) r dst regs.old) }
    ensures count { B.references bus.new ≡ counted_on (B.references bus.old) (exclusive (B.shown (B.state bus.old)) r dst regs.old).made }
    ensures state { B.state bus.new ≡ left_by B.after (B.state bus.old) (exclusive (B.shown (B.state bus.old)) r dst regs.old).outcome }
    ensures undone { OnErr result (undone undo.new regs.new ≡ undone undo.old regs.old) }
{
    let value = regs.reg(r);
    let to = locate(regs, undo, bus, dst, Width::Word)?;
    let old = fetch(regs, bus, to, Width::Word)?;
    let word = value ^ old;
    let (_, flags) = binary(Bin::Mov, Width::Word, word, 0, regs.ps.flags);
    store(regs, bus, to, Width::Word, word)?;
    regs.ps.flags = flags;
    Ok(Ending::Completed)
}
