ghost use Rattle.std.specs.Prelude.{◌≡◌, ◌<◌, ◌^◌, IfOk};
ghost use Rattle.bk_space.specs.Counts.{counted_on};
ghost use Rattle.bk_space.specs.Undo.{undone, IsFresh};
ghost use Rattle.bk_space.specs.Widths.{bits_of};
ghost use Rattle.bk_isa.specs.Codes.{IsField};
ghost use Rattle.bk_operand.specs.Operand.{IsPlace};
ghost use Rattle.bk_operand.specs.Part.{Follows};
ghost use Rattle.bk_exec.specs.Operands.{sourced};

use bk_operand::{Place, fetch, locate};
use bk_space::{Abort, Bus, Field, Regs, Undo, Width};

/// The source's value, and the destination's place. The source is fetched whole before the destination's
/// address is formed, so that (R)+ as destination sees R already stepped.
#[inline(always)]
#[tactic(auto, using(bk_space::proofs::CountLemmas::counted_lemmas), unfolding(bk_exec::specs::Operands::sourced))]
pub(crate) fn operands<B: Bus>(
    regs: &mut Regs,
    undo: &mut Undo,
    bus: &mut B,
    width: Width,
    src: Field,
    dst: Field,
) -> Result<(u16, Place), Abort>
    requires src { IsField src }
    requires dst { IsField dst }
    requires fresh { IsFresh undo.old }
    ensures both { Follows (λ x. x) result regs.new (sourced (B.shown (B.state bus.old)) width src dst regs.old) }
    ensures count { B.references bus.new ≡ counted_on (B.references bus.old) (sourced (B.shown (B.state bus.old)) width src dst regs.old).made }
    ensures state { B.state bus.new ≡ B.state bus.old }
    ensures value { IfOk result (λ x. x.0 < 2 ^ bits_of width) }
    ensures place { IfOk result (λ x. IsPlace x.1) }
    ensures undone { undone undo.new regs.new ≡ undone undo.old regs.old }
{
    let from = locate(regs, undo, bus, src, width)?;
    let value = fetch(regs, bus, from, width)?;
    let to = locate(regs, undo, bus, dst, width)?;
    Ok((value, to))
}
