ghost use Rattle.std.specs.Prelude.{◌≡◌, OnOk, OnErr};
ghost use Rattle.bk_space.specs.AddrSpace.{applied};
ghost use Rattle.bk_space.specs.Counts.{counted_on};
ghost use Rattle.bk_space.specs.Undo.{undone, IsFresh};
ghost use Rattle.bk_isa.specs.Codes.{IsField};
ghost use Rattle.bk_operand.specs.Operand.{IsPlace};
ghost use Rattle.bk_operand.specs.Part.{Follows};
ghost use Rattle.bk_exec.specs.Previous.{fetched_previous, previous_write, stored_previous, moving_from, moving_to};
ghost use Rattle.bk_cpu.specs.Reached.{Reaches, left_by};

use crate::stack::{pop, push};
use bk_exec::Ending;
use bk_isa::Bin;
use bk_operand::{Place, locate};
use bk_space::{Abort, Bus, Cause, Field, Regs, Space, Undo, Width};
use bk_word::binary;

// The value of an operand of the previous mode.
#[tactic(auto, using(crate::proofs::CountSets::no_part), unfolding(bk_exec::specs::Previous::fetched_previous, bk_operand::specs::Part::reading))]
fn fetch_previous<B: Bus>(
    regs: &Regs,
    bus: &mut B,
    space: Space,
    place: Place,
) -> Result<u16, Abort>
    requires known { IsPlace place }
    ensures value { Follows (λ x. x) result regs.now (fetched_previous (B.shown (B.state bus.old)) space place regs.now) }
    ensures count { B.references bus.new ≡ counted_on (B.references bus.old) (fetched_previous (B.shown (B.state bus.old)) space place regs.now).made }
    ensures state { B.state bus.new ≡ B.state bus.old }
{
    match place {
        Place::Reg(6) => Ok(regs.sp_of(regs.ps.previous)),
        Place::Reg(r) => Ok(regs.reg(r)),
        Place::Mem { addr, .. } => bus.read_word(regs.ps.previous, space, addr),
    }
}

// Stores a word for the previous mode.
#[tactic(auto, using(crate::proofs::CountSets::no_part), unfolding(bk_exec::specs::Previous::stored_previous, bk_operand::specs::Part::writing))]
fn store_previous<B: Bus>(
    regs: &mut Regs,
    bus: &mut B,
    space: Space,
    place: Place,
    value: u16,
) -> Result<(), Abort>
    requires known { IsPlace place }
    ensures stored { Follows (λ _. previous_write regs.old.ps.previous space place value) result regs.new (stored_previous (B.shown (B.state bus.old)) space place value regs.old) }
    ensures count { B.references bus.new ≡ counted_on (B.references bus.old) (stored_previous (B.shown (B.state bus.old)) space place value regs.old).made }
    ensures written { OnOk result (B.state bus.new ≡ applied B.after (B.state bus.old) (previous_write regs.old.ps.previous space place value)) }
    ensures state { OnErr result (B.state bus.new ≡ B.state bus.old) }
    ensures kept { OnErr result (regs.new ≡ regs.old) }
{
    match place {
        Place::Reg(6) => {
            regs.set_sp_of(regs.ps.previous, value);
            Ok(())
        }
        Place::Reg(r) => {
            regs.set_reg(r, value);
            Ok(())
        }
        Place::Mem { addr, .. } => bus.write_word(regs.ps.previous, space, addr, value),
    }
}

/// MFPI and MFPD.
#[tactic(auto, using(bk_space::proofs::CountLemmas::counted_lemmas), unfolding(bk_exec::specs::Previous::moving_from))]
pub(crate) fn move_from<B: Bus>(
    regs: &mut Regs,
    undo: &mut Undo,
    bus: &mut B,
    space: Space,
    src: Field,
) -> Result<Ending, Cause>
    requires src { IsField src }
    requires fresh { IsFresh undo.old }
    ensures reaches { Reaches result regs.new (moving_from (B.shown (B.state bus.old)) space src regs.old) }
    ensures count { B.references bus.new ≡ counted_on (B.references bus.old) (moving_from (B.shown (B.state bus.old)) space src regs.old).made }
    ensures state { B.state bus.new ≡ left_by B.after (B.state bus.old) (moving_from (B.shown (B.state bus.old)) space src regs.old).outcome }
    ensures undone { OnErr result (undone undo.new regs.new ≡ undone undo.old regs.old) }
{
    let from = locate(regs, undo, bus, src, Width::Word)?;
    let value = fetch_previous(regs, bus, space, from)?;
    push(regs, bus, value)?;
    let (_, flags) = binary(Bin::Mov, Width::Word, value, 0, regs.ps.flags);
    regs.ps.flags = flags;
    Ok(Ending::Completed)
}

/// MTPI and MTPD.
#[tactic(auto, using(bk_space::proofs::CountLemmas::counted_lemmas), unfolding(bk_exec::specs::Previous::moving_to))]
pub(crate) fn move_to<B: Bus>(
    regs: &mut Regs,
    undo: &mut Undo,
    bus: &mut B,
    space: Space,
    dst: Field,
) -> Result<Ending, Cause>
    requires dst { IsField dst }
    requires fresh { IsFresh undo.old }
    ensures reaches { Reaches result regs.new (moving_to (B.shown (B.state bus.old)) space dst regs.old) }
    ensures count { B.references bus.new ≡ counted_on (B.references bus.old) (moving_to (B.shown (B.state bus.old)) space dst regs.old).made }
    ensures state { B.state bus.new ≡ left_by B.after (B.state bus.old) (moving_to (B.shown (B.state bus.old)) space dst regs.old).outcome }
    ensures undone { OnErr result (undone undo.new regs.new ≡ undone undo.old regs.old) }
{
    let word = pop(regs, undo, bus)?;
    let to = locate(regs, undo, bus, dst, Width::Word)?;
    store_previous(regs, bus, space, to, word)?;
    let (_, flags) = binary(Bin::Mov, Width::Word, word, 0, regs.ps.flags);
    regs.ps.flags = flags;
    Ok(Ending::Completed)
}
