ghost use Rattle.std.specs.Prelude.{◌≡◌, ◌<◌, ◌^◌, OnErr};
ghost use Rattle.bk_space.specs.Counts.{counted_on};
ghost use Rattle.bk_space.specs.Undo.{undone, IsFresh};
ghost use Rattle.bk_space.specs.Widths.{bits_of};
ghost use Rattle.bk_isa.specs.Codes.{IsField};
ghost use Rattle.bk_operand.specs.Operand.{IsPlace};
ghost use Rattle.bk_exec.specs.Operands.{moved_width, sign_extended, moved_to, moving};
ghost use Rattle.bk_cpu.specs.Reached.{Reaches, left_by};

use crate::operands::operands;
use bk_exec::Ending;
use bk_isa::Bin;
use bk_operand::{Place, store};
use bk_space::{Bus, Cause, Field, Regs, Undo, Width};
use bk_word::binary;

// MOVB to a register writes the whole word.
fn width_to(width: Width, to: Place) -> Width
    ensures { result ≡ moved_width width to }
{
    match (width, to) {
        (Width::Byte, Place::Mem { .. }) => Width::Byte,
        (Width::Byte, Place::Reg(_)) => Width::Word,
        (Width::Word, _) => Width::Word,
    }
}

// The byte that MOVB moves to a register, with its sign extended.
fn extend(width: Width, to: Place, value: u16) -> u16
    requires { value < 2 ^ bits_of width }
    ensures value { result ≡ sign_extended width to value }
    ensures range { result < 2 ^ bits_of (moved_width width to) }
{
    match (width, to) {
        (Width::Byte, Place::Reg(_)) => {
            if value < 0o200 {
                value
            } else {
                value + 0o177400
            }
        }
        _ => value,
    }
}

// MOV from the destination's place on: it is written and not read.
#[inline(always)]
#[tactic(auto, unfolding(bk_exec::specs::Operands::moved_to))]
fn move_to_place<B: Bus>(
    regs: &mut Regs,
    bus: &mut B,
    width: Width,
    value: u16,
    to: Place,
) -> Result<Ending, Cause>
    requires value { value < 2 ^ bits_of width }
    requires to { IsPlace to }
    ensures reaches { Reaches result regs.new (moved_to (B.shown (B.state bus.old)) width value to regs.old) }
    ensures count { B.references bus.new ≡ counted_on (B.references bus.old) (moved_to (B.shown (B.state bus.old)) width value to regs.old).made }
    ensures state { B.state bus.new ≡ left_by B.after (B.state bus.old) (moved_to (B.shown (B.state bus.old)) width value to regs.old).outcome }
    ensures kept { OnErr result (regs.new ≡ regs.old) }
{
    store(regs, bus, to, width_to(width, to), extend(width, to, value))?;
    let (_, flags) = binary(Bin::Mov, width, value, 0, regs.ps.flags);
    regs.ps.flags = flags;
    Ok(Ending::Completed)
}

/// MOV.
#[inline(always)]
#[tactic(auto, using(bk_space::proofs::CountLemmas::counted_lemmas), unfolding(bk_exec::specs::Operands::moving))]
pub(crate) fn move_value<B: Bus>(
    regs: &mut Regs,
    undo: &mut Undo,
    bus: &mut B,
    width: Width,
    src: Field,
    dst: Field,
) -> Result<Ending, Cause>
    requires src { IsField src }
    requires dst { IsField dst }
    requires fresh { IsFresh undo.old }
    ensures reaches { Reaches result regs.new (moving (B.shown (B.state bus.old)) width src dst regs.old) }
    ensures count { B.references bus.new ≡ counted_on (B.references bus.old) (moving (B.shown (B.state bus.old)) width src dst regs.old).made }
    ensures state { B.state bus.new ≡ left_by B.after (B.state bus.old) (moving (B.shown (B.state bus.old)) width src dst regs.old).outcome }
    ensures undone { OnErr result (undone undo.new regs.new ≡ undone undo.old regs.old) }
{
    let (value, to) = operands(regs, undo, bus, width, src, dst)?;
    move_to_place(regs, bus, width, value, to)
}
