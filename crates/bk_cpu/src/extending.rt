ghost use Rattle.std.specs.Prelude.{◌≡◌, ◌<◌, ◌^◌, OnErr};
ghost use Rattle.bk_space.specs.Counts.{counted_on};
ghost use Rattle.bk_space.specs.Undo.{undone, IsFresh};
ghost use Rattle.bk_isa.specs.Codes.{IsField};
ghost use Rattle.bk_exec.specs.Extended.{partner, with_pair, multiplied, divided, shifted, shifted_pair, extended_of, extending, looped};
ghost use Rattle.bk_cpu.specs.Reached.{Reaches, left_by};

use bk_exec::Ending;
use bk_isa::EisOp;
use bk_operand::{fetch, locate};
use bk_space::{Bus, Cause, Field, Regs, Undo, Width};
use bk_word::{ash, ashc, div, mul};

// R or 1: the register of the low half.
fn partner_of(r: u8) -> u8
    requires { r < 8 }
    ensures value { result ≡ partner r }
    ensures range { result < 8 }
{
    r / 2 * 2 + 1
}

// Of an odd register the second word stays.
fn set_pair(regs: &mut Regs, r: u8, high: u16, low: u16)
    requires { r < 8 }
    ensures { regs.new ≡ with_pair regs.old r high low }
{
    regs.set_reg(r, high);
    regs.set_reg(partner_of(r), low);
}

#[tactic(auto, unfolding(bk_exec::specs::Extended::multiplied))]
fn multiply(regs: &mut Regs, r: u8, value: u16)
    requires { r < 8 }
    ensures { regs.new ≡ multiplied r value regs.old }
{
    let (high, low, flags) = mul(regs.reg(r), value);
    set_pair(regs, r, high, low);
    regs.ps.flags = flags;
}

#[tactic(auto, unfolding(bk_exec::specs::Extended::divided))]
fn divide(regs: &mut Regs, r: u8, value: u16)
    requires { r < 8 }
    ensures { regs.new ≡ divided r value regs.old }
{
    let (quotient, flags) = div(regs.reg(r), regs.reg(partner_of(r)), value);
    if let Some((quotient, remainder)) = quotient {
        set_pair(regs, r, quotient, remainder);
    }
    regs.ps.flags = flags;
}

#[tactic(auto, unfolding(bk_exec::specs::Extended::shifted))]
fn shift(regs: &mut Regs, r: u8, value: u16)
    requires { r < 8 }
    ensures { regs.new ≡ shifted r value regs.old }
{
    let (word, flags) = ash(regs.reg(r), value, regs.ps.flags);
    regs.set_reg(r, word);
    regs.ps.flags = flags;
}

#[tactic(auto, unfolding(bk_exec::specs::Extended::shifted_pair))]
fn shift_pair(regs: &mut Regs, r: u8, value: u16)
    requires { r < 8 }
    ensures { regs.new ≡ shifted_pair r value regs.old }
{
    let (high, low, flags) = ashc(regs.reg(r), regs.reg(partner_of(r)), value, regs.ps.flags);
    set_pair(regs, r, high, low);
    regs.ps.flags = flags;
}

fn extend(regs: &mut Regs, op: EisOp, r: u8, value: u16)
    requires { r < 8 }
    ensures { regs.new ≡ extended_of op r value regs.old }
{
    match op {
        EisOp::Mul => multiply(regs, r, value),
        EisOp::Div => divide(regs, r, value),
        EisOp::Ash => shift(regs, r, value),
        EisOp::Ashc => shift_pair(regs, r, value),
    }
}

/// MUL, DIV, ASH and ASHC.
#[tactic(auto, using(bk_space::proofs::CountLemmas::counted_lemmas), unfolding(bk_exec::specs::Extended::extending))]
pub(crate) fn extended<B: Bus>(
    regs: &mut Regs,
    undo: &mut Undo,
    bus: &mut B,
    op: EisOp,
    r: u8,
    src: Field,
) -> Result<Ending, Cause>
    requires r { r < 8 }
    requires src { IsField src }
    requires fresh { IsFresh undo.old }
    ensures reaches { Reaches result regs.new (extending (B.shown (B.state bus.old)) op r src regs.old) }
    ensures count { B.references bus.new ≡ counted_on (B.references bus.old) (extending (B.shown (B.state bus.old)) op r src regs.old).made }
    ensures state { B.state bus.new ≡ left_by B.after (B.state bus.old) (extending (B.shown (B.state bus.old)) op r src regs.old).outcome }
    ensures undone { OnErr result (undone undo.new regs.new ≡ undone undo.old regs.old) }
{
    let from = locate(regs, undo, bus, src, Width::Word)?;
    let value = fetch(regs, bus, from, Width::Word)?;
    extend(regs, op, r, value);
    Ok(Ending::Completed)
}

/// SOB.
#[tactic(auto, unfolding(bk_exec::specs::Extended::looped))]
pub(crate) fn subtract_one_and_branch(regs: &mut Regs, r: u8, back: u8)
    requires r { r < 8 }
    requires back { back < 64 }
    ensures { regs.new ≡ looped r back regs.old }
{
    let left = regs.reg(r).wrapping_sub(1);
    regs.set_reg(r, left);
    if left != 0 {
        regs.pc = regs.pc.wrapping_sub(2 * u16::from(back));
    }
}
