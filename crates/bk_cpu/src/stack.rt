ghost use Rattle.std.specs.Prelude.{◌≡◌, OnOk, OnErr, Some};
ghost use Rattle.bk_space.specs.declared.reference.Space.TheVariants.{D};
ghost use Rattle.bk_space.specs.declared.reference.Width.TheVariants.{Word};
ghost use Rattle.bk_space.specs.Counts.{counted_on};
ghost use Rattle.bk_space.specs.Registers.{reg};
ghost use Rattle.bk_space.specs.Undo.{undone, HasRoom, IsFresh};
ghost use Rattle.bk_operand.specs.Part.{Follows};
ghost use Rattle.bk_exec.specs.Given.{minus, pushed, popped};

use bk_space::{Abort, Bus, Regs, Space, Undo};

/// Pushes a word on the current stack, in D space. The stack pointer moves once the word is written.
#[tactic(auto, using(crate::proofs::CountSets::no_part), unfolding(bk_exec::specs::Given::pushed, bk_operand::specs::Part::writing))]
pub(crate) fn push<B: Bus>(regs: &mut Regs, bus: &mut B, value: u16) -> Result<(), Abort>
    ensures pushed { Follows (λ _. Some (record { mode = regs.old.ps.mode; space = D; width = Word; addr = minus (reg regs.old 6) 2; value = value })) result regs.new (pushed (B.shown (B.state bus.old)) value regs.old) }
    ensures count { B.references bus.new ≡ counted_on (B.references bus.old) (pushed (B.shown (B.state bus.old)) value regs.old).made }
    ensures written { OnOk result (B.state bus.new ≡ B.after (B.state bus.old) (record { mode = regs.old.ps.mode; space = D; width = Word; addr = minus (reg regs.old 6) 2; value = value })) }
    ensures state { OnErr result (B.state bus.new ≡ B.state bus.old) }
    ensures kept { OnErr result (regs.new ≡ regs.old) }
{
    let sp = regs.reg(6).wrapping_sub(2);
    bus.write_word(regs.ps.mode, Space::D, sp, value)?;
    regs.set_reg(6, sp);
    Ok(())
}

/// Pops a word off the current stack, in D space. The stack pointer's move is noted.
#[tactic(auto, using(crate::proofs::CountSets::no_part), unfolding(bk_exec::specs::Given::popped, bk_operand::specs::Part::reading))]
pub(crate) fn pop<B: Bus>(regs: &mut Regs, undo: &mut Undo, bus: &mut B) -> Result<u16, Abort>
    requires room { HasRoom undo.old }
    ensures word { Follows (λ x. x) result regs.new (popped (B.shown (B.state bus.old)) regs.old) }
    ensures count { B.references bus.new ≡ counted_on (B.references bus.old) (popped (B.shown (B.state bus.old)) regs.old).made }
    ensures state { B.state bus.new ≡ B.state bus.old }
    ensures undone { undone undo.new regs.new ≡ undone undo.old regs.old }
    ensures room { IsFresh undo.old → HasRoom undo.new }
{
    let word = bus.read_word(regs.ps.mode, Space::D, regs.reg(6))?;
    undo.move_reg(regs, 6, 2);
    Ok(word)
}
