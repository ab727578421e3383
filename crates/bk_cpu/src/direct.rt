// Operations on words whose operands are registers: no reference is made, and no abort can come.

ghost use Rattle.std.specs.Prelude.{◌≡◌, ◌<◌, None};
ghost use Rattle.bk_space.specs.AddrSpace.{AddrSpace};
ghost use Rattle.bk_space.specs.declared.reference.Width.TheVariants.{Word};
ghost use Rattle.bk_isa.specs.Codes.{HasSingle};
ghost use Rattle.bk_exec.specs.Given.{done};
ghost use Rattle.bk_exec.specs.Operands.{changing, combining, comparing, double_of, moving, setting, single_of, testing};
ghost use Rattle.bk_cpu.specs.Direct.{direct};

use bk_isa::{Bin, Un};
use bk_operand::{put_in, value_in};
use bk_space::{Regs, Width};
use bk_word::{binary, unary};

// MOV.
#[inline(always)]
#[tactic(auto, unfolding(bk_exec::specs::Operands::moving, bk_exec::specs::Operands::moved_to, bk_exec::specs::Operands::sourced, bk_operand::specs::Operand::located, bk_operand::specs::Operand::fetched, bk_operand::specs::Operand::stored))]
fn move_direct(regs: &mut Regs, src: u8, dst: u8)
    requires src { src < 8 }
    requires dst { dst < 8 }
    ensures { (pages : AddrSpace) → moving pages Word (direct src) (direct dst) regs.old ≡ done None regs.new }
{
    let value = value_in(regs, src);
    put_in(regs, dst, value);
    let (_, flags) = binary(Bin::Mov, Width::Word, value, 0, regs.ps.flags);
    regs.ps.flags = flags;
}

// CMP and BIT.
#[inline(always)]
#[tactic(auto, unfolding(bk_exec::specs::Operands::comparing, bk_exec::specs::Operands::sourced, bk_operand::specs::Operand::located, bk_operand::specs::Operand::fetched))]
fn compare_direct(regs: &mut Regs, op: Bin, src: u8, dst: u8)
    requires src { src < 8 }
    requires dst { dst < 8 }
    ensures { (pages : AddrSpace) → comparing pages op Word (direct src) (direct dst) regs.old ≡ done None regs.new }
{
    let value = value_in(regs, src);
    let old = value_in(regs, dst);
    let (_, flags) = binary(op, Width::Word, value, old, regs.ps.flags);
    regs.ps.flags = flags;
}

// BIC, BIS, ADD and SUB.
#[inline(always)]
#[tactic(auto, unfolding(bk_exec::specs::Operands::combining, bk_exec::specs::Operands::sourced, bk_operand::specs::Operand::located, bk_operand::specs::Operand::fetched, bk_operand::specs::Operand::stored))]
fn combine_direct(regs: &mut Regs, op: Bin, src: u8, dst: u8)
    requires src { src < 8 }
    requires dst { dst < 8 }
    ensures { (pages : AddrSpace) → combining pages op Word (direct src) (direct dst) regs.old ≡ done None regs.new }
{
    let value = value_in(regs, src);
    let old = value_in(regs, dst);
    let (word, flags) = binary(op, Width::Word, value, old, regs.ps.flags);
    put_in(regs, dst, word);
    regs.ps.flags = flags;
}

/// An instruction with two fields that name registers.
#[inline(always)]
#[tactic(auto, unfolding(bk_exec::specs::Operands::double_of))]
pub(crate) fn double_direct(regs: &mut Regs, op: Bin, src: u8, dst: u8)
    requires src { src < 8 }
    requires dst { dst < 8 }
    ensures { (pages : AddrSpace) → double_of pages op Word (direct src) (direct dst) regs.old ≡ done None regs.new }
{
    match op {
        Bin::Mov => move_direct(regs, src, dst),
        Bin::Cmp | Bin::Bit => compare_direct(regs, op, src, dst),
        Bin::Bic | Bin::Bis | Bin::Add | Bin::Sub => combine_direct(regs, op, src, dst),
    }
}

// CLR and SXT.
#[inline(always)]
#[tactic(auto, unfolding(bk_exec::specs::Operands::setting, bk_operand::specs::Operand::located, bk_operand::specs::Operand::stored))]
fn set_direct(regs: &mut Regs, op: Un, dst: u8)
    requires form { HasSingle op Word }
    requires dst { dst < 8 }
    ensures { (pages : AddrSpace) → setting pages op Word (direct dst) regs.old ≡ done None regs.new }
{
    let (word, flags) = unary(op, Width::Word, 0, regs.ps.flags);
    put_in(regs, dst, word);
    regs.ps.flags = flags;
}

// TST.
#[inline(always)]
#[tactic(auto, unfolding(bk_exec::specs::Operands::testing, bk_operand::specs::Operand::located, bk_operand::specs::Operand::fetched))]
fn test_direct(regs: &mut Regs, dst: u8)
    requires dst { dst < 8 }
    ensures { (pages : AddrSpace) → testing pages Word (direct dst) regs.old ≡ done None regs.new }
{
    let old = value_in(regs, dst);
    let (_, flags) = unary(Un::Tst, Width::Word, old, regs.ps.flags);
    regs.ps.flags = flags;
}

// The others with one field.
#[inline(always)]
#[tactic(auto, unfolding(bk_exec::specs::Operands::changing, bk_operand::specs::Operand::located, bk_operand::specs::Operand::fetched, bk_operand::specs::Operand::stored))]
fn change_direct(regs: &mut Regs, op: Un, dst: u8)
    requires form { HasSingle op Word }
    requires dst { dst < 8 }
    ensures { (pages : AddrSpace) → changing pages op Word (direct dst) regs.old ≡ done None regs.new }
{
    let old = value_in(regs, dst);
    let (word, flags) = unary(op, Width::Word, old, regs.ps.flags);
    put_in(regs, dst, word);
    regs.ps.flags = flags;
}

/// An instruction with one field, which names a register.
#[inline(always)]
#[tactic(auto, unfolding(bk_exec::specs::Operands::single_of))]
pub(crate) fn single_direct(regs: &mut Regs, op: Un, dst: u8)
    requires form { HasSingle op Word }
    requires dst { dst < 8 }
    ensures { (pages : AddrSpace) → single_of pages op Word (direct dst) regs.old ≡ done None regs.new }
{
    match op {
        Un::Clr | Un::Sxt => set_direct(regs, op, dst),
        Un::Tst => test_direct(regs, dst),
        _ => change_direct(regs, op, dst),
    }
}
