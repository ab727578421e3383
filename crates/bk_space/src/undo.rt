ghost use Rattle.std.specs.Prelude.{◌≡◌, ◌<◌, ◌≤ℤ◌, ◌+ℤ◌, ◌-ℤ◌, pos, negsuc};
ghost use Rattle.bk_space.specs.declared.registers.Regs.{Regs as Registers};

use crate::note::Note;
use crate::registers::Regs;
use std::marker::Model;

/// What it takes to put the registers back as they were before an instruction: its address, and up to
/// two registers with the amounts by which they moved. It is what the handbook's SR1 and SR2 hold.
#[derive(Drop)]
pub struct Undo {
    pc: u16,
    first: Option<Note>,
    second: Option<Note>,
}

impl Model for Undo {
    ghost use Rattle.bk_space.specs.Trail.{Trail, pair_of};

    ghost Value = { Trail };

    ghost view = { λ u. record { pc = u.pc; first = pair_of u.first; second = pair_of u.second } };
}

impl Undo {
    ghost use Rattle.std.specs.Prelude.{None};
    ghost use Rattle.bk_space.specs.Trail.{pair_of, sr1_of};
    ghost use Rattle.bk_space.specs.Registers.{IsRegs, moved};
    ghost use Rattle.bk_space.specs.Undo.{undone, noted, HasRoom, IsFresh, HasMoved};

    /// Nothing is noted yet; the registers are as before the instruction.
    pub fn new(regs: &Regs) -> Undo
        ensures { result ≡ record { pc = regs.now.pc; first = None; second = None } }
    {
        Undo {
            pc: regs.pc,
            first: None,
            second: None,
        }
    }

    /// Notes that a register moved by an amount.
    #[tactic(auto, unfolding(crate::specs::Undo::noted))]
    pub fn note(&mut self, reg: u8, amount: i8)
        requires known { reg < 8 }
        requires low { negsuc 15 ≤ℤ amount }
        requires high { amount ≤ℤ pos 15 }
        requires room { HasRoom self.old }
        ensures { self.new ≡ noted self.old reg amount }
    {
        let note = Note { reg, amount };
        match self.first {
            None => self.first = Some(note),
            Some(_) => self.second = Some(note),
        }
    }

    /// Moves a register by an amount, and notes it.
    pub fn move_reg(&mut self, regs: &mut Regs, reg: u8, amount: i8)
        requires known { reg < 8 }
        requires low { negsuc 15 ≤ℤ amount }
        requires high { amount ≤ℤ pos 15 }
        requires room { HasRoom self.old }
        ensures regs { regs.new ≡ moved regs.old reg amount }
        ensures trail { self.new ≡ noted self.old reg amount }
        ensures room { IsFresh self.old → HasRoom self.new }
        ensures undone { undone self.new regs.new ≡ undone self.old regs.old }
        ensures alone { (before : Registers) → HasMoved self.old before regs.old → HasMoved self.new before regs.new }
    {
        let value = regs.reg(reg);
        regs.set_reg(reg, plus(value, amount));
        self.note(reg, amount);
    }

    /// The handbook's SR1: the first change in the low byte and the second in the high byte, each with
    /// the signed amount in bits 7 to 3 and the register in bits 2 to 0.
    pub fn sr1(&self) -> u16
        ensures { result ≡ sr1_of self.now }
    {
        byte_of(self.second) * 256 + byte_of(self.first)
    }

    /// The handbook's SR2: the address of the instruction.
    pub fn sr2(&self) -> u16
        ensures { result ≡ self.now.pc }
    {
        self.pc
    }

    /// Takes the noted amounts back and sets the PC to the address of the instruction. Where the
    /// registers have changed in the PC and by the noted amounts alone since `new`, they are again what
    /// they were then.
    #[tactic(auto, unfolding(crate::specs::Undo::undone))]
    pub fn restore(&self, regs: &mut Regs)
        ensures undone { regs.new ≡ undone self.now regs.old }
        ensures back { (before : Registers) → IsRegs before → HasMoved self.now before regs.old → regs.new ≡ before }
    {
        take_back(self.second, regs);
        take_back(self.first, regs);
        regs.pc = self.pc;
    }
}

ghost use Rattle.bk_space.specs.Registers.{wrapped};
ghost use Rattle.bk_space.specs.Undo.{taken_back};
ghost use Rattle.bk_space.specs.Trail.{pair_of, byte_of};

// A value moved by an amount.
fn plus(value: u16, amount: i8) -> u16
    ensures { result ≡ wrapped (pos value +ℤ amount) }
{
    value.wrapping_add(i16::from(amount).cast_unsigned())
}

// A value before it was moved by an amount.
fn less(value: u16, amount: i8) -> u16
    ensures { result ≡ wrapped (pos value -ℤ amount) }
{
    value.wrapping_sub(i16::from(amount).cast_unsigned())
}

#[tactic(auto, unfolding(crate::specs::Undo::taken_back))]
fn take_back(note: Option<Note>, regs: &mut Regs)
    ensures { regs.new ≡ taken_back (pair_of note) regs.old }
{
    if let Some(note) = note {
        let value = regs.reg(note.reg);
        regs.set_reg(note.reg, less(value, note.amount));
    }
}

// A note as a byte of SR1.
fn byte_of(note: Option<Note>) -> u16
    ensures value { result ≡ byte_of (pair_of note) }
    ensures range { result < 256 }
{
    match note {
        None => 0,
        Some(note) => {
            let five_bits = if note.amount < 0 {
                (note.amount + 32) as u16
            } else {
                note.amount as u16
            };
            five_bits * 8 + u16::from(note.reg)
        }
    }
}
