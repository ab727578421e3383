ghost use Rattle.std.specs.Prelude.{◌≡◌, ◌<◌, ◌^◌, IfOk, OnErr, OnOk, pos};
ghost use Rattle.bk_space.specs.AddrSpace.{applied};
ghost use Rattle.bk_space.specs.Widths.{bits_of};
ghost use Rattle.bk_space.specs.Registers.{moved, reg, with_reg};
ghost use Rattle.bk_space.specs.Counts.{counted_on};
ghost use Rattle.bk_space.specs.Trail.{Trail};
ghost use Rattle.bk_space.specs.Undo.{undone, HasRoom, IsFresh, HasMoved};
ghost use Rattle.bk_space.specs.declared.registers.Regs.{Regs as Registers};
ghost use Rattle.bk_space.specs.declared.reference.Space.TheVariants.{D, I};
ghost use Rattle.bk_operand.specs.declared.place.Place.TheVariants.{Mem};
ghost use Rattle.bk_operand.specs.Part.{Follows, next_word};
ghost use Rattle.bk_operand.specs.Operand.{own_space, step_up, step_down, pointed, indexed, indexed_deferred, located, IsPlace, fetched, write_of, stored};

use crate::place::Place;
use bk_space::{Abort, Bus, Field, Regs, Space, Undo, Width};

/// Reads the word at the PC, in I space, and moves the PC by 2.
#[tactic(auto, using(bk_space::proofs::UndoneLemmas::undone_lemmas), unfolding(crate::specs::Part::next_word, crate::specs::Part::reading))]
pub fn next_word<B: Bus>(regs: &mut Regs, bus: &mut B) -> Result<u16, Abort>
    ensures word { Follows (λ x. x) result regs.new (next_word (B.shown (B.state bus.old)) regs.old) }
    ensures count { B.references bus.new ≡ counted_on (B.references bus.old) (next_word (B.shown (B.state bus.old)) regs.old).made }
    ensures state { B.state bus.new ≡ B.state bus.old }
    ensures undone { (trail : Trail) → undone trail regs.new ≡ undone trail regs.old }
    ensures alone { (trail : Trail) (before : Registers) → HasMoved trail before regs.old → HasMoved trail before regs.new }
{
    let word = bus.read_word(regs.ps.mode, Space::I, regs.pc)?;
    regs.pc = regs.pc.wrapping_add(2);
    Ok(word)
}

// What the pointer at an address points at.
#[tactic(auto, unfolding(crate::specs::Operand::pointed, crate::specs::Part::reading))]
fn point<B: Bus>(regs: &Regs, bus: &mut B, space: Space, addr: u16) -> Result<Place, Abort>
    ensures place { Follows (λ x. x) result regs.now (pointed (B.shown (B.state bus.old)) space addr regs.now) }
    ensures count { B.references bus.new ≡ counted_on (B.references bus.old) (pointed (B.shown (B.state bus.old)) space addr regs.now).made }
    ensures state { B.state bus.new ≡ B.state bus.old }
    ensures known { IfOk result IsPlace }
{
    let pointer = bus.read_word(regs.ps.mode, space, addr)?;
    Ok(Place::Mem {
        space: Space::D,
        addr: pointer,
    })
}

// Mode 6: the next word is read, and then the register is added.
#[tactic(auto, using(bk_space::proofs::CountLemmas::counted_lemmas), unfolding(crate::specs::Operand::indexed))]
fn index<B: Bus>(regs: &mut Regs, bus: &mut B, r: u8) -> Result<Place, Abort>
    requires { r < 8 }
    ensures place { Follows (λ x. x) result regs.new (indexed (B.shown (B.state bus.old)) r regs.old) }
    ensures count { B.references bus.new ≡ counted_on (B.references bus.old) (indexed (B.shown (B.state bus.old)) r regs.old).made }
    ensures state { B.state bus.new ≡ B.state bus.old }
    ensures known { IfOk result IsPlace }
    ensures undone { (trail : Trail) → undone trail regs.new ≡ undone trail regs.old }
    ensures alone { (trail : Trail) (before : Registers) → HasMoved trail before regs.old → HasMoved trail before regs.new }
{
    let word = next_word(regs, bus)?;
    Ok(Place::Mem {
        space: Space::D,
        addr: word.wrapping_add(regs.reg(r)),
    })
}

// Mode 7: that sum is the address of a pointer.
#[tactic(auto, using(bk_space::proofs::CountLemmas::counted_lemmas), unfolding(crate::specs::Operand::indexed_deferred))]
fn index_deferred<B: Bus>(regs: &mut Regs, bus: &mut B, r: u8) -> Result<Place, Abort>
    requires { r < 8 }
    ensures place { Follows (λ x. x) result regs.new (indexed_deferred (B.shown (B.state bus.old)) r regs.old) }
    ensures count { B.references bus.new ≡ counted_on (B.references bus.old) (indexed_deferred (B.shown (B.state bus.old)) r regs.old).made }
    ensures state { B.state bus.new ≡ B.state bus.old }
    ensures known { IfOk result IsPlace }
    ensures undone { (trail : Trail) → undone trail regs.new ≡ undone trail regs.old }
    ensures alone { (trail : Trail) (before : Registers) → HasMoved trail before regs.old → HasMoved trail before regs.new }
{
    let word = next_word(regs, bus)?;
    point(regs, bus, Space::D, word.wrapping_add(regs.reg(r)))
}

// The space of what a register addresses.
fn space_of(reg: u8) -> Space
    ensures { result ≡ own_space reg }
{
    if reg == 7 { Space::I } else { Space::D }
}

fn step_up(width: Width, reg: u8) -> i8
    ensures { result ≡ step_up width reg }
{
    match width {
        Width::Word => 2,
        Width::Byte => { if reg >= 6 { 2 } else { 1 } }
    }
}

fn step_down(width: Width, reg: u8) -> i8
    ensures { result ≡ step_down width reg }
{
    match width {
        Width::Word => -2,
        Width::Byte => { if reg >= 6 { -2 } else { -1 } }
    }
}

// The place of an operand by any mode. It stays out of line: the operand that is a register is found without it.
#[tactic(auto, using(bk_space::proofs::CountLemmas::counted_lemmas), unfolding(crate::specs::Operand::located))]
fn locate_there<B: Bus>(
    regs: &mut Regs,
    undo: &mut Undo,
    bus: &mut B,
    field: Field,
    width: Width,
) -> Result<Place, Abort>
    requires mode { field.mode < 8 }
    requires reg { field.reg < 8 }
    requires room { HasRoom undo.old }
    ensures place { Follows (λ x. x) result regs.new (located (B.shown (B.state bus.old)) width field regs.old) }
    ensures count { B.references bus.new ≡ counted_on (B.references bus.old) (located (B.shown (B.state bus.old)) width field regs.old).made }
    ensures state { B.state bus.new ≡ B.state bus.old }
    ensures known { IfOk result IsPlace }

    // At most one note more, also at an abort; and the notes still tell all that has moved but the PC.
    ensures room { IsFresh undo.old → HasRoom undo.new }
    ensures undone { undone undo.new regs.new ≡ undone undo.old regs.old }
    ensures alone { (before : Registers) → HasMoved undo.old before regs.old → HasMoved undo.new before regs.new }
{
    let r = field.reg;
    match field.mode {
        0 => Ok(Place::Reg(r)),
        1 => Ok(Place::Mem {
            space: space_of(r),
            addr: regs.reg(r),
        }),
        2 => {
            let addr = regs.reg(r);
            undo.move_reg(regs, r, step_up(width, r));
            Ok(Place::Mem {
                space: space_of(r),
                addr,
            })
        }
        3 => {
            let addr = regs.reg(r);
            undo.move_reg(regs, r, 2);
            point(regs, bus, space_of(r), addr)
        }
        4 => {
            undo.move_reg(regs, r, step_down(width, r));
            Ok(Place::Mem {
                space: space_of(r),
                addr: regs.reg(r),
            })
        }
        5 => {
            undo.move_reg(regs, r, -2);
            point(regs, bus, space_of(r), regs.reg(r))
        }
        6 => index(regs, bus, r),
        _ => index_deferred(regs, bus, r),
    }
}

// The program counter, which moves by 2. It needs no note, since its value before the instruction is kept.
#[inline(always)]
#[tactic(auto, using(bk_space::proofs::UndoneLemmas::undone_lemmas), unfolding(bk_space::specs::Registers::reg, bk_space::specs::Registers::with_reg, bk_space::specs::Registers::moved))]
fn step_pc(regs: &mut Regs) -> u16
    ensures value { result ≡ reg regs.old 7 }
    ensures regs { regs.new ≡ moved regs.old 7 (pos 2) }
    ensures undone { (trail : Trail) → undone trail regs.new ≡ undone trail regs.old }
    ensures alone { (trail : Trail) (before : Registers) → HasMoved trail before regs.old → HasMoved trail before regs.new }
{
    let addr = regs.pc;
    regs.pc = addr.wrapping_add(2);
    addr
}

// The pointer at the program counter, which moves by 2.
#[tactic(auto, unfolding(crate::specs::Operand::pointed, crate::specs::Part::reading))]
fn next_pointer<B: Bus>(regs: &mut Regs, bus: &mut B) -> Result<u16, Abort>
    ensures place { Follows (λ addr. Mem D addr) result regs.new (pointed (B.shown (B.state bus.old)) I (reg regs.old 7) (moved regs.old 7 (pos 2))) }
    ensures count { B.references bus.new ≡ counted_on (B.references bus.old) (pointed (B.shown (B.state bus.old)) I (reg regs.old 7) (moved regs.old 7 (pos 2))).made }
    ensures state { B.state bus.new ≡ B.state bus.old }
    ensures undone { (trail : Trail) → undone trail regs.new ≡ undone trail regs.old }
    ensures alone { (trail : Trail) (before : Registers) → HasMoved trail before regs.old → HasMoved trail before regs.new }
{
    let addr = step_pc(regs);
    Ok(bus.read_word(regs.ps.mode, Space::I, addr)?)
}

/// Finds the place of an operand: index words and pointers are read, and a register that moves is
/// noted. An abort is the bus's own.
#[inline(always)]
#[tactic(auto, using(bk_space::proofs::CountLemmas::counted_lemmas), unfolding(crate::specs::Operand::located))]
pub fn locate<B: Bus>(
    regs: &mut Regs,
    undo: &mut Undo,
    bus: &mut B,
    field: Field,
    width: Width,
) -> Result<Place, Abort>
    requires mode { field.mode < 8 }
    requires reg { field.reg < 8 }
    requires room { HasRoom undo.old }
    ensures place { Follows (λ x. x) result regs.new (located (B.shown (B.state bus.old)) width field regs.old) }
    ensures count { B.references bus.new ≡ counted_on (B.references bus.old) (located (B.shown (B.state bus.old)) width field regs.old).made }
    ensures state { B.state bus.new ≡ B.state bus.old }
    ensures known { IfOk result IsPlace }

    // At most one note more, also at an abort; and the notes still tell all that has moved but the PC.
    ensures room { IsFresh undo.old → HasRoom undo.new }
    ensures undone { undone undo.new regs.new ≡ undone undo.old regs.old }
    ensures alone { (before : Registers) → HasMoved undo.old before regs.old → HasMoved undo.new before regs.new }
{
    match (field.mode, field.reg) {
        (0, r) => Ok(Place::Reg(r)),
        (2, 7) => Ok(Place::Mem {
            space: Space::I,
            addr: step_pc(regs),
        }),
        (3, 7) => {
            let addr = next_pointer(regs, bus)?;
            Ok(Place::Mem {
                space: Space::D,
                addr,
            })
        }
        _ => locate_there(regs, undo, bus, field, width),
    }
}

/// A register's value. R0 to R5 are asked first.
#[inline(always)]
#[tactic(auto, unfolding(bk_space::specs::Registers::reg))]
pub fn value_in(regs: &Regs, r: u8) -> u16
    requires { r < 8 }
    ensures { result ≡ reg regs.now r }
{
    if r < 6 {
        regs.general[usize::from(r)]
    } else {
        regs.reg(r)
    }
}

/// Replaces a register's value. R0 to R5 are asked first.
#[inline(always)]
#[tactic(auto, unfolding(bk_space::specs::Registers::with_reg))]
pub fn put_in(regs: &mut Regs, r: u8, value: u16)
    requires { r < 8 }
    ensures { regs.new ≡ with_reg regs.old r value }
{
    if r < 6 {
        regs.general[usize::from(r)] = value;
    } else {
        regs.set_reg(r, value);
    }
}

/// The value of an operand. Of a register a byte is the low byte. An abort is the bus's own.
#[tactic(auto, using(bk_space::proofs::CountLemmas::counted_lemmas), unfolding(crate::specs::Operand::fetched, crate::specs::Part::reading))]
#[inline(always)]
pub fn fetch<B: Bus>(regs: &Regs, bus: &mut B, place: Place, width: Width) -> Result<u16, Abort>
    requires known { IsPlace place }
    ensures value { Follows (λ x. x) result regs.now (fetched (B.shown (B.state bus.old)) width place regs.now) }
    ensures count { B.references bus.new ≡ counted_on (B.references bus.old) (fetched (B.shown (B.state bus.old)) width place regs.now).made }
    ensures state { B.state bus.new ≡ B.state bus.old }
    ensures range { IfOk result (λ x. x < 2 ^ bits_of width) }
{
    match place {
        Place::Reg(r) => match width {
            Width::Word => Ok(value_in(regs, r)),
            Width::Byte => Ok(value_in(regs, r) % 256),
        },
        Place::Mem { space, addr } => match width {
            Width::Word => Ok(bus.read_word(regs.ps.mode, space, addr)?),
            Width::Byte => Ok(u16::from(bus.read_byte(regs.ps.mode, space, addr)?)),
        },
    }
}

/// Stores a result. In a register a byte changes the low byte alone. An abort is the bus's own, and
/// then nothing has changed but the count of references.
#[tactic(auto, using(bk_space::proofs::CountLemmas::counted_lemmas), unfolding(crate::specs::Operand::stored, crate::specs::Part::writing))]
#[inline(always)]
pub fn store<B: Bus>(
    regs: &mut Regs,
    bus: &mut B,
    place: Place,
    width: Width,
    value: u16,
) -> Result<(), Abort>
    requires known { IsPlace place }
    requires range { value < 2 ^ bits_of width }
    ensures stored { Follows (λ _. write_of regs.old.ps.mode width place value) result regs.new (stored (B.shown (B.state bus.old)) width place value regs.old) }
    ensures count { B.references bus.new ≡ counted_on (B.references bus.old) (stored (B.shown (B.state bus.old)) width place value regs.old).made }
    ensures written { OnOk result (B.state bus.new ≡ applied B.after (B.state bus.old) (write_of regs.old.ps.mode width place value)) }
    ensures state { OnErr result (B.state bus.new ≡ B.state bus.old) }
    ensures kept { OnErr result (regs.new ≡ regs.old) }
{
    match place {
        Place::Reg(r) => {
            let word = match width {
                Width::Word => value,
                Width::Byte => value_in(regs, r) / 256 * 256 + value,
            };
            put_in(regs, r, word);
            Ok(())
        }
        Place::Mem { space, addr } => match width {
            Width::Word => bus.write_word(regs.ps.mode, space, addr, value),
            Width::Byte => bus.write_byte(regs.ps.mode, space, addr, value as u8),
        },
    }
}
