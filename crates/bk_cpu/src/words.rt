// The words that are most run are looked up here, each with its operation and width as constants of the host's code; all
// others are decoded. What stands in registers is done in line. The rest has a function for each code (`CODE`, the bits above
// the fields), out of line, so that a branch saves none of the host's registers for it.

ghost use Rattle.std.specs.Prelude.{◌≡◌, ◌<◌, ◌*◌, ◌/◌, ◌%◌, OnErr, Some};
ghost use Rattle.bk_space.specs.Counts.{counted_on};
ghost use Rattle.bk_space.specs.Undo.{undone, IsFresh};
ghost use Rattle.bk_isa.specs.Codes.{IsField, HasSingle};
ghost use Rattle.bk_isa.specs.Decode.{branches, decode_of, doubles, field_at, look_up, singles};
ghost use Rattle.bk_space.specs.declared.reference.Width.TheVariants.{Word};
ghost use Rattle.bk_exec.specs.Exec.{executed};
ghost use Rattle.bk_cpu.specs.Reached.{Reaches, left_by, result_of};

use crate::control::branch;
use crate::direct::{double_direct, single_direct};
use crate::doubles::double;
use crate::outcome::{Outcome, outcome_of};
use crate::singles::single;
use crate::stepping::execute;
use bk_isa::{Bin, Cond, Un, decode};
use bk_space::{Bus, Cause, Field, Regs, Undo, Width};

// The field in the low six bits of a word.
#[inline(always)]
fn field(word: u16) -> Field
    ensures value { result ≡ field_at (word % 64) }
    ensures range { IsField result }
{
    Field {
        mode: (word >> 3 & 7) as u8,
        reg: (word & 7) as u8,
    }
}

// The register that the low three bits of a word name.
#[inline(always)]
fn register(word: u16) -> u8
    ensures value { result ≡ word % 8 }
    ensures range { result < 8 }
{
    (word & 7) as u8
}

// A word of an operation with two fields.
#[inline(never)]
fn double_in<B: Bus, const CODE: u16>(
    regs: &mut Regs,
    undo: &mut Undo,
    bus: &mut B,
    op: Bin,
    width: Width,
    word: u16,
) -> Outcome
    requires code { look_up doubles (word / 0o10000) ≡ Some (op, width) }
    requires fresh { IsFresh undo.old }
    ensures reaches { Reaches (result_of result) regs.new (executed (B.shown (B.state bus.old)) (decode_of word) regs.old) }
    ensures count { B.references bus.new ≡ counted_on (B.references bus.old) (executed (B.shown (B.state bus.old)) (decode_of word) regs.old).made }
    ensures state { B.state bus.new ≡ left_by B.after (B.state bus.old) (executed (B.shown (B.state bus.old)) (decode_of word) regs.old).outcome }
    ensures undone { OnErr (result_of result) (undone undo.new regs.new ≡ undone undo.old regs.old) }
{
    outcome_of(double(regs, undo, bus, op, width, field(word >> 6), field(word)))
}

// .. on words, both of which are registers.
#[inline(always)]
fn double_registers<B: Bus>(
    regs: &mut Regs,
    undo: &mut Undo,
    bus: &mut B,
    op: Bin,
    word: u16,
) -> Outcome
    requires code { look_up doubles (word / 0o10000) ≡ Some (op, Word) }
    requires src { word / 0o1000 % 8 ≡ 0 }
    requires dst { word / 0o10 % 8 ≡ 0 }
    ensures reaches { Reaches (result_of result) regs.new (executed (B.shown (B.state bus.old)) (decode_of word) regs.old) }
    ensures count { B.references bus.new ≡ counted_on (B.references bus.old) (executed (B.shown (B.state bus.old)) (decode_of word) regs.old).made }
    ensures state { B.state bus.new ≡ left_by B.after (B.state bus.old) (executed (B.shown (B.state bus.old)) (decode_of word) regs.old).outcome }
    ensures undone { OnErr (result_of result) (undone undo.new regs.new ≡ undone undo.old regs.old) }
{
    double_direct(regs, op, register(word >> 6), register(word));
    Outcome::Completed
}

// .. on words, of which the first is the word that follows, and the second a register.
#[inline(always)]
fn double_immediate<B: Bus>(
    regs: &mut Regs,
    undo: &mut Undo,
    bus: &mut B,
    op: Bin,
    word: u16,
) -> Outcome
    requires code { look_up doubles (word / 0o10000) ≡ Some (op, Word) }
    requires src { word / 0o100 % 64 ≡ 0o27 }
    requires dst { word / 0o10 % 8 ≡ 0 }
    requires fresh { IsFresh undo.old }
    ensures reaches { Reaches (result_of result) regs.new (executed (B.shown (B.state bus.old)) (decode_of word) regs.old) }
    ensures count { B.references bus.new ≡ counted_on (B.references bus.old) (executed (B.shown (B.state bus.old)) (decode_of word) regs.old).made }
    ensures state { B.state bus.new ≡ left_by B.after (B.state bus.old) (executed (B.shown (B.state bus.old)) (decode_of word) regs.old).outcome }
    ensures undone { OnErr (result_of result) (undone undo.new regs.new ≡ undone undo.old regs.old) }
{
    let src = Field { mode: 2, reg: 7 };
    let dst = Field {
        mode: 0,
        reg: register(word),
    };
    outcome_of(double(regs, undo, bus, op, Width::Word, src, dst))
}

// .. on words: in line where both are registers, or the first is the word that follows.
#[inline(always)]
fn double_word<B: Bus, const CODE: u16>(
    regs: &mut Regs,
    undo: &mut Undo,
    bus: &mut B,
    op: Bin,
    word: u16,
) -> Outcome
    requires code { look_up doubles (word / 0o10000) ≡ Some (op, Word) }
    requires fresh { IsFresh undo.old }
    ensures reaches { Reaches (result_of result) regs.new (executed (B.shown (B.state bus.old)) (decode_of word) regs.old) }
    ensures count { B.references bus.new ≡ counted_on (B.references bus.old) (executed (B.shown (B.state bus.old)) (decode_of word) regs.old).made }
    ensures state { B.state bus.new ≡ left_by B.after (B.state bus.old) (executed (B.shown (B.state bus.old)) (decode_of word) regs.old).outcome }
    ensures undone { OnErr (result_of result) (undone undo.new regs.new ≡ undone undo.old regs.old) }
{
    if word >> 9 & 7 == 0 && word >> 3 & 7 == 0 {
        double_registers(regs, undo, bus, op, word)
    } else if word >> 6 & 0o77 == 0o27 && word >> 3 & 7 == 0 {
        double_immediate(regs, undo, bus, op, word)
    } else {
        double_in::<B, CODE>(regs, undo, bus, op, Width::Word, word)
    }
}

// A word of an operation with one field.
#[inline(never)]
fn single_in<B: Bus, const CODE: u16>(
    regs: &mut Regs,
    undo: &mut Undo,
    bus: &mut B,
    op: Un,
    width: Width,
    word: u16,
) -> Outcome
    requires code { look_up singles (word / 0o100) ≡ Some (op, width) }
    requires form { HasSingle op width }
    requires fresh { IsFresh undo.old }
    ensures reaches { Reaches (result_of result) regs.new (executed (B.shown (B.state bus.old)) (decode_of word) regs.old) }
    ensures count { B.references bus.new ≡ counted_on (B.references bus.old) (executed (B.shown (B.state bus.old)) (decode_of word) regs.old).made }
    ensures state { B.state bus.new ≡ left_by B.after (B.state bus.old) (executed (B.shown (B.state bus.old)) (decode_of word) regs.old).outcome }
    ensures undone { OnErr (result_of result) (undone undo.new regs.new ≡ undone undo.old regs.old) }
{
    outcome_of(single(regs, undo, bus, op, width, field(word)))
}

// .. on a word that is a register.
#[inline(always)]
fn single_register<B: Bus>(
    regs: &mut Regs,
    undo: &mut Undo,
    bus: &mut B,
    op: Un,
    word: u16,
) -> Outcome
    requires code { look_up singles (word / 0o100) ≡ Some (op, Word) }
    requires form { HasSingle op Word }
    requires dst { word / 0o10 % 8 ≡ 0 }
    ensures reaches { Reaches (result_of result) regs.new (executed (B.shown (B.state bus.old)) (decode_of word) regs.old) }
    ensures count { B.references bus.new ≡ counted_on (B.references bus.old) (executed (B.shown (B.state bus.old)) (decode_of word) regs.old).made }
    ensures state { B.state bus.new ≡ left_by B.after (B.state bus.old) (executed (B.shown (B.state bus.old)) (decode_of word) regs.old).outcome }
    ensures undone { OnErr (result_of result) (undone undo.new regs.new ≡ undone undo.old regs.old) }
{
    single_direct(regs, op, register(word));
    Outcome::Completed
}

// .. on a word: in line where it is a register.
#[inline(always)]
fn single_word<B: Bus, const CODE: u16>(
    regs: &mut Regs,
    undo: &mut Undo,
    bus: &mut B,
    op: Un,
    word: u16,
) -> Outcome
    requires code { look_up singles (word / 0o100) ≡ Some (op, Word) }
    requires form { HasSingle op Word }
    requires fresh { IsFresh undo.old }
    ensures reaches { Reaches (result_of result) regs.new (executed (B.shown (B.state bus.old)) (decode_of word) regs.old) }
    ensures count { B.references bus.new ≡ counted_on (B.references bus.old) (executed (B.shown (B.state bus.old)) (decode_of word) regs.old).made }
    ensures state { B.state bus.new ≡ left_by B.after (B.state bus.old) (executed (B.shown (B.state bus.old)) (decode_of word) regs.old).outcome }
    ensures undone { OnErr (result_of result) (undone undo.new regs.new ≡ undone undo.old regs.old) }
{
    if word >> 3 & 7 == 0 {
        single_register(regs, undo, bus, op, word)
    } else {
        single_in::<B, CODE>(regs, undo, bus, op, Width::Word, word)
    }
}

// A word of a branch.
#[inline(always)]
fn branch_in<B: Bus>(
    regs: &mut Regs,
    undo: &mut Undo,
    bus: &mut B,
    cond: Cond,
    word: u16,
) -> Outcome
    requires code { look_up branches (word / 0o400 * 4) ≡ Some cond }
    ensures reaches { Reaches (result_of result) regs.new (executed (B.shown (B.state bus.old)) (decode_of word) regs.old) }
    ensures count { B.references bus.new ≡ counted_on (B.references bus.old) (executed (B.shown (B.state bus.old)) (decode_of word) regs.old).made }
    ensures state { B.state bus.new ≡ left_by B.after (B.state bus.old) (executed (B.shown (B.state bus.old)) (decode_of word) regs.old).outcome }
    ensures undone { OnErr (result_of result) (undone undo.new regs.new ≡ undone undo.old regs.old) }
{
    branch(regs, cond, (word % 0o400) as u8);
    Outcome::Completed
}

// EMT: a call, with the number in the low eight bits of the word.
#[inline(always)]
fn call_in<B: Bus>(regs: &mut Regs, bus: &mut B, word: u16) -> Outcome
    requires code { word / 0o400 ≡ 0o210 }
    ensures reaches { Reaches (result_of result) regs.new (executed (B.shown (B.state bus.old)) (decode_of word) regs.old) }
    ensures count { B.references bus.new ≡ counted_on (B.references bus.old) (executed (B.shown (B.state bus.old)) (decode_of word) regs.old).made }
    ensures state { B.state bus.new ≡ left_by B.after (B.state bus.old) (executed (B.shown (B.state bus.old)) (decode_of word) regs.old).outcome }
    ensures regs { regs.new ≡ regs.old }
{
    Outcome::Called((word % 0o400) as u8)
}

// Any word, by its decoded form.
#[inline(never)]
#[tactic(auto, using(crate::proofs::CountSets::no_part), unfolding(bk_exec::specs::Exec::executed))]
fn decoded<B: Bus>(regs: &mut Regs, undo: &mut Undo, bus: &mut B, word: u16) -> Outcome
    requires fresh { IsFresh undo.old }
    ensures reaches { Reaches (result_of result) regs.new (executed (B.shown (B.state bus.old)) (decode_of word) regs.old) }
    ensures count { B.references bus.new ≡ counted_on (B.references bus.old) (executed (B.shown (B.state bus.old)) (decode_of word) regs.old).made }
    ensures state { B.state bus.new ≡ left_by B.after (B.state bus.old) (executed (B.shown (B.state bus.old)) (decode_of word) regs.old).outcome }
    ensures undone { OnErr (result_of result) (undone undo.new regs.new ≡ undone undo.old regs.old) }
{
    match decode(word) {
        None => Outcome::CutOff(Cause::Reserved),
        Some(instr) => outcome_of(execute(regs, undo, bus, instr)),
    }
}

// The words from 000000 to 003777.
#[inline(always)]
fn low_branches<B: Bus>(regs: &mut Regs, undo: &mut Undo, bus: &mut B, word: u16) -> Outcome
    requires fresh { IsFresh undo.old }
    ensures reaches { Reaches (result_of result) regs.new (executed (B.shown (B.state bus.old)) (decode_of word) regs.old) }
    ensures count { B.references bus.new ≡ counted_on (B.references bus.old) (executed (B.shown (B.state bus.old)) (decode_of word) regs.old).made }
    ensures state { B.state bus.new ≡ left_by B.after (B.state bus.old) (executed (B.shown (B.state bus.old)) (decode_of word) regs.old).outcome }
    ensures undone { OnErr (result_of result) (undone undo.new regs.new ≡ undone undo.old regs.old) }
{
    match word >> 8 {
        0o001 => branch_in(regs, undo, bus, Cond::Br, word),
        0o002 => branch_in(regs, undo, bus, Cond::Bne, word),
        0o003 => branch_in(regs, undo, bus, Cond::Beq, word),
        0o004 => branch_in(regs, undo, bus, Cond::Bge, word),
        0o005 => branch_in(regs, undo, bus, Cond::Blt, word),
        0o006 => branch_in(regs, undo, bus, Cond::Bgt, word),
        0o007 => branch_in(regs, undo, bus, Cond::Ble, word),
        _ => decoded(regs, undo, bus, word),
    }
}

// The words from 100000 to 103777.
#[inline(always)]
fn high_branches<B: Bus>(regs: &mut Regs, undo: &mut Undo, bus: &mut B, word: u16) -> Outcome
    requires fresh { IsFresh undo.old }
    ensures reaches { Reaches (result_of result) regs.new (executed (B.shown (B.state bus.old)) (decode_of word) regs.old) }
    ensures count { B.references bus.new ≡ counted_on (B.references bus.old) (executed (B.shown (B.state bus.old)) (decode_of word) regs.old).made }
    ensures state { B.state bus.new ≡ left_by B.after (B.state bus.old) (executed (B.shown (B.state bus.old)) (decode_of word) regs.old).outcome }
    ensures undone { OnErr (result_of result) (undone undo.new regs.new ≡ undone undo.old regs.old) }
{
    match word >> 8 {
        0o200 => branch_in(regs, undo, bus, Cond::Bpl, word),
        0o201 => branch_in(regs, undo, bus, Cond::Bmi, word),
        0o202 => branch_in(regs, undo, bus, Cond::Bhi, word),
        0o203 => branch_in(regs, undo, bus, Cond::Blos, word),
        0o204 => branch_in(regs, undo, bus, Cond::Bvc, word),
        0o205 => branch_in(regs, undo, bus, Cond::Bvs, word),
        0o206 => branch_in(regs, undo, bus, Cond::Bcc, word),
        0o207 => branch_in(regs, undo, bus, Cond::Bcs, word),
        _ => decoded(regs, undo, bus, word),
    }
}

// The words from 004000 to 007777.
#[inline(always)]
fn word_singles<B: Bus>(regs: &mut Regs, undo: &mut Undo, bus: &mut B, word: u16) -> Outcome
    requires fresh { IsFresh undo.old }
    ensures reaches { Reaches (result_of result) regs.new (executed (B.shown (B.state bus.old)) (decode_of word) regs.old) }
    ensures count { B.references bus.new ≡ counted_on (B.references bus.old) (executed (B.shown (B.state bus.old)) (decode_of word) regs.old).made }
    ensures state { B.state bus.new ≡ left_by B.after (B.state bus.old) (executed (B.shown (B.state bus.old)) (decode_of word) regs.old).outcome }
    ensures undone { OnErr (result_of result) (undone undo.new regs.new ≡ undone undo.old regs.old) }
{
    match word >> 6 {
        0o0050 => single_word::<B, 0o0050>(regs, undo, bus, Un::Clr, word),
        0o0051 => single_word::<B, 0o0051>(regs, undo, bus, Un::Com, word),
        0o0052 => single_word::<B, 0o0052>(regs, undo, bus, Un::Inc, word),
        0o0053 => single_word::<B, 0o0053>(regs, undo, bus, Un::Dec, word),
        0o0054 => single_word::<B, 0o0054>(regs, undo, bus, Un::Neg, word),
        0o0055 => single_word::<B, 0o0055>(regs, undo, bus, Un::Adc, word),
        0o0056 => single_word::<B, 0o0056>(regs, undo, bus, Un::Sbc, word),
        0o0057 => single_word::<B, 0o0057>(regs, undo, bus, Un::Tst, word),
        0o0060 => single_word::<B, 0o0060>(regs, undo, bus, Un::Ror, word),
        0o0061 => single_word::<B, 0o0061>(regs, undo, bus, Un::Rol, word),
        0o0062 => single_word::<B, 0o0062>(regs, undo, bus, Un::Asr, word),
        0o0063 => single_word::<B, 0o0063>(regs, undo, bus, Un::Asl, word),
        0o0067 => single_word::<B, 0o0067>(regs, undo, bus, Un::Sxt, word),
        _ => decoded(regs, undo, bus, word),
    }
}

// The words from 104400 to 107777.
#[inline(always)]
fn byte_singles<B: Bus>(regs: &mut Regs, undo: &mut Undo, bus: &mut B, word: u16) -> Outcome
    requires fresh { IsFresh undo.old }
    ensures reaches { Reaches (result_of result) regs.new (executed (B.shown (B.state bus.old)) (decode_of word) regs.old) }
    ensures count { B.references bus.new ≡ counted_on (B.references bus.old) (executed (B.shown (B.state bus.old)) (decode_of word) regs.old).made }
    ensures state { B.state bus.new ≡ left_by B.after (B.state bus.old) (executed (B.shown (B.state bus.old)) (decode_of word) regs.old).outcome }
    ensures undone { OnErr (result_of result) (undone undo.new regs.new ≡ undone undo.old regs.old) }
{
    match word >> 6 {
        0o1050 => single_in::<B, 0o1050>(regs, undo, bus, Un::Clr, Width::Byte, word),
        0o1051 => single_in::<B, 0o1051>(regs, undo, bus, Un::Com, Width::Byte, word),
        0o1052 => single_in::<B, 0o1052>(regs, undo, bus, Un::Inc, Width::Byte, word),
        0o1053 => single_in::<B, 0o1053>(regs, undo, bus, Un::Dec, Width::Byte, word),
        0o1054 => single_in::<B, 0o1054>(regs, undo, bus, Un::Neg, Width::Byte, word),
        0o1055 => single_in::<B, 0o1055>(regs, undo, bus, Un::Adc, Width::Byte, word),
        0o1056 => single_in::<B, 0o1056>(regs, undo, bus, Un::Sbc, Width::Byte, word),
        0o1057 => single_in::<B, 0o1057>(regs, undo, bus, Un::Tst, Width::Byte, word),
        0o1060 => single_in::<B, 0o1060>(regs, undo, bus, Un::Ror, Width::Byte, word),
        0o1061 => single_in::<B, 0o1061>(regs, undo, bus, Un::Rol, Width::Byte, word),
        0o1062 => single_in::<B, 0o1062>(regs, undo, bus, Un::Asr, Width::Byte, word),
        0o1063 => single_in::<B, 0o1063>(regs, undo, bus, Un::Asl, Width::Byte, word),
        _ => decoded(regs, undo, bus, word),
    }
}

/// A word that has been fetched, as the instruction that it is.
#[inline(always)]
pub(crate) fn execute_word<B: Bus>(
    regs: &mut Regs,
    undo: &mut Undo,
    bus: &mut B,
    word: u16,
) -> Outcome
    requires fresh { IsFresh undo.old }
    ensures reaches { Reaches (result_of result) regs.new (executed (B.shown (B.state bus.old)) (decode_of word) regs.old) }
    ensures count { B.references bus.new ≡ counted_on (B.references bus.old) (executed (B.shown (B.state bus.old)) (decode_of word) regs.old).made }
    ensures state { B.state bus.new ≡ left_by B.after (B.state bus.old) (executed (B.shown (B.state bus.old)) (decode_of word) regs.old).outcome }
    ensures undone { OnErr (result_of result) (undone undo.new regs.new ≡ undone undo.old regs.old) }
{
    // All sixteen values are named, so that the host's jump asks for no bound.
    match word >> 12 {
        0o00 => {
            if word < 0o004000 {
                low_branches(regs, undo, bus, word)
            } else {
                word_singles(regs, undo, bus, word)
            }
        }
        0o01 => double_word::<B, 0o01>(regs, undo, bus, Bin::Mov, word),
        0o02 => double_word::<B, 0o02>(regs, undo, bus, Bin::Cmp, word),
        0o03 => double_word::<B, 0o03>(regs, undo, bus, Bin::Bit, word),
        0o04 => double_word::<B, 0o04>(regs, undo, bus, Bin::Bic, word),
        0o05 => double_word::<B, 0o05>(regs, undo, bus, Bin::Bis, word),
        0o06 => double_word::<B, 0o06>(regs, undo, bus, Bin::Add, word),
        0o10 => {
            if word < 0o104000 {
                high_branches(regs, undo, bus, word)
            } else if word < 0o104400 {
                call_in(regs, bus, word)
            } else {
                byte_singles(regs, undo, bus, word)
            }
        }
        0o11 => double_in::<B, 0o11>(regs, undo, bus, Bin::Mov, Width::Byte, word),
        0o12 => double_in::<B, 0o12>(regs, undo, bus, Bin::Cmp, Width::Byte, word),
        0o13 => double_in::<B, 0o13>(regs, undo, bus, Bin::Bit, Width::Byte, word),
        0o14 => double_in::<B, 0o14>(regs, undo, bus, Bin::Bic, Width::Byte, word),
        0o15 => double_in::<B, 0o15>(regs, undo, bus, Bin::Bis, Width::Byte, word),
        0o16 => double_word::<B, 0o16>(regs, undo, bus, Bin::Sub, word),
        0o07 => decoded(regs, undo, bus, word),
        0o17 => decoded(regs, undo, bus, word),
        _ => decoded(regs, undo, bus, word),
    }
}
