// The bytes of a statement's pieces, one behind another.

ghost use Rattle.std.specs.Prelude.{◌≡◌, ◌++◌, ◌∷◌, [], ℕ, drop, map, OnOk};
ghost use Rattle.bk_asm_text.specs.Flat.{behind_operand, body_with, first, operand_with};
ghost use Rattle.bk_expr.specs.Tree.{Expression, plain};
ghost use Rattle.bk_expr.specs.Value.{Values};
ghost use Rattle.bk_asm.specs.Pieces as pieces;
ghost use Rattle.bk_asm.specs.Seen.{given_by, piece_of, written_so};
ghost use Rattle.bk_asm.specs.Written.{all_written, begun, written, written_by};

use crate::piece::{
    Kind, behind, field, is_in_range, push_bytes, push_piece, push_word, with_fields,
};
use crate::place::{divides_by_zero, is_undefined, number_in};
use crate::site::Site;
use bk_asm_text::{Body, Expr, Operand};
use bk_base::NoMemory;
use bk_expr::Worked;
use std::alloc::Global;

/// What fails in a statement's pieces.
#[derive(Clone, Copy)]
pub(crate) struct Failing {
    pub(crate) undefined: bool,
    pub(crate) divides: bool,
    pub(crate) beyond: bool,
}

/// The bytes so far, the address behind them, and what fails in the pieces of the last statement.
#[derive(Drop)]
pub(crate) struct Coding {
    pub(crate) bytes: Vec<u8>,
    pub(crate) at: u16,
    pub(crate) failing: Failing,
}

impl Coding {
    /// Nothing yet.
    pub(crate) fn new(alloc: Global) -> Coding
        ensures { result.bytes.items ≡ [] }
    {
        Coding {
            bytes: Vec::new(alloc),
            at: 0,
            failing: Failing {
                undefined: false,
                divides: false,
                beyond: false,
            },
        }
    }

    /// A statement at an address begins.
    #[inline(always)]
    pub(crate) fn begin(&mut self, here: u16)
        ensures { written_so self.new ≡ begun self.old.bytes.items here }
    {
        self.at = here;
        self.failing = Failing {
            undefined: false,
            divides: false,
            beyond: false,
        };
    }

    // A word without an expression behind the others.
    #[inline(always)]
    fn put_fixed(&mut self, word: u16) -> Result<(), NoMemory>
        ensures { (values : Values) (here : ℕ) → OnOk result (written_so self.new ≡ written values here (written_so self.old) (pieces.Fixed word)) }
    {
        push_word(&mut self.bytes, word)?;
        self.at = self.at.wrapping_add(2);
        Ok(())
    }

    // The bytes of a string behind the others.
    fn put_text(&mut self, text: &[u8]) -> Result<(), NoMemory>
        ensures { (values : Values) (here : ℕ) → OnOk result (written_so self.new ≡ written values here (written_so self.old) (pieces.Text text.now)) }
    {
        push_bytes(&mut self.bytes, text)?;
        self.at = self.at.wrapping_add((text.len() % 0x1_0000) as u16);
        Ok(())
    }

    // A piece of a statement at an address behind the others, by what its expression comes to.
    #[inline(always)]
    fn put_worked(&mut self, here: u16, kind: Kind, found: Worked) -> Result<(), NoMemory>
        ensures { (value : Expression) → OnOk result (written_so self.new ≡ written_by here (written_so self.old) (piece_of kind value) found) }
    {
        let n = number_in(found);
        push_piece(&mut self.bytes, kind, self.at, n)?;
        self.at = behind(kind, self.at);
        self.failing = Failing {
            undefined: is_undefined(found) || self.failing.undefined,
            divides: divides_by_zero(found) || self.failing.divides,
            beyond: !is_in_range(kind, here, n) || self.failing.beyond,
        };
        Ok(())
    }

    // A piece by its expression behind the others.
    fn put(&mut self, site: &Site<'_>, kind: Kind, value: &Expr) -> Result<(), NoMemory>
        ensures { OnOk result (written_so self.new ≡ written (given_by site.now.scope) site.now.here (written_so self.old) (piece_of kind (plain value.now))) }
    {
        let found = site.worked(value)?;
        self.put_worked(site.here, kind, found)
    }

    // A piece by the first of a statement's expressions behind the others.
    #[inline(always)]
    fn put_first(&mut self, site: &Site<'_>, kind: Kind, values: &[Expr]) -> Result<(), NoMemory>
        ensures { OnOk result (written_so self.new ≡ written (given_by site.now.scope) site.now.here (written_so self.old)
            (piece_of kind (first (map plain values.now)))) }
    {
        let found = site.first_worked(values)?;
        self.put_worked(site.here, kind, found)
    }

    // A piece for each expression behind the others.
    #[inline(never)]
    fn put_each(&mut self, site: &Site<'_>, kind: Kind, values: &[Expr]) -> Result<(), NoMemory>
        ensures { OnOk result (written_so self.new ≡ all_written (given_by site.now.scope) site.now.here (written_so self.old)
            (map (piece_of kind) (map plain values.now))) }
    {
        for value in values {
            self.put(site, kind, value)?;
        }
        Ok(())
    }

    // The word of an operand, where it has one, behind the others.
    #[inline(always)]
    fn put_operand(
        &mut self,
        site: &Site<'_>,
        operand: Operand,
        values: &[Expr],
    ) -> Result<(), NoMemory>
        ensures { OnOk result (written_so self.new ≡ all_written (given_by site.now.scope) site.now.here (written_so self.old)
            (pieces.operand_word (operand_with operand (map plain values.now)))) }
    {
        match operand {
            Operand::Reg(_)
            | Operand::Deferred(_)
            | Operand::Inc(_)
            | Operand::IncDeferred(_)
            | Operand::Dec(_)
            | Operand::DecDeferred(_) => Ok(()),
            Operand::Index(_)
            | Operand::IndexDeferred(_)
            | Operand::Immediate
            | Operand::Absolute => self.put_first(site, Kind::Value, values),
            Operand::IndexZero(_) => self.put_fixed(0),
            Operand::Relative | Operand::RelativeDeferred => {
                self.put_first(site, Kind::Distance, values)
            }
        }
    }

    // An instruction's word and that of its operand behind the others.
    #[inline(always)]
    fn put_one(
        &mut self,
        site: &Site<'_>,
        word: u16,
        operand: Operand,
        values: &[Expr],
    ) -> Result<(), NoMemory>
        ensures { OnOk result (written_so self.new ≡ all_written (given_by site.now.scope) site.now.here (written_so self.old)
            (pieces.Fixed word ∷ pieces.operand_word (operand_with operand (map plain values.now)))) }
    {
        self.put_fixed(word)?;
        self.put_operand(site, operand, values)
    }

    // An instruction's word and those of its two operands behind the others.
    #[inline(always)]
    fn put_two(
        &mut self,
        site: &Site<'_>,
        word: u16,
        src: Operand,
        dst: Operand,
        values: &[Expr],
    ) -> Result<(), NoMemory>
        ensures { OnOk result (written_so self.new ≡ all_written (given_by site.now.scope) site.now.here (written_so self.old)
            (pieces.Fixed word ∷ pieces.operand_word (operand_with src (map plain values.now))
            ++ pieces.operand_word (operand_with dst (behind_operand src (map plain values.now))))) }
    {
        self.put_one(site, word, src, values)?;
        self.put_operand(site, dst, behind_values(src, values))
    }

    // The bytes of a string, and a zero byte where one is wanted, behind the others.
    fn put_string(&mut self, text: &[u8], zero: bool) -> Result<(), NoMemory>
        ensures { (values : Values) (here : ℕ) → OnOk result (written_so self.new ≡ all_written values here (written_so self.old)
            (pieces.Text text.now ∷ pieces.zero_byte zero)) }
    {
        self.put_text(text)?;
        if zero { self.put_text(b"\0") } else { Ok(()) }
    }

    /// The pieces of a statement behind the others.
    pub(crate) fn put_body(
        &mut self,
        site: &Site<'_>,
        body: &Body<'_>,
        values: &[Expr],
    ) -> Result<(), NoMemory>
        ensures { OnOk result (written_so self.new ≡ all_written (given_by site.now.scope) site.now.here (written_so self.old)
            (pieces.pieces_of (body_with body.now (map plain values.now)))) }
    {
        match *body {
            Body::Nothing | Body::Assign { .. } | Body::Blkw | Body::Even => Ok(()),
            Body::Double { base, src, dst } => {
                let word = with_fields(base, field(src), field(dst));
                self.put_two(site, word, src, dst, values)
            }
            Body::Eis { base, src, reg } => {
                let word = with_fields(base, u16::from(reg), field(src));
                self.put_one(site, word, src, values)
            }
            Body::Xor { reg, dst } => {
                let word = 0o074000 + u16::from(reg) * 0o100 + field(dst);
                self.put_one(site, word, dst, values)
            }
            Body::Jsr { reg, dst } => {
                let word = 0o004000 + u16::from(reg) * 0o100 + field(dst);
                self.put_one(site, word, dst, values)
            }
            Body::Single { base, dst } => {
                let word = with_fields(base, 0, field(dst));
                self.put_one(site, word, dst, values)
            }
            Body::Rts { reg } => self.put_fixed(0o000200 + u16::from(reg)),
            Body::Sob { reg } => {
                let word = 0o077000 + u16::from(reg) * 0o100;
                self.put_first(site, Kind::Back(word), values)
            }
            Body::Branch { base } => self.put_first(site, Kind::Branch(base), values),
            Body::Mark => self.put_first(site, Kind::Number(0o006400, 0o100), values),
            Body::Spl => self.put_first(site, Kind::Number(0o000230, 0o10), values),
            Body::Number { base, given: true } => {
                self.put_first(site, Kind::Number(base, 0o400), values)
            }
            Body::Number { base, given: false } => self.put_fixed(base),
            Body::Alone { base } => self.put_fixed(base),
            Body::WordList => self.put_each(site, Kind::Value, values),
            Body::ByteList => self.put_each(site, Kind::Byte, values),
            Body::Ascii { text, zero } => self.put_string(text, zero),
        }
    }
}

// The expressions behind those of an operand.
#[inline(always)]
fn behind_values(operand: Operand, values: &[Expr]) -> &[Expr]
    ensures { map plain result.now ≡ behind_operand operand (map plain values.now) }
{
    match operand {
        Operand::Reg(_)
        | Operand::Deferred(_)
        | Operand::Inc(_)
        | Operand::IncDeferred(_)
        | Operand::Dec(_)
        | Operand::DecDeferred(_)
        | Operand::IndexZero(_) => values,
        _ => others(values),
    }
}

// All but the first.
#[inline(always)]
fn others(values: &[Expr]) -> &[Expr]
    ensures { result.now ≡ drop 1 values.now }
{
    match values {
        [] => values,
        [_, others @ ..] => others,
    }
}
