// Where statements stand, and what they define.

ghost use Rattle.std.specs.Prelude.{◌≡◌, ◌≤◌, ◌<◌, ◌+◌, ◌*◌, ◌%◌, ◌^◌, ◌==◌, ◌∷◌, [], ℕ, List, if◌then◌else◌, nat_lt, map, IfSome, IfOk, IfErr, OnOk, Ok};
ghost use Rattle.std.specs.List.{list_any};
ghost use Rattle.bk_base.specs.Faults.{first_failing, Gives, Refuses};
ghost use Rattle.bk_asm_text.specs.Fault.{fault_at};
ghost use Rattle.bk_asm_text.specs.Flat.{body_with, plain_label, plain_statement, plain_statements};
ghost use Rattle.bk_expr.specs.Tree.{Expression, plain};
ghost use Rattle.bk_asm_text.specs.declared.fault.AsmKind.TheVariants as kind;
ghost use Rattle.bk_asm.specs.Faults as faults;
ghost use Rattle.bk_asm.specs.Names as names;
ghost use Rattle.bk_asm.specs.Pieces as pieces;
ghost use Rattle.bk_asm.specs.Places as places;
ghost use Rattle.bk_asm.specs.Seen.{at_most, given_by, seen, plain_known, plain_placed};

use crate::site::Site;
use crate::size::form_size;
use crate::table::{Scope, Table};
use bk_asm_text::{AsmFault, AsmKind, AsmStop, Body, Expr, Label, Statement, Statements};
use bk_base::NoMemory;
use bk_expr::Worked;
use std::alloc::Global;

/// A statement at its place, with its size in bytes.
#[derive(Clone, Copy)]
pub(crate) struct Placed<'a> {
    pub(crate) statement: Statement<'a>,
    pub(crate) address: u32,
    pub(crate) range: usize,
    pub(crate) size: u32,
}

/// Behind some statements: the address, the range, and what they define.
#[derive(Drop)]
pub(crate) struct Known {
    pub(crate) address: u32,
    pub(crate) range: usize,
    pub(crate) table: Table,
}

/// An address as a value.
pub(crate) fn as_value(address: u32) -> u16
    ensures { result ≡ places.as_value address }
{
    (address % 0x1_0000) as u16
}

fn has_ordinary(labels: &[Label<'_>]) -> bool
    ensures { result ≡ list_any names.is_ordinary (map plain_label labels.now) }
{
    for label in labels {
        if matches!(label, Label::Name(_)) {
            return true;
        }
    }
    false
}

// The range of a statement behind another range.
fn range_at(range: usize, statement: &Statement<'_>) -> usize
    requires { range + 1 < 2 ^ 64 }
    ensures value { result ≡ (if list_any names.is_ordinary (map plain_label statement.now.labels.now) then range + 1 else range) }
    ensures near { result ≤ range + 1 }
{
    if has_ordinary(statement.labels) {
        range + 1
    } else {
        range
    }
}

// Whether a statement's bytes are words.
fn is_in_words(body: &Body<'_>) -> bool
    ensures { (values : List Expression) → result ≡ faults.is_in_words (pieces.role_of (body_with body.now values)) }
{
    !matches!(
        body,
        Body::Nothing | Body::Assign { .. } | Body::ByteList | Body::Ascii { .. } | Body::Even
    )
}

// What the expression of an assignment or of .BLKW comes to.
fn settled(site: &Site<'_>, body: &Body<'_>, values: &[Expr]) -> Result<Worked, NoMemory>
    ensures { IfOk result (λ found. found ≡ places.settled_by (given_by site.now.scope) site.now.here (pieces.role_of (body_with body.now (map plain values.now)))) }
{
    match body {
        Body::Assign { .. } | Body::Blkw => site.first_worked(values),
        _ => Ok(Worked::Value(0)),
    }
}

/// The number of what was worked, or 0.
pub(crate) fn number_in(worked: Worked) -> u16
    ensures { result ≡ places.number_in worked }
{
    match worked {
        Worked::Value(n) => n,
        Worked::Undefined | Worked::Divide => 0,
    }
}

pub(crate) fn is_undefined(worked: Worked) -> bool
    ensures { result ≡ faults.is_undefined worked }
{
    matches!(worked, Worked::Undefined)
}

pub(crate) fn divides_by_zero(worked: Worked) -> bool
    ensures { result ≡ faults.divides_by_zero worked }
{
    matches!(worked, Worked::Divide)
}

// A size where it is at most 8,192 bytes.
fn small(size: u32) -> Option<u32>
    ensures size { result ≡ at_most size }
    ensures few { IfSome result (λ size. size ≤ 8192) }
{
    if size > 8192 { None } else { Some(size) }
}

// The size of a statement, where it is at most 8,192 bytes.
fn size_at(address: u32, count: Worked, body: &Body<'_>, values: &[Expr]) -> Option<u32>
    ensures size { result ≡ at_most (places.size_by address (pieces.form_size (body_with body.now (map plain values.now))) count
        (pieces.role_of (body_with body.now (map plain values.now)))) }
    ensures few { IfSome result (λ size. size ≤ 8192) }
{
    match body {
        Body::Assign { .. } => Some(0),
        Body::Blkw => small(2 * u32::from(number_in(count))),
        Body::Even => Some(address % 2),
        _ => form_size(body, values),
    }
}

// Whether a statement of a size, which is told where it is at most 8,192 bytes, ends past what a program may have.
fn is_past(origin: u16, address: u32, size: Option<u32>) -> bool
    requires from { origin ≤ address }
    requires within { address ≤ 2 ^ 16 }
    requires few { IfSome size (λ n. n ≤ 8192) }
    ensures { (exact : ℕ) → size ≡ at_most exact → result ≡ nat_lt (faults.limit origin) (address + exact) }
{
    match size {
        None => true,
        Some(size) => address + size > (u32::from(origin) + 8192).min(0x1_0000),
    }
}

// The first of a statement's checks that fails.
fn check(line: u32, doubled: bool, odd: bool, worked: Worked, past: bool) -> Result<(), AsmFault>
    ensures { result ≡ first_failing (fault_at line) ((kind.Doubled, doubled) ∷ (kind.Odd, odd) ∷ (kind.Undefined, faults.is_undefined worked)
        ∷ (kind.Size, past) ∷ (kind.Divide, faults.divides_by_zero worked) ∷ []) }
{
    let kind = if doubled {
        AsmKind::Doubled
    } else if odd {
        AsmKind::Odd
    } else if is_undefined(worked) {
        AsmKind::Undefined
    } else if past {
        AsmKind::Size
    } else if divides_by_zero(worked) {
        AsmKind::Divide
    } else {
        return Ok(());
    };
    Err(AsmFault { line, kind })
}

// An assignment gives its name the value. Answers whether the name had one already.
fn assign(
    table: &mut Table,
    alloc: Global,
    worked: Worked,
    body: &Body<'_>,
) -> Result<bool, NoMemory>
    ensures assigned { (values : List Expression) → OnOk result (seen table.new ≡ places.assigned (seen table.old) worked (pieces.role_of (body_with body.now values))) }
    ensures again { (values : List Expression) → IfOk result (λ again. again ≡ faults.is_assigned_again (seen table.old) (pieces.role_of (body_with body.now values))) }
{
    match body {
        Body::Assign { name } => {
            let had = table.set_name(alloc, name, number_in(worked))?;
            Ok(had.is_some())
        }
        _ => Ok(false),
    }
}

impl Known {
    // The statement behind these at its place, where no check of it fails.
    fn place<'a>(
        &mut self,
        alloc: Global,
        origin: u16,
        statement: Statement<'a>,
    ) -> Result<Placed<'a>, AsmStop>
        requires from { origin ≤ self.old.address }
        requires within { self.old.address ≤ 2 ^ 16 }
        requires room { self.old.range + 1 < 2 ^ 64 }
        ensures placed { IfOk result (λ placed. plain_placed placed ≡ places.placed (plain_known self.old) (plain_statement statement.entry)) }
        ensures passed { OnOk result (faults.checked origin (plain_known self.old) (plain_statement statement.entry) ≡ Ok tt) }
        ensures after { OnOk result (plain_known self.new ≡ places.after (plain_known self.old) (plain_statement statement.entry)) }
        ensures bad { IfErr result (λ stop. Refuses stop (faults.checked origin (plain_known self.old) (plain_statement statement.entry))) }
        ensures from { OnOk result (origin ≤ self.new.address) }
        ensures within { OnOk result (self.new.address ≤ 2 ^ 16) }
        ensures near { OnOk result (self.new.range ≤ self.old.range + 1) }
    {
        let (body, values) = (&statement.body, statement.values);
        let range = range_at(self.range, &statement);
        let here = as_value(self.address);
        let repeated = self.table.set_labels(alloc, range, statement.labels, here)?;
        let odd = is_in_words(body) && self.address % 2 == 1;
        let site = Site {
            alloc,
            scope: Scope {
                table: &self.table,
                range,
            },
            here,
        };
        let worked = settled(&site, body, values)?;
        let again = assign(&mut self.table, alloc, worked, body)?;
        let doubled = repeated || again;
        let size = size_at(self.address, worked, body, values);
        let past = is_past(origin, self.address, size);
        if let Err(fault) = check(statement.line, doubled, odd, worked, past) {
            return Err(AsmStop::Bad(fault));
        }
        let size = size.unwrap_or(0);
        let placed = Placed {
            statement,
            address: self.address,
            range,
            size,
        };
        self.address += size;
        self.range = range;
        Ok(placed)
    }
}

/// Each statement at its place, and what all of them define; or the first fault, line by line.
pub(crate) fn settle<'a>(
    alloc: Global,
    origin: u16,
    statements: &'a Statements<'_>,
) -> Result<(Vec<Placed<'a>>, Table), AsmStop>
    ensures { Gives (λ settled. (map plain_placed settled.0.items, seen settled.1)) result
        (faults.settle origin [] (places.start origin) (plain_statements statements.now)) }
{
    let mut placed = Vec::with_capacity(alloc, statements.len())?;
    let mut known = Known {
        address: u32::from(origin),
        range: 0,
        table: Table::new(alloc),
    };
    let mut rest = statements.all();
    'statements: while let Some(statement) = rest.next() {
        let one = known.place(alloc, origin, statement)?;
        placed.push(one)?;
    }
    Ok((placed, known.table))
}
