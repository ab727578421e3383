// The bytes of statements.

ghost use Rattle.std.specs.Prelude.{◌≡◌, ◌++◌, ◌∷◌, [], List, map, replicate, IfErr, OnOk, Ok};
ghost use Rattle.bk_base.specs.Faults.{first_failing, Gives, Refuses};
ghost use Rattle.bk_expr.specs.Tree.{Expression};
ghost use Rattle.bk_asm_text.specs.Fault.{fault_at};
ghost use Rattle.bk_asm_text.specs.Flat.{body_with};
ghost use Rattle.bk_asm_text.specs.declared.fault.AsmKind.TheVariants as kind;
ghost use Rattle.bk_asm.specs.Codes as codes;
ghost use Rattle.bk_asm.specs.Pieces as pieces;
ghost use Rattle.bk_asm.specs.Seen.{seen, plain_placed};

use crate::piece::push_bytes;
use crate::place::{Placed, as_value};
use crate::putting::{Coding, Failing};
use crate::site::Site;
use crate::table::{Scope, Table};
use bk_asm_text::{AsmFault, AsmKind, AsmStop, Body};
use bk_base::NoMemory;
use std::alloc::Global;

// Zero bytes behind others.
fn put_zeros(out: &mut Vec<u8>, count: u32) -> Result<(), NoMemory>
    ensures { OnOk result (out.new.items ≡ out.old.items ++ replicate count 0) }
{
    for _i in 0..count {
        push_bytes(out, &[0])?;
    }
    Ok(())
}

// The first of a statement's checks that fails.
fn check(line: u32, failing: Failing) -> Result<(), AsmFault>
    ensures { result ≡ first_failing (fault_at line) ((kind.Undefined, failing.undefined) ∷ (kind.Divide, failing.divides)
        ∷ (kind.Range, failing.beyond) ∷ []) }
{
    let kind = if failing.undefined {
        AsmKind::Undefined
    } else if failing.divides {
        AsmKind::Divide
    } else if failing.beyond {
        AsmKind::Range
    } else {
        return Ok(());
    };
    Err(AsmFault { line, kind })
}

// The zero bytes of .BLKW and .EVEN behind others.
#[inline(always)]
fn put_filling(out: &mut Vec<u8>, size: u32, body: &Body<'_>) -> Result<(), NoMemory>
    ensures { (values : List Expression) → OnOk result (out.new.items ≡ out.old.items ++ codes.zeros_of size (pieces.role_of (body_with body.now values))) }
{
    match body {
        Body::Blkw | Body::Even => put_zeros(out, size),
        _ => Ok(()),
    }
}

// The bytes of a statement behind others, or its fault.
fn put_statement(
    alloc: Global,
    coding: &mut Coding,
    table: &Table,
    placed: &Placed<'_>,
) -> Result<(), AsmStop>
    ensures ok { OnOk result (codes.coded_behind (seen table.now) coding.old.bytes.items (plain_placed placed.now) ≡ Ok coding.new.bytes.items) }
    ensures bad { IfErr result (λ stop. Refuses stop (codes.coded_at (seen table.now) (plain_placed placed.now))) }
{
    let statement = &placed.statement;
    let site = Site {
        alloc,
        scope: Scope {
            table,
            range: placed.range,
        },
        here: as_value(placed.address),
    };
    coding.begin(site.here);
    coding.put_body(&site, &statement.body, statement.values)?;
    if let Err(fault) = check(statement.line, coding.failing) {
        return Err(AsmStop::Bad(fault));
    }
    put_filling(&mut coding.bytes, placed.size, &statement.body)?;
    Ok(())
}

/// The bytes of statements one behind another, or the first fault.
pub(crate) fn code(alloc: Global, table: &Table, placed: &[Placed<'_>]) -> Result<Vec<u8>, AsmStop>
    ensures { Gives (λ out. out.items) result (codes.coded (seen table.now) [] (map plain_placed placed.now)) }
{
    let mut coding = Coding::new(alloc);
    for one in placed {
        put_statement(alloc, &mut coding, table, one)?;
    }
    Ok(coding.bytes)
}
