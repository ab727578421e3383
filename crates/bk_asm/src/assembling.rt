// A text as a program.

ghost use Rattle.std.specs.Prelude.{◌≡◌, ◌%◌, IfOk, Ok, Err};
ghost use Rattle.bk_base.specs.Faults.{Gives};
ghost use Rattle.bk_base.specs.declared.stop.Stop.TheVariants.{Bad};
ghost use Rattle.bk_asm_text.specs.declared.fault.AsmFault.{AsmFault};
ghost use Rattle.bk_asm.specs.Assembled.{assembled};

use crate::code::code;
use crate::place::settle;
use crate::program::{Program, words_of};
use bk_asm_text::{AsmStop, split_front};
use std::alloc::Global;

// The program that assembly text is, or why there is none.
fn assemble_text(alloc: Global, text: &[u8], origin: u16) -> Result<Program, AsmStop>
    ensures { Gives (λ program. program) result (assembled text.now origin) }
{
    let front = split_front(alloc, text)?;
    let fault = front.fault;
    let (placed, table) = settle(alloc, origin, &front.statements)?;
    if let Some(fault) = fault {
        return Err(AsmStop::Bad(fault));
    }
    let bytes = code(alloc, &table, placed.as_slice())?;
    let words = words_of(alloc, bytes.as_slice())?;
    let symbols = table.into_symbols(alloc)?;
    Ok(Program {
        origin,
        words,
        symbols,
    })
}

/// The program that assembly text is, its first word at an even address.
///
/// `Bad` comes exactly with the first fault: line by line, a line outside the grammar, a name or a local label that is defined
/// again, words at an odd address, an assignment or .BLKW that names what isn't defined before it, a program past 8,192 bytes or
/// past address 65,536, and such an assignment's division by 0; and where none of these is, line by line, a name or a local label
/// that isn't defined, a division by 0, and a value out of the range of its field. It takes memory for the statements, the names
/// and the words.
pub fn assemble(alloc: Global, text: &[u8], origin: u16) -> Result<Program, AsmStop>
    requires { origin % 2 ≡ 0 }
    ensures ok { IfOk result (λ program. assembled text.now origin ≡ Ok program) }
    ensures bad { (fault : AsmFault) → result ≡ Err (Bad fault) → assembled text.now origin ≡ Err fault }
{
    assemble_text(alloc, text, origin)
}
