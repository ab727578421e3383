// What is typed: one byte in each slot, by a sequence of numbers.

ghost use Rattle.std.specs.Prelude.{◌≡◌, IfOk};
ghost use Rattle.bk_gen.specs.Numbers.{number_after};
ghost use Rattle.bk_gen.specs.Script.{typed_by, typed_below, generated_script};

use crate::subject::LEVELS;
use bk_base::Bytes;
use bk_system::{Script, TypedAt, TypedList};
use std::alloc::{AllocError, Global};

/// How many slots a script has.
const SLOTS: u32 = 4096;

// The number that follows: a linear congruence modulo 2^32.
fn number_after(x: u32) -> u32
    ensures next { result ≡ number_after x }
{
    x.wrapping_mul(1_664_525).wrapping_add(1_013_904_223)
}

// What a number types in a slot.
fn typed_by(alloc: Global, slot: u32, x: u32) -> Result<TypedAt, AllocError>
    ensures typed { IfOk result (λ typed. typed ≡ typed_by slot x) }
{
    let high = x / 65536;
    let line = (high % u32::from(LEVELS)) as u8;
    let byte = (32 + high / 4 % 95) as u8;
    Ok(TypedAt {
        slot,
        line,
        bytes: Bytes::from_vec(vec![in alloc; byte]?),
    })
}

// What the number after x types in a slot; x is that number then.
fn typed_next(alloc: Global, slot: u32, x: &mut u32) -> Result<TypedAt, AllocError>
    ensures number { x.new ≡ number_after x.old }
    ensures typed { IfOk result (λ typed. typed ≡ typed_by slot (number_after x.old)) }
{
    *x = number_after(*x);
    typed_by(alloc, slot, *x)
}

// What is typed in the first slots.
fn typed_below(alloc: Global, n: u32, slots: u32) -> Result<Vec<TypedAt>, AllocError>
    ensures all { IfOk result (λ typed. typed.items ≡ typed_below n slots) }
{
    let mut typed = Vec::new(alloc);
    let mut x = n;
    for slot in 0..slots {
        typed.push(typed_next(alloc, slot, &mut x)?)?;
    }
    Ok(typed)
}

/// The script that begins with the number.
#[tactic(auto, unfolding(crate::specs::Script::generated_script))]
pub(crate) fn script(alloc: Global, n: u32) -> Result<Script, AllocError>
    ensures { IfOk result (λ script. script ≡ generated_script n) }
{
    Ok(Script {
        slots: SLOTS,
        typed: TypedList::from_vec(typed_below(alloc, n, SLOTS)?),
    })
}
