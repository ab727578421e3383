ghost use Rattle.std.specs.Prelude.{◌≡◌, ◌<◌, ◌^◌};
ghost use Rattle.bk_space.specs.AddrSpace.{page_number, offset_of, is_odd, refused, unless};
ghost use Rattle.bk_space.specs.Parts.{byte_in, merged};
ghost use Rattle.bk_space.specs.Widths.{bits_of};

use crate::reference::{Abort, Mode, Rights, Space, Width};

/// How many pages a process has: one for each mode, space, and value of an address's bits 15 to 13.
pub const PAGES: u8 = 32;

/// The number of the page that an address chooses, 0 to 31.
pub fn page_number(mode: Mode, space: Space, addr: u16) -> u8
    ensures value { result ≡ page_number mode space addr }
    ensures small { result < PAGES }
{
    let mode = match mode {
        Mode::Supervisor => 0,
        Mode::User => 16,
    };
    let space = match space {
        Space::I => 0,
        Space::D => 8,
    };
    mode + space + (addr / 8192) as u8
}

/// The byte offset of an address in its page, 0 to 8,191.
pub fn offset_of(addr: u16) -> u16
    ensures { result ≡ offset_of addr }
{
    addr % 8192
}

/// Whether this is a word at an odd address.
pub fn is_odd(width: Width, addr: u16) -> bool
    ensures { result ≡ is_odd width addr }
{
    match width {
        Width::Word => addr % 2 == 1,
        Width::Byte => false,
    }
}

/// What a page of these rights and so many words answers to a reference: Ok where it completes, or
/// the first abort of odd, non-resident, length, read-only.
pub fn answer(
    rights: Rights,
    words: usize,
    width: Width,
    addr: u16,
    writes: bool,
) -> Result<(), Abort>
    ensures { result ≡ unless (refused rights words width addr writes) tt }
{
    if is_odd(width, addr) {
        return Err(Abort::Odd);
    }
    if matches!(rights, Rights::None) {
        return Err(Abort::NonResident);
    }
    if words <= usize::from(offset_of(addr) / 2) {
        return Err(Abort::Length);
    }
    if writes && matches!(rights, Rights::Read) {
        return Err(Abort::ReadOnly);
    }
    Ok(())
}

/// The byte of a word that stands at the address: the low one at an even address.
pub fn byte_in(addr: u16, word: u16) -> u8
    ensures { result ≡ byte_in addr word }
{
    if addr % 2 == 0 {
        (word % 256) as u8
    } else {
        (word / 256) as u8
    }
}

/// A word once a value is written at the address: the value itself, or the word with one of its bytes
/// replaced. The value is of the width.
pub fn merged(width: Width, addr: u16, value: u16, word: u16) -> u16
    requires { value < 2 ^ bits_of width }
    ensures { result ≡ merged width addr value word }
{
    match width {
        Width::Word => value,
        Width::Byte => {
            if addr % 2 == 0 {
                word / 256 * 256 + value
            } else {
                value * 256 + word % 256
            }
        }
    }
}
