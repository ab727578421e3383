ghost use Rattle.std.specs.Prelude.{◌≡◌, ◌<◌, ◌^◌};
ghost use Rattle.bk_space.specs.Widths.{bits_of};
ghost use Rattle.bk_isa.specs.Results.{turned, binary_of};

use crate::exact::{add, move_value, subtract};
use bk_isa::Bin;
use bk_space::{Flags, Width};

/// All bits turned.
pub(crate) fn complement(width: Width, value: u16) -> u16
    requires { value < 2 ^ bits_of width }
    ensures { result ≡ turned width value }
{
    match width {
        Width::Word => !value,
        Width::Byte => 0xff - value,
    }
}

/// Result and flags of an operation with two operands. CMP and BIT give theirs too; it is the caller who does not
/// store it. At byte width operands and result are 0 to 377 octal.
pub fn binary(op: Bin, width: Width, src: u16, dst: u16, old: Flags) -> (u16, Flags)
    requires src { src < 2 ^ bits_of width }
    requires dst { dst < 2 ^ bits_of width }
    ensures value { result ≡ binary_of op width src dst old }
    ensures range { result.0 < 2 ^ bits_of width }
{
    match op {
        Bin::Mov => move_value(width, src, old),
        Bin::Cmp => subtract(width, dst, src),
        Bin::Bit => move_value(width, src & dst, old),
        Bin::Bic => move_value(width, dst & complement(width, src), old),
        Bin::Bis => move_value(width, src | dst, old),
        Bin::Add => add(width, src, dst),
        Bin::Sub => subtract(width, src, dst),
    }
}
