ghost use Rattle.std.specs.Prelude.{◌≡◌, ◌<◌, ◌^◌, IsTrue, IfOk};
ghost use Rattle.std.specs.List.{list_all};
ghost use Rattle.bk_report.specs.Reading.{is_digit};
ghost use Rattle.bk_script.specs.Fields.{leads_with_zero, is_number, number, is_hex, is_bytes, bytes_of};

use bk_base::{Bytes, NoMemory};
use std::alloc::Global;

fn leads_with_zero(text: &[u8]) -> bool
    ensures value { result ≡ leads_with_zero text.now }
{
    match text {
        [] => false,
        [_] => false,
        [first, ..] => *first == b'0',
    }
}

fn are_digits(text: &[u8]) -> bool
    ensures { result ≡ list_all is_digit text.now }
{
    text.iter().all(|b| 48 <= *b && *b <= 57)
}

/// A number of 1 to 9 decimal digits, without leading zeros.
pub fn is_number(text: &[u8]) -> bool
    ensures { result ≡ is_number text.now }
{
    1 <= text.len() && text.len() <= 9 && are_digits(text) && !leads_with_zero(text)
}

pub fn number(text: &[u8]) -> u32
    requires { IsTrue (is_number text.now) }
    ensures { result ≡ number text.now }
{
    let mut n = 0u32;
    for digit in text {
        n = 10 * n + u32::from(*digit - 48);
    }
    n
}

fn are_hex(text: &[u8]) -> bool
    ensures value { result ≡ list_all is_hex text.now }
{
    text.iter()
        .all(|b| 48 <= *b && *b <= 57 || 97 <= *b && *b <= 102)
}

/// 1 to 128 bytes, each two hexadecimal digits in lower case.
pub fn is_bytes(text: &[u8]) -> bool
    ensures { result ≡ is_bytes text.now }
{
    2 <= text.len() && text.len() <= 256 && text.len() % 2 == 0 && are_hex(text)
}

/// The bytes of the digits. It takes memory for them.
pub fn bytes_of(alloc: Global, text: &[u8]) -> Result<Bytes, NoMemory>
    requires { IsTrue (is_bytes text.now) }
    ensures { IfOk result (λ bytes. bytes ≡ bytes_of text.now) }
{
    match hex::decode(alloc, text) {
        Ok(bytes) => Ok(Bytes::from_vec(bytes)),
        Err(_) => Err(NoMemory),
    }
}
