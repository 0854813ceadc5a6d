ghost use Rattle.std.specs.Prelude.{◌≡◌, ◌^◌, ◌<◌, ◌≤◌, ◌++◌, IsTrue, length, decimal, OnOk, OnErr};
ghost use Rattle.std.specs.Char.{is_ascii_digit};
ghost use Rattle.std.specs.List.{list_all};
ghost use Rattle.std.specs.Str.{all_ascii_digits};
ghost use Rattle.std.specs.Str.Parse.{digits_value};
ghost use Rattle.desk_text.specs.Number.{is_numeral, number_below};

use crate::bytes::Bytes;
use crate::memory::OutOfMemory;
use itoa::Buffer;
use std::error::Error;
use std::{fmt, str};

/// Why bytes are no number.
#[derive(Clone, Copy, Debug, PartialEq, Eq)]
pub enum NumberFault {
    /// There is no byte, some byte is no digit, or a zero stands before another digit.
    Shape,
    /// The number doesn't fit its type.
    TooBig,
}

/// The number that decimal digits write, below 2^32. There is no sign, and no zero before another digit.
/// The faults are tried in the order in which `NumberFault` lists them.
#[tactic(auto, unfolding(crate::specs::Number::number_below))]
pub fn read_u32(bytes: &[u8]) -> Result<u32, NumberFault>
    ensures { result ≡ number_below (2 ^ 32) bytes.now }
{
    let number = read_u64(bytes)?;
    u32::try_from(number).map_err(|_| NumberFault::TooBig)
}

/// The number that decimal digits write, below 2^64. There is no sign, and no zero before another digit.
/// The faults are tried in the order in which `NumberFault` lists them.
#[tactic(auto, unfolding(crate::specs::Number::number_below))]
pub fn read_u64(bytes: &[u8]) -> Result<u64, NumberFault>
    ensures { result ≡ number_below (2 ^ 64) bytes.now }
{
    if !is_numeral(bytes) {
        return Err(NumberFault::Shape);
    }
    digits_text(bytes).parse().map_err(|_| NumberFault::TooBig)
}

/// Appends the number in decimal digits, with no sign and no zero before another digit, or changes nothing.
pub fn push_u128(out: &mut Bytes, number: u128) -> Result<(), OutOfMemory>
    ensures ok { OnOk result (out.new ≡ out.old ++ decimal number) }
    ensures err { OnErr result (out.new ≡ out.old) }
{
    let mut buffer = Buffer::new();
    out.push_all(digits_of(&mut buffer, number).as_bytes())
}

/// The decimal digits of the number, with no sign and no zero before another digit.
pub fn digits_of(buffer: &mut Buffer, number: u128) -> &str
    ensures { result.now ≡ decimal number }
{
    // Most numbers are of 64 bits, and such are divided faster.
    match u64::try_from(number) {
        Ok(number) => buffer.format(number),
        Err(_) => buffer.format(number),
    }
}

/// Whether the bytes are digits, at least one, and begin with no zero but in `0`.
fn is_numeral(bytes: &[u8]) -> bool
    ensures { result ≡ is_numeral bytes.now }
{
    match bytes {
        [] | [b'0', _, ..] => false,
        _ => all_digits(bytes),
    }
}

/// Whether each byte is a digit.
fn all_digits(bytes: &[u8]) -> bool
    ensures { result ≡ list_all is_ascii_digit bytes.now }
{
    bytes.iter().all(|byte| byte.is_ascii_digit())
}

/// These digits as a text.
pub(crate) fn digits_text(digits: &[u8]) -> &str
    requires { IsTrue (all_ascii_digits digits.now) }
    ensures { result.now ≡ digits.now }
{
    // That these bytes are a text is proved.
    unsafe { str::from_utf8_unchecked(digits) }
}

/// The number that one to four digits write.
pub(crate) fn short_value_of(digits: &[u8]) -> u16
    requires digits { IsTrue (all_ascii_digits digits.now) }
    requires nonempty { 0 < length digits.now }
    requires short { length digits.now ≤ 4 }
    ensures { result ≡ digits_value 10 digits.now }
{
    digits_text(digits).parse().unwrap()
}

impl fmt::Display for NumberFault {
    ghost use Rattle.std.specs.Prelude.{Some};
    ghost use Rattle.desk_text.specs.Faults.{number_fault_words};

    ghost output = { λ fault. Some (number_fault_words fault) };

    fn fmt<W: fmt::Write>(&self, f: &mut fmt::Formatter<W>) -> fmt::Result {
        f.write_str(match self {
            NumberFault::Shape => "not a number",
            NumberFault::TooBig => "too big a number",
        })
    }
}

impl Error for NumberFault {}
