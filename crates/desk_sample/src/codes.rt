ghost use Rattle.std.specs.Prelude.{◌≡◌, ◌<◌, IfOk, true};
ghost use Rattle.desk_sample.specs.Codes.{digit, letter_code, supplier, ticket};
ghost use Rattle.desk_text.specs.Code.{is_code_byte};

use desk_text::{Code, OutOfMemory};
use std::alloc::Global;

/// The code of the letter and the number, of which the last four digits are written, with zeros in front.
pub(crate) fn numbered(letter: u8, number: u64) -> Code
    requires { is_code_byte letter ≡ true }
    ensures { result ≡ letter_code letter number }
{
    let bytes = [
        letter,
        digit(number / 1000),
        digit(number / 100),
        digit(number / 10),
        digit(number),
    ];
    Code::read(&bytes).unwrap()
}

/// One of the seven suppliers.
pub(crate) fn supplier(number: u64) -> Code
    ensures { result ≡ supplier number }
{
    Code::read(&[b'S', digit(number % 7)]).unwrap()
}

/// The ticket of this number.
pub(crate) fn ticket(alloc: Global, number: u64) -> Result<Code, OutOfMemory>
    ensures { IfOk result (λ code. code ≡ ticket number) }
{
    let text = format!(in alloc; "s{number}")?;
    Ok(Code::read(text.as_bytes()).unwrap())
}

/// The last digit of the number.
fn digit(number: u64) -> u8
    ensures value { result ≡ digit number }
    ensures good { is_code_byte result ≡ true }
{
    b'0' + (number % 10) as u8
}
