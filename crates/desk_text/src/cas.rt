ghost use Rattle.std.specs.Prelude.{◌≡◌, ◌≤◌, length, count_by, Some};
ghost use Rattle.std.specs.Char.{is_ascii_digit};
ghost use Rattle.desk_text.specs.Cas.{has_cas_shape, check_digit, weighted_sum, digits_of};

use crate::picture::fits;
use crate::word::Word;
use std::error::Error;
use std::fmt;
use std::marker::Model;

// The greatest number of bytes in a CAS registry number.
const CAS_LIMIT: usize = 12;

/// A CAS registry number, such as `117-81-7`: two to seven digits, two digits and the check digit.
///
/// It takes no memory. Numbers are ordered by their bytes.
#[derive(Clone, Copy, Debug, PartialEq, Eq, PartialOrd, Ord)]
pub struct Cas {
    word: Word<CAS_LIMIT>,
}

impl Model for Cas {
    ghost use Rattle.std.specs.Prelude.{◌≡◌, List, ℕ, Ok};
    ghost use Rattle.desk_text.specs.Cas.{cas_of};

    ghost Value = { List ℕ };

    ghost view = { λ c. c.word };

    ghost invariant = { λ c. cas_of c.word ≡ Ok c.word };

    ghost inverse = { λ text. record { word = text } };
}

/// Why bytes are no CAS registry number.
#[derive(Clone, Copy, Debug, PartialEq, Eq)]
pub enum CasFault {
    /// The bytes aren't two to seven digits, `-`, two digits, `-`, one digit.
    Shape,
    /// The last digit isn't the check digit of the others.
    CheckDigit,
}

impl Cas {
    ghost use Rattle.desk_text.specs.Cas.{cas_of};

    /// The number that these bytes spell. The faults are tried in the order in which `CasFault` lists them.
    #[tactic(auto, unfolding(crate::specs::Cas::cas_of))]
    pub fn read(bytes: &[u8]) -> Result<Cas, CasFault>
        ensures { result ≡ cas_of bytes.now }
    {
        if !has_cas_shape(bytes) {
            return Err(CasFault::Shape);
        }
        let last = bytes.len() - 1;
        if bytes[last] - b'0' != check_digit(&bytes[..last]) {
            return Err(CasFault::CheckDigit);
        }
        Ok(Cas {
            word: Word::new(bytes),
        })
    }

    /// The bytes of the number.
    pub fn as_bytes(&self) -> &[u8]
        ensures value { result.now ≡ self.now }
        ensures form { cas_of self.now ≡ Ok self.now }
    {
        self.word.as_bytes()
    }
}

/// Whether the bytes have the form of a CAS registry number.
fn has_cas_shape(bytes: &[u8]) -> bool
    ensures { result ≡ has_cas_shape bytes.now }
{
    fits(b"NN-NN-N", bytes)
        || fits(b"NNN-NN-N", bytes)
        || fits(b"NNNN-NN-N", bytes)
        || fits(b"NNNNN-NN-N", bytes)
        || fits(b"NNNNNN-NN-N", bytes)
        || fits(b"NNNNNNN-NN-N", bytes)
}

/// The check digit of a number whose last byte is left out.
fn check_digit(bytes: &[u8]) -> u8
    requires { length bytes.now ≤ CAS_LIMIT }
    ensures { result ≡ check_digit bytes.now }
{
    (weighted_sum(bytes) % 10) as u8
}

/// How many of the bytes are digits.
fn digit_count(bytes: &[u8]) -> usize
    ensures { result ≡ count_by is_ascii_digit bytes.now }
{
    bytes.iter().filter(|byte| byte.is_ascii_digit()).count()
}

/// The sum of each digit times its place from the right, where the last has place 1. Other bytes have no place.
fn weighted_sum(bytes: &[u8]) -> usize
    requires { length bytes.now ≤ CAS_LIMIT }
    ensures { result ≡ weighted_sum (digits_of bytes.now) }
{
    let mut place = digit_count(bytes);
    let mut sum = 0;
    for &byte in bytes {
        if byte.is_ascii_digit() {
            sum += place * (byte - b'0') as usize;
            place -= 1;
        }
    }
    sum
}

impl fmt::Display for Cas {
    ghost output = { λ number. Some number };

    fn fmt<W: fmt::Write>(&self, f: &mut fmt::Formatter<W>) -> fmt::Result {
        self.word.fmt(f)
    }
}

impl fmt::Display for CasFault {
    ghost use Rattle.std.specs.Prelude.{Some};
    ghost use Rattle.desk_text.specs.Faults.{cas_fault_words};

    ghost output = { λ fault. Some (cas_fault_words fault) };

    fn fmt<W: fmt::Write>(&self, f: &mut fmt::Formatter<W>) -> fmt::Result {
        f.write_str(match self {
            CasFault::Shape => "not the form of a CAS number",
            CasFault::CheckDigit => "a wrong check digit",
        })
    }
}

impl Error for CasFault {}
