ghost use Rattle.std.specs.Prelude.{◌≡◌, Some};
ghost use Rattle.std.proofs.Common.{arith};
ghost use Rattle.std.proofs.lemmas.Bool.Decides.{nat_tests};
ghost use Rattle.desk_text.specs.Code.{is_code_byte};

use crate::word::{Alphabet, Word};
use std::error::Error;
use std::fmt;
use std::marker::Model;

/// The greatest number of bytes in a code.
pub const CODE_LIMIT: usize = 40;

/// The code of a part, a material, a substance, a supplier or an exemption row: 1 to 40 bytes of `A-Z a-z 0-9 . _ -`.
///
/// It takes no memory. Codes are ordered by their bytes.
#[derive(Clone, Copy, Debug, PartialEq, Eq, PartialOrd, Ord)]
pub struct Code {
    word: Word<CODE_LIMIT>,
}

impl Model for Code {
    ghost use Rattle.std.specs.Prelude.{◌≡◌, List, ℕ, Ok};
    ghost use Rattle.desk_text.specs.Code.{code_of};

    ghost Value = { List ℕ };

    ghost view = { λ c. c.word };

    ghost invariant = { λ c. code_of c.word ≡ Ok c.word };

    ghost inverse = { λ text. record { word = text } };
}

/// Why bytes are no code and no number of an exemption.
#[derive(Clone, Copy, Debug, PartialEq, Eq)]
pub enum CodeFault {
    /// There is no byte.
    Empty,
    /// There are more bytes than the limit.
    TooLong,
    /// The byte at this place, counted from 0, is the first that may not stand there.
    BadByte {
        /// The place of the byte.
        at: usize,
    },
}

impl Code {
    ghost use Rattle.desk_text.specs.Code.{code_of};
    ghost use Rattle.desk_text.specs.Word.{first_bytes};

    /// The code that these bytes spell. The faults are tried in the order in which `CodeFault` lists them.
    #[tactic(auto, unfolding(crate::specs::Code::code_of))]
    pub fn read(bytes: &[u8]) -> Result<Code, CodeFault>
        ensures { result ≡ code_of bytes.now }
    {
        Ok(Code {
            word: Word::read::<CodeAlphabet>(bytes)?,
        })
    }

    /// The bytes of the code.
    pub fn as_bytes(&self) -> &[u8]
        ensures value { result.now ≡ self.now }
        ensures form { code_of self.now ≡ Ok self.now }
    {
        self.word.as_bytes()
    }

    /// The first sixteen bytes as one number: an earlier byte counts for more, and zero stands in the place of each that the code
    /// lacks. Of two codes the one that stands first has no greater number, and most codes that differ differ in it.
    pub fn head(&self) -> u128
        ensures { result ≡ first_bytes 16 0 self.now }
    {
        self.word.head()
    }
}

/// The bytes of codes.
pub struct CodeAlphabet;

impl Alphabet for CodeAlphabet {
    ghost has = { is_code_byte };

    ghost is_ascii = { λ b good. Prim.grind (arith, nat_tests) };

    fn has(byte: u8) -> bool {
        byte.is_ascii_alphanumeric() || matches!(byte, b'.' | b'_' | b'-')
    }
}

impl fmt::Display for Code {
    ghost output = { λ code. Some code };

    fn fmt<W: fmt::Write>(&self, f: &mut fmt::Formatter<W>) -> fmt::Result {
        self.word.fmt(f)
    }
}

impl fmt::Display for CodeFault {
    ghost use Rattle.std.specs.Prelude.{Some};
    ghost use Rattle.desk_text.specs.Faults.{code_fault_words};

    ghost output = { λ fault. Some (code_fault_words fault) };

    fn fmt<W: fmt::Write>(&self, f: &mut fmt::Formatter<W>) -> fmt::Result {
        match self {
            CodeFault::Empty => f.write_str("no byte"),
            CodeFault::TooLong => f.write_str("too many bytes"),
            CodeFault::BadByte { at } => write!(f, "a byte that may not stand there, at {at}"),
        }
    }
}

impl Error for CodeFault {}
