ghost use Rattle.std.specs.Prelude.{◌≡◌, Some};
ghost use Rattle.std.proofs.Common.{arith};
ghost use Rattle.std.proofs.lemmas.Bool.Decides.{nat_tests};
ghost use Rattle.desk_text.specs.Code.{is_exemption_number_byte};

use crate::code::{CodeAlphabet, CodeFault};
use crate::word::{Alphabet, Word};
use std::fmt;
use std::marker::Model;

/// The greatest number of bytes in the number of an exemption.
pub const EXEMPTION_NUMBER_LIMIT: usize = 20;

/// The number of an exemption in Annex III or IV of Directive 2011/65/EU, such as `6(c)`: 1 to 20 bytes of
/// `A-Z a-z 0-9 . _ - ( )`.
///
/// It takes no memory. Numbers are ordered by their bytes.
#[derive(Clone, Copy, Debug, PartialEq, Eq, PartialOrd, Ord)]
pub struct ExemptionNumber {
    word: Word<EXEMPTION_NUMBER_LIMIT>,
}

impl Model for ExemptionNumber {
    ghost use Rattle.std.specs.Prelude.{◌≡◌, List, ℕ, Ok};
    ghost use Rattle.desk_text.specs.Code.{exemption_number_of};

    ghost Value = { List ℕ };

    ghost view = { λ n. n.word };

    ghost invariant = { λ n. exemption_number_of n.word ≡ Ok n.word };

    ghost inverse = { λ text. record { word = text } };
}

impl ExemptionNumber {
    ghost use Rattle.desk_text.specs.Code.{exemption_number_of};

    /// The number that these bytes spell. The faults are tried in the order in which `CodeFault` lists them.
    #[tactic(auto, unfolding(crate::specs::Code::exemption_number_of))]
    pub fn read(bytes: &[u8]) -> Result<ExemptionNumber, CodeFault>
        ensures { result ≡ exemption_number_of bytes.now }
    {
        Ok(ExemptionNumber {
            word: Word::read::<ExemptionNumberAlphabet>(bytes)?,
        })
    }

    /// The bytes of the number.
    pub fn as_bytes(&self) -> &[u8]
        ensures value { result.now ≡ self.now }
        ensures form { exemption_number_of self.now ≡ Ok self.now }
    {
        self.word.as_bytes()
    }
}

/// The bytes of exemption numbers: those of codes, and brackets.
struct ExemptionNumberAlphabet;

impl Alphabet for ExemptionNumberAlphabet {
    ghost has = { is_exemption_number_byte };

    ghost is_ascii = { λ b good. Prim.grind (arith, nat_tests) };

    fn has(byte: u8) -> bool {
        CodeAlphabet::has(byte) || matches!(byte, b'(' | b')')
    }
}

impl fmt::Display for ExemptionNumber {
    ghost output = { λ number. Some number };

    fn fmt<W: fmt::Write>(&self, f: &mut fmt::Formatter<W>) -> fmt::Result {
        self.word.fmt(f)
    }
}
