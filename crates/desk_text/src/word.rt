ghost use Rattle.std.specs.Prelude.{◌≡◌, ℕ, ◌<◌, ◌≤◌, Bool, true, not, length, position, IsAscii, Some};
ghost use Rattle.std.proofs.Common.{rules};
ghost use Rattle.std.specs.Cmp.{partial_order_from_own_ties};
ghost use Rattle.std.specs.Cmp.Lexicographic.{slice_cmp};
ghost use Rattle.std.specs.Cmp.Rules.{comparing};
ghost use Rattle.std.specs.Ordering.{nat_cmp, eq_by_cmp, as_partial_cmp};

use crate::code::CodeFault;
use std::cmp::Ordering;
use std::marker::Model;
use std::{fmt, str};

/// An ASCII text of at most `N` bytes, which lies in the value itself and takes no memory.
///
/// The places past its end hold zero, so a text has one form.
#[derive(Clone, Copy)]
pub struct Word<const N: usize> {
    places: [u8; N],
    len: u8,
}

impl<const N: usize> Model for Word<N> {
    ghost use Rattle.std.specs.Prelude.{ℕ, ◌-◌, ◌++◌, List, length, take, replicate};
    ghost use Rattle.desk_text.specs.Word.{IsPadded};
    ghost use Rattle.desk_text.specs.Padding.{length-text, padded-text};

    ghost Value = { List ℕ };

    ghost view = { λ w. take w.len w.places };

    ghost invariant = { λ w. IsPadded N w.len w.places };

    ghost inverse = { λ text. record {
      places = text ++ replicate (N - length text) 0;
      len = length text;
    } };

    ghost inverse_ok = { λ w h i. record {
      places = padded-text N w.len w.places h i;
      len = length-text N w.len w.places h i;
    } };
}

/// The bytes of which a sort of word is made.
pub trait Alphabet {
    ghost has: { ℕ → Bool };

    /// Whether the alphabet has the byte.
    fn has(byte: u8) -> bool
        ensures { result ≡ has byte };

    ghost is_ascii: { (b : ℕ) → has b ≡ true → b < 128 };
}

/// The first place whose byte the alphabet lacks.
fn first_bad<A: Alphabet>(bytes: &[u8]) -> Option<usize>
    ensures { result ≡ position (λ b. not (A.has b)) bytes.now }
{
    bytes.iter().position(|&byte| !A::has(byte))
}

impl<const N: usize> Word<N> {
    ghost use Rattle.desk_text.specs.Code.{word_of};

    /// The word that these bytes spell: 1 to `N` bytes of the alphabet.
    pub fn read<A: Alphabet>(bytes: &[u8]) -> Result<Word<N>, CodeFault>
        requires { N < 256 }
        ensures { result ≡ word_of A.has N bytes.now }
    {
        if bytes.is_empty() {
            return Err(CodeFault::Empty);
        }
        if bytes.len() > N {
            return Err(CodeFault::TooLong);
        }
        match first_bad::<A>(bytes) {
            Some(at) => Err(CodeFault::BadByte { at }),
            None => Ok(Word::new(bytes)),
        }
    }

    /// The word of these bytes.
    pub fn new(text: &[u8]) -> Word<N>
        requires small { N < 256 }
        requires fits { length text.now ≤ N }
        requires ascii { IsAscii text.now }
        ensures { result ≡ text.now }
    {
        let mut places = [0; N];
        places[..text.len()].copy_from_slice(text);
        Word {
            places,
            len: text.len() as u8,
        }
    }

    /// The bytes of the word.
    pub fn as_bytes(&self) -> &[u8]
        ensures value { result.now ≡ self.now }
        ensures ascii { IsAscii self.now }
    {
        &self.places[..self.len as usize]
    }

    /// How many bytes there are.
    fn len(&self) -> usize
        ensures { result ≡ length self.now }
    {
        self.as_bytes().len()
    }

    /// The word as a text.
    pub fn as_str(&self) -> &str
        ensures { result.now ≡ self.now }
    {
        // That the bytes are a text is proved. To look again would be most of the work where a word is written.
        unsafe { str::from_utf8_unchecked(self.as_bytes()) }
    }
}

/// How many bytes the head of a word has.
const HEAD_LEN: usize = 16;

impl<const N: usize> Word<N> {
    ghost use Rattle.desk_text.specs.Word.{first_bytes};

    /// The first places of the word as one number, by which most words that differ are told apart at once.
    pub(crate) fn head(&self) -> u128
        requires { 16 ≤ N }
        ensures value { result ≡ first_bytes 16 0 self.now }
        ensures ascii { IsAscii self.now }
    {
        match self.places.first_chunk() {
            Some(places) => u128::from_be_bytes(*places),
            None => unreachable!(),
        }
    }
}

impl<const N: usize> PartialEq for Word<N> {
    ghost eq = { eq_by_cmp (slice_cmp nat_cmp) };

    ghost laws = { Prim.search (comparing, rules) };

    fn eq(&self, other: &Word<N>) -> bool {
        self.cmp(other).is_eq()
    }
}

impl<const N: usize> Eq for Word<N> {
    ghost laws = { Prim.search (comparing, rules) };
}

impl<const N: usize> PartialOrd for Word<N> {
    ghost partial_cmp = { as_partial_cmp (slice_cmp nat_cmp) };

    ghost laws = { partial_order_from_own_ties (Prim.search (comparing, rules)) (Prim.search (comparing, rules)) };

    fn partial_cmp(&self, other: &Word<N>) -> Option<Ordering> {
        Some(self.cmp(other))
    }
}

impl<const N: usize> Ord for Word<N> {
    ghost cmp = { slice_cmp nat_cmp };

    ghost total = { Prim.search (comparing, rules) };

    ghost matches_partial_cmp = { Prim.search (comparing, rules) };

    ghost matches_eq = { Prim.search (comparing, rules) };

    fn cmp(&self, other: &Word<N>) -> Ordering {
        if N >= HEAD_LEN {
            let (head, other_head) = (self.head(), other.head());
            if head != other_head {
                return head.cmp(&other_head);
            }
            let (len, other_len) = (self.len(), other.len());
            if len <= HEAD_LEN && other_len <= HEAD_LEN {
                // Both words lie in their heads, which are equal, so the longer one only has more bytes that are zero.
                return len.cmp(&other_len);
            }
        }
        self.as_bytes().cmp(&other.as_bytes())
    }
}

impl<const N: usize> fmt::Display for Word<N> {
    ghost output = { λ text. Some text };

    fn fmt<W: fmt::Write>(&self, f: &mut fmt::Formatter<W>) -> fmt::Result {
        f.write_str(self.as_str())
    }
}

impl<const N: usize> fmt::Debug for Word<N> {
    fn fmt<W: fmt::Write>(&self, f: &mut fmt::Formatter<W>) -> fmt::Result {
        f.write_str(self.as_str())
    }
}
