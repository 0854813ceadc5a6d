ghost use Rattle.std.specs.Prelude.{◌≡◌, ◌==◌, ℕ, [], ◌∷◌, ◌++◌, IfNone, IfOk, IfSome, List, position};
ghost use Rattle.desk_report.specs.ReadLines.{AreLinesOf};
ghost use Rattle.desk_report.specs.Reading.{HasNoLineEnd, IsReadTo};

use crate::good_lines::GoodLines;
use desk_text::OutOfMemory;
use std::alloc::Global;

/// The byte behind each line.
const LF: u8 = b'\n';

/// The lines of an export file so far.
#[derive(Drop)]
pub(crate) enum Lines {
    /// Each whole line is that of a row's record, and their keys rise.
    Good(GoodLines),
    /// The line of this number, counted from 1, is the first that isn't one. What follows it isn't looked at.
    Bad(u64),
}

impl Lines {
    /// The lines with these bytes behind.
    #[tactic(auto, using(crate::proofs::BadLines::bad_later), unfolding(crate::specs::ReadLines::AreLinesOf))]
    pub(crate) fn with_bytes(self, alloc: Global, bytes: &[u8]) -> Result<Lines, OutOfMemory>
        ensures { IfOk result (λ lines. (read : List ℕ) → AreLinesOf read self → AreLinesOf (read ++ bytes.now) lines) }
    {
        if let Lines::Bad(line) = self {
            return Ok(Lines::Bad(line));
        }
        let mut lines = self;
        let mut rest = bytes;
        while let Some((end, behind)) = cut_line(rest) {
            lines = lines.with_end(alloc, end)?;
            rest = behind;
        }
        lines.with_part(rest)
    }

    /// The lines with a part of a line behind.
    #[tactic(auto, using(crate::proofs::BadLines::bad_later), unfolding(crate::specs::ReadLines::AreLinesOf))]
    fn with_part(self, part: &[u8]) -> Result<Lines, OutOfMemory>
        requires { HasNoLineEnd part.now }
        ensures { IfOk result (λ lines. (read : List ℕ) → AreLinesOf read self → AreLinesOf (read ++ part.now) lines) }
    {
        match self {
            Lines::Good(good) => Ok(Lines::Good(good.with_held(part)?)),
            Lines::Bad(line) => Ok(Lines::Bad(line)),
        }
    }

    /// The lines with the end of a line behind, and LF.
    #[tactic(auto, using(crate::proofs::BadLines::bad_later), unfolding(crate::specs::ReadLines::AreLinesOf))]
    fn with_end(self, alloc: Global, end: &[u8]) -> Result<Lines, OutOfMemory>
        requires { HasNoLineEnd end.now }
        ensures { IfOk result (λ lines. (read : List ℕ) → AreLinesOf read self → AreLinesOf ((read ++ end.now) ++ 10 ∷ []) lines) }
    {
        match self.with_part(end)? {
            Lines::Good(good) => with_lf(alloc, good),
            Lines::Bad(line) => Ok(Lines::Bad(line)),
        }
    }
}

/// The bytes before the first LF and those behind it, if there is one.
fn cut_line(bytes: &[u8]) -> Option<(&[u8], &[u8])>
    ensures cut { IfSome result (λ parts. (bytes.now ≡ (parts.0.now ++ 10 ∷ []) ++ parts.1.now) × HasNoLineEnd parts.0.now) }
    ensures whole { IfNone result (HasNoLineEnd bytes.now) }
{
    match place_of_lf(bytes) {
        Some(end) => Some((&bytes[..end], &bytes[end + 1..])),
        None => None,
    }
}

/// The place of the first LF.
fn place_of_lf(bytes: &[u8]) -> Option<usize>
    ensures { result ≡ position (λ b. b == 10) bytes.now }
{
    bytes.iter().position(|&byte| byte == LF)
}

/// The lines with LF behind.
#[tactic(auto, unfolding(crate::specs::ReadLines::AreLinesOf))]
fn with_lf(alloc: Global, good: GoodLines) -> Result<Lines, OutOfMemory>
    ensures { IfOk result (λ lines. (read : List ℕ) → IsReadTo read good → AreLinesOf (read ++ 10 ∷ []) lines) }
{
    let number = good.next_number();
    match good.with_line(alloc)? {
        Some(good) => Ok(Lines::Good(good)),
        None => Ok(Lines::Bad(number)),
    }
}
