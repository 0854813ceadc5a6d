ghost use Rattle.std.specs.Prelude.{◌≡◌, Some, option_copied, slice_get};
ghost use Rattle.desk_scratch.specs.MaterialBlock.{verdict_words};

use desk_law::{Terms, Verdict};
use std::fmt;

/// A verdict with the exemption rows that it was made with, shown in words: `within`,
/// `not-in-force`, `exempt NUMBER row ROW` or `breach`.
#[derive(Clone, Copy, Debug)]
pub(crate) struct VerdictWords<'a> {
    /// The verdict.
    pub verdict: Verdict,
    /// The rows in order of their codes.
    pub rows: &'a [Terms],
}

impl fmt::Display for VerdictWords<'_> {
    ghost output = { λ words. Some (verdict_words words.rows.now words.verdict) };

    #[tactic(auto, unfolding(crate::specs::MaterialBlock::verdict_words))]
    fn fmt<W: fmt::Write>(&self, f: &mut fmt::Formatter<W>) -> fmt::Result {
        match self.verdict {
            Verdict::Within => f.write_str("within"),
            Verdict::NotInForce => f.write_str("not-in-force"),
            Verdict::Exempt { place } => match named(self.rows, place) {
                Some(row) => {
                    let number = row.number;
                    let code = row.row;
                    write!(f, "exempt {number} row {code}")
                }
                None => f.write_str("exempt"),
            },
            Verdict::Breach => f.write_str("breach"),
        }
    }
}

/// The row at a place, if there is one.
fn named(rows: &[Terms], place: usize) -> Option<&Terms>
    ensures { option_copied result ≡ slice_get rows.now place }
{
    rows.get(place)
}
