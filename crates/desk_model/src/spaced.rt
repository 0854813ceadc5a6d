ghost use Rattle.std.specs.Prelude.{Some};

use desk_text::Code;
use std::fmt;

/// Codes in a line of text, such as those of a chain: each stands behind a space.
#[derive(Drop)]
pub struct Spaced<'a> {
    /// The codes, in order.
    pub codes: &'a [Code],
}

/// The codes, each behind a space.
impl<'a> fmt::Display for Spaced<'a> {
    ghost use Rattle.desk_model.specs.Refusals.{spaced};

    ghost output = { λ line. Some (spaced line.codes.now) };

    fn fmt<W: fmt::Write>(&self, f: &mut fmt::Formatter<W>) -> fmt::Result {
        for code in self.codes {
            write!(f, " {code}")?;
        }
        Ok(())
    }
}
