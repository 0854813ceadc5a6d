ghost use Rattle.std.specs.Prelude.{◌≡◌, Some};
ghost use Rattle.desk_model.specs.EditText.{sort_of, sort_word};

use std::fmt;

/// What a part is made of.
#[derive(Clone, Copy, Debug, PartialEq, Eq)]
pub enum PartSort {
    /// An article in the sense of Article 3(3) of Regulation (EC) 1907/2006: its lines lead to materials alone.
    Article,
    /// An assembly: its lines lead to parts alone.
    Assembly,
}

impl PartSort {
    /// Each sort once.
    pub const ALL: [PartSort; 2] = [PartSort::Article, PartSort::Assembly];

    /// The sort's word, as edits spell it.
    #[tactic(auto, unfolding(crate::specs::EditText::sort_word))]
    pub fn word(self) -> &'static str
        ensures { result.now ≡ sort_word self }
    {
        match self {
            PartSort::Article => "article",
            PartSort::Assembly => "assembly",
        }
    }

    /// The sort whose word these bytes are, `None` exactly where they are no sort's.
    #[tactic(auto, unfolding(crate::specs::EditText::sort_of))]
    pub fn read(bytes: &[u8]) -> Option<PartSort>
        ensures { result ≡ sort_of bytes.now }
    {
        PartSort::ALL
            .iter()
            .copied()
            .find(|sort| sort.word().as_bytes() == bytes)
    }
}

/// The sort's word, as edits spell it.
impl fmt::Display for PartSort {
    ghost output = { λ sort. Some (sort_word sort) };

    fn fmt<W: fmt::Write>(&self, f: &mut fmt::Formatter<W>) -> fmt::Result {
        f.write_str(self.word())
    }
}
