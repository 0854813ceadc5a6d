ghost use Rattle.std.specs.Prelude.{◌≡◌};
ghost use Rattle.desk_model.specs.EditWords.{edit_word_of, word_text};

/// The word of an edit, which says what it does.
#[derive(Clone, Copy, Debug, PartialEq, Eq)]
pub enum EditWord {
    /// Enters or replaces a substance.
    Substance,
    /// Sets the factor of a substance for a rule.
    Member,
    /// Enters or replaces the materials that a supplier declares.
    Declare,
    /// Enters or replaces a part.
    Part,
    /// Enters or replaces a line of the bill.
    Line,
    /// Takes a line of the bill out.
    Unline,
    /// Names a part a product.
    Product,
    /// Enters or replaces an exemption row.
    Exemption,
    /// Takes an exemption row out.
    Unexempt,
    /// Enters a substance into the candidate list.
    Candidate,
    /// Adds shipped units.
    Ship,
    /// Takes shipped units off.
    Unship,
}

impl EditWord {
    /// Each word once.
    pub const ALL: [EditWord; 12] = [
        EditWord::Substance,
        EditWord::Member,
        EditWord::Declare,
        EditWord::Part,
        EditWord::Line,
        EditWord::Unline,
        EditWord::Product,
        EditWord::Exemption,
        EditWord::Unexempt,
        EditWord::Candidate,
        EditWord::Ship,
        EditWord::Unship,
    ];

    /// The word as edits spell it.
    #[tactic(auto, unfolding(crate::specs::EditWords::word_text))]
    pub fn word(self) -> &'static str
        ensures { result.now ≡ word_text self }
    {
        match self {
            EditWord::Substance => "substance",
            EditWord::Member => "member",
            EditWord::Declare => "declare",
            EditWord::Part => "part",
            EditWord::Line => "line",
            EditWord::Unline => "unline",
            EditWord::Product => "product",
            EditWord::Exemption => "exemption",
            EditWord::Unexempt => "unexempt",
            EditWord::Candidate => "candidate",
            EditWord::Ship => "ship",
            EditWord::Unship => "unship",
        }
    }

    /// The edit's word that these bytes are, `None` exactly where they are none.
    #[tactic(auto, unfolding(crate::specs::EditWords::edit_word_of))]
    pub fn read(bytes: &[u8]) -> Option<EditWord>
        ensures { result ≡ edit_word_of bytes.now }
    {
        EditWord::ALL
            .iter()
            .copied()
            .find(|word| word.word().as_bytes() == bytes)
    }
}
