ghost use Rattle.std.specs.Prelude.{◌≡◌, Some};
ghost use Rattle.desk_edits.specs.Keys.{key_name};

use std::fmt;

/// The key whose value is the edit's word.
pub(crate) const WORD_KEY: &str = "edit";

/// A key of an edit's object, besides `edit`, whose value is the edit's word.
#[derive(Clone, Copy, Debug, PartialEq, Eq)]
pub enum EditKey {
    /// The edit's ticket, a code.
    Ticket,
    /// The code of a substance or of a part.
    Code,
    /// The name of a substance or of a part.
    Name,
    /// A substance's CAS number.
    Cas,
    /// The code of a substance.
    Substance,
    /// The code of a rule.
    Rule,
    /// A factor in millionths.
    Factor,
    /// Whether a part is an article or an assembly; or the kind of equipment that a product is.
    Kind,
    /// The part that a line is of.
    Parent,
    /// What a line leads to.
    Child,
    /// The count of a line.
    Count,
    /// The code of a part that is a product.
    Part,
    /// The code of an exemption row.
    Row,
    /// The annex that an exemption stands in.
    Annex,
    /// An exemption's number in its annex.
    Number,
    /// The kinds of equipment that an exemption row is for.
    Kinds,
    /// What an exemption is for.
    Application,
    /// The first day of an exemption row.
    From,
    /// The last day of an exemption row.
    Until,
    /// The floor of an exemption row, in ppm.
    Floor,
    /// The cap of an exemption row, in ppm.
    Cap,
    /// A day of inclusion.
    Day,
    /// The code of a shipped product.
    Product,
    /// The year of a shipment.
    Year,
    /// The units of a shipment.
    Units,
}

impl EditKey {
    /// The key as an edit's object spells it.
    #[tactic(auto, unfolding(crate::specs::Keys::key_name))]
    pub fn name(self) -> &'static str
        ensures { result.now ≡ key_name self }
    {
        match self {
            EditKey::Ticket => "ticket",
            EditKey::Code => "code",
            EditKey::Name => "name",
            EditKey::Cas => "cas",
            EditKey::Substance => "substance",
            EditKey::Rule => "rule",
            EditKey::Factor => "factor",
            EditKey::Kind => "kind",
            EditKey::Parent => "parent",
            EditKey::Child => "child",
            EditKey::Count => "count",
            EditKey::Part => "part",
            EditKey::Row => "row",
            EditKey::Annex => "annex",
            EditKey::Number => "number",
            EditKey::Kinds => "kinds",
            EditKey::Application => "application",
            EditKey::From => "from",
            EditKey::Until => "until",
            EditKey::Floor => "floor",
            EditKey::Cap => "cap",
            EditKey::Day => "day",
            EditKey::Product => "product",
            EditKey::Year => "year",
            EditKey::Units => "units",
        }
    }
}

/// The key's name, and nothing else.
impl fmt::Display for EditKey {
    ghost output = { λ key. Some (key_name key) };

    fn fmt<W: fmt::Write>(&self, f: &mut fmt::Formatter<W>) -> fmt::Result {
        f.write_str(self.name())
    }
}
