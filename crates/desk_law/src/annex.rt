ghost use Rattle.std.specs.Prelude.{◌≡◌, Some};
ghost use Rattle.std.specs.Fmt.{decimal};
ghost use Rattle.desk_law.specs.Annex.{annex_kinds, annex_number, annex_of};

use crate::{Kind, KindSet};
use std::fmt;

/// The annex to Directive 2011/65/EU that an exemption stands in.
#[derive(Clone, Copy, Debug, PartialEq, Eq)]
pub enum Annex {
    /// Annex III, for equipment of every kind.
    Three,
    /// Annex IV, for medical devices and for monitoring and control instruments alone.
    Four,
}

impl Annex {
    /// Each annex once.
    pub const ALL: [Annex; 2] = [Annex::Three, Annex::Four];

    /// The annex's number, 3 or 4.
    #[tactic(auto, unfolding(crate::specs::Annex::annex_number))]
    pub fn number(self) -> u8
        ensures { result ≡ annex_number self }
    {
        match self {
            Annex::Three => 3,
            Annex::Four => 4,
        }
    }

    /// The annex that has this number, `None` exactly where none has it.
    pub fn with_number(number: u64) -> Option<Annex>
        ensures { result ≡ annex_of number }
    {
        Annex::ALL
            .iter()
            .copied()
            .find(|annex| u64::from(annex.number()) == number)
    }

    /// The kinds of equipment that an exemption of the annex may name.
    #[tactic(auto, unfolding(crate::specs::Annex::annex_kinds, crate::specs::KindSet::set_of, crate::specs::KindSet::has_kind, crate::specs::Kind::kind_place))]
    pub fn kinds(self) -> KindSet
        ensures { result ≡ annex_kinds self }
    {
        match self {
            Annex::Three => KindSet::from(Kind::ALL.as_slice()),
            Annex::Four => KindSet::from([
                Kind::MedicalDevice,
                Kind::InVitroDiagnostic,
                Kind::ControlInstrument,
                Kind::IndustrialInstrument,
            ]
            .as_slice()),
        }
    }
}

/// The annex's number.
impl fmt::Display for Annex {
    ghost output = { λ annex. Some (decimal (annex_number annex)) };

    fn fmt<W: fmt::Write>(&self, f: &mut fmt::Formatter<W>) -> fmt::Result {
        self.number().fmt(f)
    }
}
