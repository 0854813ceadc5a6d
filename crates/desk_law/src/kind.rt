ghost use Rattle.std.specs.Prelude.{◌≡◌, ◌<◌, IfSome, Option, Some};
ghost use Rattle.desk_law.specs.Kind.{kind_code, kind_of, kind_place};

use std::fmt;

/// A kind of electrical and electronic equipment: the categories of Annex I to Directive
/// 2011/65/EU, of which the seventh, the eighth and the ninth are two kinds each, since their
/// restrictions begin on different days or not at all.
///
/// The order is that of the annex.
#[derive(Clone, Copy, Debug, PartialEq, Eq, PartialOrd, Ord)]
pub enum Kind {
    /// Category 1, large household appliances. Code `1`.
    LargeHousehold,
    /// Category 2, small household appliances. Code `2`.
    SmallHousehold,
    /// Category 3, IT and telecommunications equipment. Code `3`.
    Telecommunications,
    /// Category 4, consumer equipment. Code `4`.
    Consumer,
    /// Category 5, lighting equipment. Code `5`.
    Lighting,
    /// Category 6, electrical and electronic tools. Code `6`.
    Tool,
    /// Category 7, toys, leisure and sports equipment, besides a [`Kind::Toy`]. Code `7`.
    ToyLeisureSports,
    /// A toy of category 7 whose phthalates entry 51 of Annex XVII to Regulation (EC) 1907/2006
    /// restricts already. Code `7t`.
    Toy,
    /// Category 8, medical devices, besides a [`Kind::InVitroDiagnostic`]. Code `8`.
    MedicalDevice,
    /// An in vitro diagnostic medical device, of category 8. Code `8i`.
    InVitroDiagnostic,
    /// Category 9, monitoring and control instruments, besides a [`Kind::IndustrialInstrument`].
    /// Code `9`.
    ControlInstrument,
    /// An industrial monitoring and control instrument, of category 9. Code `9i`.
    IndustrialInstrument,
    /// Category 10, automatic dispensers. Code `10`.
    Dispenser,
    /// Category 11, other equipment that no category above covers. Code `11`.
    Other,
}

impl Kind {
    /// Each kind once, in the order of Annex I.
    pub const ALL: [Kind; 14] = [
        Kind::LargeHousehold,
        Kind::SmallHousehold,
        Kind::Telecommunications,
        Kind::Consumer,
        Kind::Lighting,
        Kind::Tool,
        Kind::ToyLeisureSports,
        Kind::Toy,
        Kind::MedicalDevice,
        Kind::InVitroDiagnostic,
        Kind::ControlInstrument,
        Kind::IndustrialInstrument,
        Kind::Dispenser,
        Kind::Other,
    ];

    /// The code that texts name the kind by. A read of it gives the kind back.
    #[tactic(auto, unfolding(crate::specs::Kind::kind_code, crate::specs::Kind::kind_of))]
    pub fn code(self) -> &'static str
        ensures code { result.now ≡ kind_code self }
        ensures read_back { kind_of result.now ≡ Some self }
    {
        match self {
            Kind::LargeHousehold => "1",
            Kind::SmallHousehold => "2",
            Kind::Telecommunications => "3",
            Kind::Consumer => "4",
            Kind::Lighting => "5",
            Kind::Tool => "6",
            Kind::ToyLeisureSports => "7",
            Kind::Toy => "7t",
            Kind::MedicalDevice => "8",
            Kind::InVitroDiagnostic => "8i",
            Kind::ControlInstrument => "9",
            Kind::IndustrialInstrument => "9i",
            Kind::Dispenser => "10",
            Kind::Other => "11",
        }
    }

    /// How many kinds stand before this one.
    #[tactic(auto, unfolding(crate::specs::Kind::kind_place))]
    pub(crate) fn place(self) -> usize
        ensures place { result ≡ kind_place self }
        ensures below { result < 14 }
    {
        self as usize
    }

    /// The kind whose code these bytes are, `None` exactly where they are no kind's code.
    #[tactic(auto, using(crate::proofs::Codes::kind_is_spelled), unfolding(crate::specs::Kind::kind_of))]
    pub fn read(bytes: &[u8]) -> Option<Kind>
        ensures kind { result ≡ kind_of bytes.now }
        ensures spelled { IfSome result (λ kind. kind_code kind ≡ bytes.now) }
    {
        Kind::ALL
            .iter()
            .copied()
            .find(|kind| kind.code().as_bytes() == bytes)
    }
}

impl fmt::Display for Kind {
    ghost output = { λ kind. Some (kind_code kind) };

    fn fmt<W: fmt::Write>(&self, f: &mut fmt::Formatter<W>) -> fmt::Result {
        f.write_str(self.code())
    }
}
