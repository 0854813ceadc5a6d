ghost use Rattle.std.specs.Prelude.{◌≡◌, IfSome, Option, Some};
ghost use Rattle.desk_law.specs.Rule.{rule_code, rule_number, rule_of};

use std::fmt;

/// A restricted substance of Annex II to Directive 2011/65/EU, with its maximum concentration.
///
/// The order is that of the rules' numbers.
#[derive(Clone, Copy, Debug, PartialEq, Eq, PartialOrd, Ord)]
pub enum Rule {
    /// Rule 1, lead. Code `lead`.
    Lead,
    /// Rule 2, mercury. Code `mercury`.
    Mercury,
    /// Rule 3, cadmium. Code `cadmium`.
    Cadmium,
    /// Rule 4, hexavalent chromium. Code `chromium-vi`.
    ChromiumVi,
    /// Rule 5, polybrominated biphenyls. Code `pbb`.
    Pbb,
    /// Rule 6, polybrominated diphenyl ethers. Code `pbde`.
    Pbde,
    /// Rule 7, bis(2-ethylhexyl) phthalate. Code `dehp`.
    Dehp,
    /// Rule 8, butyl benzyl phthalate. Code `bbp`.
    Bbp,
    /// Rule 9, dibutyl phthalate. Code `dbp`.
    Dbp,
    /// Rule 10, diisobutyl phthalate. Code `dibp`.
    Dibp,
}

impl Rule {
    /// Every rule that a text may name, each once, in the order of the numbers.
    pub const ALL: [Rule; 10] = [
        Rule::Lead,
        Rule::Mercury,
        Rule::Cadmium,
        Rule::ChromiumVi,
        Rule::Pbb,
        Rule::Pbde,
        Rule::Dehp,
        Rule::Bbp,
        Rule::Dbp,
        Rule::Dibp,
    ];

    /// The rules by which a material is judged: those that the law has a maximum concentration and first days for.
    pub const RESTRICTING: [Rule; 10] = Rule::ALL;

    /// The rules of which a desk knows the substance from the start.
    pub const BASE: [Rule; 10] = Rule::ALL;

    /// The rule's number, from 1 to 10.
    #[tactic(auto, unfolding(crate::specs::Rule::rule_number))]
    pub fn number(self) -> u8
        ensures { result ≡ rule_number self }
    {
        self as u8 + 1
    }

    /// The code that texts name the rule by. A read of it gives the rule back.
    #[tactic(auto, unfolding(crate::specs::Rule::rule_code, crate::specs::Rule::rule_of))]
    pub fn code(self) -> &'static str
        ensures code { result.now ≡ rule_code self }
        ensures read_back { rule_of result.now ≡ Some self }
    {
        match self {
            Rule::Lead => "lead",
            Rule::Mercury => "mercury",
            Rule::Cadmium => "cadmium",
            Rule::ChromiumVi => "chromium-vi",
            Rule::Pbb => "pbb",
            Rule::Pbde => "pbde",
            Rule::Dehp => "dehp",
            Rule::Bbp => "bbp",
            Rule::Dbp => "dbp",
            Rule::Dibp => "dibp",
        }
    }

    /// The rule whose code these bytes are, `None` exactly where they are no rule's code.
    #[tactic(auto, using(crate::proofs::Codes::rule_is_spelled), unfolding(crate::specs::Rule::rule_of))]
    pub fn read(bytes: &[u8]) -> Option<Rule>
        ensures rule { result ≡ rule_of bytes.now }
        ensures spelled { IfSome result (λ rule. rule_code rule ≡ bytes.now) }
    {
        Rule::ALL
            .iter()
            .copied()
            .find(|rule| rule.code().as_bytes() == bytes)
    }
}

impl fmt::Display for Rule {
    ghost output = { λ rule. Some (rule_code rule) };

    fn fmt<W: fmt::Write>(&self, f: &mut fmt::Formatter<W>) -> fmt::Result {
        f.write_str(self.code())
    }
}
