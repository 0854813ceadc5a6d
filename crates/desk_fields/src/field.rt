ghost use Rattle.std.specs.Prelude.{◌≡◌};

use desk_law::{Annex, Kind, Rule};
use desk_model::{
    Count, EditWord, Factor, PartSort, Units, Year, count_of, factor_of, units_of, year_of,
};
use desk_text::{Cas, Code, Day, ExemptionNumber, read_u64};

/// A value that one field spells, in one way, and that takes no memory.
pub(crate) trait Field: Sized + Drop {
    // What a field is read as.
    ghost form: { List ℕ → Option Self };

    ghost use Rattle.std.specs.Prelude.{◌≡◌, ℕ, List, Option};

    /// What the field spells, unless it isn't of the form.
    fn from_field(field: &[u8]) -> Option<Self>
        ensures { result ≡ form field.now };
}

impl Field for Code {
    ghost use Rattle.desk_text.specs.Forms.{a_code};

    ghost form = { a_code };

    #[tactic(auto, unfolding(desk_text::specs::Forms::a_code))]
    fn from_field(field: &[u8]) -> Option<Code> {
        Code::read(field).ok()
    }
}

impl Field for ExemptionNumber {
    ghost use Rattle.desk_text.specs.Forms.{an_exemption_number};

    ghost form = { an_exemption_number };

    #[tactic(auto, unfolding(desk_text::specs::Forms::an_exemption_number))]
    fn from_field(field: &[u8]) -> Option<ExemptionNumber> {
        ExemptionNumber::read(field).ok()
    }
}

impl Field for Day {
    ghost use Rattle.desk_text.specs.Forms.{a_day};

    ghost form = { a_day };

    #[tactic(auto, unfolding(desk_text::specs::Forms::a_day))]
    fn from_field(field: &[u8]) -> Option<Day> {
        Day::read(field).ok()
    }
}

impl Field for Rule {
    ghost use Rattle.desk_law.specs.Rule.{rule_of};

    ghost form = { rule_of };

    fn from_field(field: &[u8]) -> Option<Rule> {
        Rule::read(field)
    }
}

impl Field for Kind {
    ghost use Rattle.desk_law.specs.Kind.{kind_of};

    ghost form = { kind_of };

    fn from_field(field: &[u8]) -> Option<Kind> {
        Kind::read(field)
    }
}

impl Field for PartSort {
    ghost use Rattle.desk_model.specs.EditText.{sort_of};

    ghost form = { sort_of };

    fn from_field(field: &[u8]) -> Option<PartSort> {
        PartSort::read(field)
    }
}

impl Field for EditWord {
    ghost use Rattle.desk_model.specs.EditWords.{edit_word_of};

    ghost form = { edit_word_of };

    fn from_field(field: &[u8]) -> Option<EditWord> {
        EditWord::read(field)
    }
}

impl Field for Annex {
    ghost use Rattle.desk_fields.specs.Forms.{annex_of_text};

    ghost form = { annex_of_text };

    #[tactic(auto, unfolding(crate::specs::Forms::annex_of_text))]
    fn from_field(field: &[u8]) -> Option<Annex> {
        Annex::with_number(read_u64(field).ok()?)
    }
}

impl Field for Option<Cas> {
    ghost use Rattle.desk_text.specs.Forms.{a_cas};
    ghost use Rattle.desk_fields.specs.Forms.{maybe};

    ghost form = { maybe a_cas };

    #[tactic(auto, unfolding(desk_text::specs::Forms::a_cas))]
    fn from_field(field: &[u8]) -> Option<Option<Cas>> {
        if field.is_empty() {
            return Some(None);
        }
        match Cas::read(field) {
            Ok(cas) => Some(Some(cas)),
            Err(_) => None,
        }
    }
}

impl Field for Count {
    ghost use Rattle.desk_model.specs.declared.limits.TheConstants.{COUNT_LIMIT};
    ghost use Rattle.desk_text.specs.Forms.{a_number};

    ghost form = { a_number 1 COUNT_LIMIT };

    #[tactic(auto, unfolding(desk_text::specs::Forms::a_number))]
    fn from_field(field: &[u8]) -> Option<Count> {
        count_of(read_u64(field).ok()?)
    }
}

impl Field for Factor {
    ghost use Rattle.desk_model.specs.declared.limits.TheConstants.{WHOLE_FACTOR};
    ghost use Rattle.desk_text.specs.Forms.{a_number};

    ghost form = { a_number 0 WHOLE_FACTOR };

    #[tactic(auto, unfolding(desk_text::specs::Forms::a_number))]
    fn from_field(field: &[u8]) -> Option<Factor> {
        factor_of(read_u64(field).ok()?)
    }
}

impl Field for Year {
    ghost use Rattle.desk_model.specs.declared.limits.TheConstants.{FIRST_SHIPMENT_YEAR, LAST_SHIPMENT_YEAR};
    ghost use Rattle.desk_text.specs.Forms.{a_number};

    ghost form = { a_number FIRST_SHIPMENT_YEAR LAST_SHIPMENT_YEAR };

    #[tactic(auto, unfolding(desk_text::specs::Forms::a_number))]
    fn from_field(field: &[u8]) -> Option<Year> {
        year_of(read_u64(field).ok()?)
    }
}

impl Field for Units {
    ghost use Rattle.desk_model.specs.declared.limits.TheConstants.{UNITS_LIMIT};
    ghost use Rattle.desk_text.specs.Forms.{a_number};

    ghost form = { a_number 1 UNITS_LIMIT };

    #[tactic(auto, unfolding(desk_text::specs::Forms::a_number))]
    fn from_field(field: &[u8]) -> Option<Units> {
        units_of(read_u64(field).ok()?)
    }
}
