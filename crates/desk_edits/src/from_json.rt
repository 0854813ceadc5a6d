ghost use Rattle.std.specs.Prelude.{◌≡◌};
ghost use Rattle.serde_json.specs.View.{view};

use crate::Ppm;
use desk_law::{Annex, Kind, Rule};
use desk_model::{Count, Factor, PartSort, Units, Year, count_of, factor_of, units_of, year_of};
use desk_text::{Cas, Code, Day, ExemptionNumber};
use serde_json::Value;

/// What the value of a key may be read as, without memory.
pub(crate) trait FromJson: Sized + Drop {
    // The form of such a value.
    ghost form: { Data → Option Self };

    ghost use Rattle.std.specs.Prelude.{◌≡◌, Option};
    ghost use Rattle.serde_json.specs.Data.{Data};
    ghost use Rattle.serde_json.specs.View.{view};

    /// What the value is, unless it isn't of the form.
    fn from_json(value: &Value) -> Option<Self>
        ensures { result ≡ form (view value.now) };
}

impl FromJson for Code {
    ghost use Rattle.desk_edits.specs.Values.{code_value};

    ghost form = { code_value };

    #[tactic(auto, unfolding(crate::specs::Values::code_value, desk_text::specs::Forms::a_code))]
    fn from_json(value: &Value) -> Option<Code> {
        Code::read(value.as_str()?.as_bytes()).ok()
    }
}

impl FromJson for ExemptionNumber {
    ghost use Rattle.desk_edits.specs.Values.{exemption_number_value};

    ghost form = { exemption_number_value };

    #[tactic(auto, unfolding(crate::specs::Values::exemption_number_value, desk_text::specs::Forms::an_exemption_number))]
    fn from_json(value: &Value) -> Option<ExemptionNumber> {
        ExemptionNumber::read(value.as_str()?.as_bytes()).ok()
    }
}

impl FromJson for Cas {
    ghost use Rattle.desk_edits.specs.Values.{cas_value};

    ghost form = { cas_value };

    #[tactic(auto, unfolding(crate::specs::Values::cas_value, desk_text::specs::Forms::a_cas))]
    fn from_json(value: &Value) -> Option<Cas> {
        Cas::read(value.as_str()?.as_bytes()).ok()
    }
}

impl FromJson for Day {
    ghost use Rattle.desk_edits.specs.Values.{day_value};

    ghost form = { day_value };

    #[tactic(auto, unfolding(crate::specs::Values::day_value, desk_text::specs::Forms::a_day))]
    fn from_json(value: &Value) -> Option<Day> {
        Day::read(value.as_str()?.as_bytes()).ok()
    }
}

impl FromJson for Rule {
    ghost use Rattle.desk_edits.specs.Values.{rule_value};

    ghost form = { rule_value };

    #[tactic(auto, unfolding(crate::specs::Values::rule_value))]
    fn from_json(value: &Value) -> Option<Rule> {
        Rule::read(value.as_str()?.as_bytes())
    }
}

impl FromJson for Kind {
    ghost use Rattle.desk_edits.specs.Values.{a_kind};

    ghost form = { a_kind };

    #[tactic(auto, unfolding(crate::specs::Values::a_kind))]
    fn from_json(value: &Value) -> Option<Kind> {
        Kind::read(value.as_str()?.as_bytes())
    }
}

impl FromJson for PartSort {
    ghost use Rattle.desk_edits.specs.Values.{a_sort};

    ghost form = { a_sort };

    #[tactic(auto, unfolding(crate::specs::Values::a_sort))]
    fn from_json(value: &Value) -> Option<PartSort> {
        PartSort::read(value.as_str()?.as_bytes())
    }
}

impl FromJson for Annex {
    ghost use Rattle.desk_edits.specs.Values.{annex_value};

    ghost form = { annex_value };

    #[tactic(auto, unfolding(crate::specs::Values::annex_value))]
    fn from_json(value: &Value) -> Option<Annex> {
        Annex::with_number(value.as_u64()?)
    }
}

impl FromJson for Count {
    ghost use Rattle.desk_edits.specs.Values.{a_count};

    ghost form = { a_count };

    #[tactic(auto, unfolding(crate::specs::Values::a_count))]
    fn from_json(value: &Value) -> Option<Count> {
        count_of(value.as_u64()?)
    }
}

impl FromJson for Factor {
    ghost use Rattle.desk_edits.specs.Values.{a_factor};

    ghost form = { a_factor };

    #[tactic(auto, unfolding(crate::specs::Values::a_factor))]
    fn from_json(value: &Value) -> Option<Factor> {
        factor_of(value.as_u64()?)
    }
}

impl FromJson for Year {
    ghost use Rattle.desk_edits.specs.Values.{a_year};

    ghost form = { a_year };

    #[tactic(auto, unfolding(crate::specs::Values::a_year))]
    fn from_json(value: &Value) -> Option<Year> {
        year_of(value.as_u64()?)
    }
}

impl FromJson for Units {
    ghost use Rattle.desk_edits.specs.Values.{some_units};

    ghost form = { some_units };

    #[tactic(auto, unfolding(crate::specs::Values::some_units))]
    fn from_json(value: &Value) -> Option<Units> {
        units_of(value.as_u64()?)
    }
}

impl FromJson for Ppm {
    ghost use Rattle.desk_edits.specs.Values.{a_ppm};

    ghost form = { a_ppm };

    #[tactic(auto, unfolding(crate::specs::Values::a_ppm))]
    fn from_json(value: &Value) -> Option<Ppm> {
        Ppm::new(value.as_u64()?)
    }
}
