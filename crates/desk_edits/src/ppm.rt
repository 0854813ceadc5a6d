ghost use Rattle.std.specs.Prelude.{◌≡◌, true, Some, None, if◌then◌else◌};
ghost use Rattle.desk_model.specs.Terms.{is_ppm};

use desk_model::limits::PPM_LIMIT;
use std::marker::Model;

/// A share of a material in parts per million, at most the whole of it. Contracts see the number.
#[derive(Clone, Copy, Debug, PartialEq, Eq)]
pub(crate) struct Ppm {
    number: u32,
}

impl Model for Ppm {
    ghost use Rattle.std.specs.Prelude.{ℕ, ◌≤◌};
    ghost use Rattle.desk_model.specs.declared.limits.TheConstants.{PPM_LIMIT};

    ghost Value = { ℕ };

    ghost view = { λ ppm. ppm.number };

    ghost invariant = { λ ppm. ppm.number ≤ PPM_LIMIT };

    ghost inverse = { λ n. record { number = n } };
}

impl Ppm {
    /// The share, unless the number is more than the whole.
    pub(crate) fn new(number: u64) -> Option<Ppm>
        ensures { result ≡ (if is_ppm (Some number) then Some number else None) }
    {
        if number <= u64::from(PPM_LIMIT) {
            Some(Ppm {
                number: number as u32,
            })
        } else {
            None
        }
    }

    /// The number.
    pub(crate) fn get(self) -> u32
        ensures value { result ≡ self }
        ensures range { is_ppm (Some self) ≡ true }
    {
        self.number
    }
}
