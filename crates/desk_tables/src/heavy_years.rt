ghost use Rattle.std.specs.Prelude.{◌≡◌, ◌+◌, ◌*◌, true, map, sum_by};
ghost use Rattle.std.specs.List.{AllByRecursion};
ghost use Rattle.desk_model.specs.Lists.{is_part};
ghost use Rattle.desk_findings.specs.Mass.{mass};
ghost use Rattle.desk_findings.specs.Totals.{too_heavy_year, year_mass};
ghost use Rattle.desk_history.specs.Sound.{IsConsistent};
ghost use Rattle.desk_totals.specs.Fit.{fit, fit_with};

use crate::TableLists;
use desk_model::ShipmentRow;
use desk_model::limits::{FIRST_SHIPMENT_YEAR, LAST_SHIPMENT_YEAR};
use desk_rows::{place_of_key, run_of};
use desk_text::Code;

impl<'a> TableLists<'a> {
    /// The least year whose units weigh 2^128 micrograms or more. The masses stand in the order of the parts, None for one of 2^128
    /// micrograms or more.
    ///
    /// It takes two binary searches for each year and one for each shipment.
    pub(crate) fn too_heavy_year(&self, masses: &[Option<u128>]) -> Option<u16>
        requires consistent { IsConsistent self.now }
        requires masses { masses.now ≡ map (λ part. fit (mass self.now part.code)) self.now.parts }
        ensures { result ≡ too_heavy_year self.now }
    {
        for year in FIRST_SHIPMENT_YEAR as u16..=LAST_SHIPMENT_YEAR as u16 {
            if self.mass_of_year(masses, year).is_none() {
                return Some(year);
            }
        }
        None
    }

    /// What the year's units weigh, in micrograms: None for 2^128 or more.
    fn mass_of_year(&self, masses: &[Option<u128>], year: u16) -> Option<u128>
        requires consistent { IsConsistent self.now }
        requires masses { masses.now ≡ map (λ part. fit (mass self.now part.code)) self.now.parts }
        ensures { result ≡ fit (year_mass self.now year) }
    {
        self.mass_of_shipments(masses, run_of(self.shipments(), &year))
    }

    /// What the units of these shipments weigh, in micrograms: None for 2^128 or more.
    fn mass_of_shipments(&self, masses: &[Option<u128>], shipments: &[ShipmentRow]) -> Option<u128>
        requires consistent { IsConsistent self.now }
        requires masses { masses.now ≡ map (λ part. fit (mass self.now part.code)) self.now.parts }
        requires products { AllByRecursion (λ shipment. is_part self.now shipment.product ≡ true) shipments.now }
        ensures { result ≡ fit (sum_by (λ shipment. shipment.units * mass self.now shipment.product) shipments.now) }
    {
        let mut total = Some(0);
        for shipment in shipments {
            total = with_units(
                total,
                shipment.units,
                self.mass_of_part(masses, &shipment.product),
            );
        }
        total
    }

    /// What one unit of the part weighs, in micrograms: None for 2^128 or more. It takes a binary search.
    pub fn mass_of_part(&self, masses: &[Option<u128>], part: &Code) -> Option<u128>
        requires consistent { IsConsistent self.now }
        requires masses { masses.now ≡ map (λ part. fit (mass self.now part.code)) self.now.parts }
        requires kept { is_part self.now part.now ≡ true }
        ensures { result ≡ fit (mass self.now part.now) }
    {
        match place_of_key(self.parts(), part) {
            Ok(at) => masses[at],
            Err(_) => unreachable!(),
        }
    }
}

/// A mass and that of so many units, None where it is 2^128 or more. A mass of None counts where there is a unit of it.
#[tactic(auto, unfolding(desk_totals::specs::Fit::fit_with))]
fn with_units(total: Option<u128>, units: u64, mass: Option<u128>) -> Option<u128>
    ensures { result ≡ fit_with total units mass }
{
    if units == 0 {
        return total;
    }
    match (total, mass) {
        (Some(total), Some(mass)) => sum_with(total, units, mass),
        _ => None,
    }
}

/// A mass and that of so many units, where one weighs less than 2^128 micrograms: None where it is 2^128 or more.
fn sum_with(total: u128, units: u64, mass: u128) -> Option<u128>
    ensures { result ≡ fit (total + units * mass) }
{
    match mass.checked_mul(u128::from(units)) {
        Some(product) => total.checked_add(product),
        None => None,
    }
}
