ghost use Rattle.std.specs.Prelude.{◌≡◌, ◌*◌, ◌<◌, ◌^◌, List, ℕ, map, sum_by, true, IfOk};
ghost use Rattle.std.specs.List.{AllByRecursion};
ghost use Rattle.desk_model.specs.Lists.{is_part, nodes_of};
ghost use Rattle.desk_findings.specs.Carried.{carried};
ghost use Rattle.desk_findings.specs.Tonnage.{tonnage};
ghost use Rattle.desk_totals.specs.Fit.{fit};

use crate::bill::Bill;
use desk_model::ShipmentRow;
use desk_rows::run_of;
use desk_text::{Code, OutOfMemory};
use std::alloc::Global;

impl<'a> Bill<'a> {
    /// The tonnage of each candidate in a year, in micrograms. It takes for each a look at each article, a few passes over
    /// nodes and lines, and a binary search for each shipment of the year.
    pub(crate) fn tonnages(&self, alloc: Global, year: u16) -> Result<Vec<u128>, OutOfMemory>
        ensures { IfOk result (λ sums. sums.items ≡ map (λ candidate. tonnage self.now year candidate.substance) self.now.candidates) }
    {
        let mut sums = Vec::new(alloc);
        for candidate in self.tables().candidates() {
            sums.push(self.sum_of(alloc, &candidate.substance, year)?)?;
        }
        Ok(sums)
    }

    /// The tonnage of a substance in a year, in micrograms.
    fn sum_of(&self, alloc: Global, substance: &Code, year: u16) -> Result<u128, OutOfMemory>
        ensures { IfOk result (λ sum. sum ≡ tonnage self.now year substance.now) }
    {
        let loads = self.loads(alloc, substance)?;
        Ok(self.tonnage(loads.as_slice(), year))
    }

    /// The sum over the year's shipments of units times what the product carries, in micrograms, by what each material
    /// and then each part carries. It takes a binary search for each shipment of the year.
    #[tactic(auto, unfolding(desk_findings::specs::Tonnage::tonnage))]
    fn tonnage(&self, loads: &[Option<u128>], year: u16) -> u128
        requires { (substance : List ℕ) × (loads.now ≡ map (λ code. fit (carried self.now substance code)) (nodes_of self.now)) }
        ensures { (substance : List ℕ) → loads.now ≡ map (λ code. fit (carried self.now substance code)) (nodes_of self.now)
            → result ≡ tonnage self.now year substance }
    {
        self.tonnage_of(loads, run_of(self.tables().shipments(), &year))
    }

    /// The sum over these shipments of units times what the product carries, in micrograms.
    fn tonnage_of(&self, loads: &[Option<u128>], shipments: &[ShipmentRow]) -> u128
        requires loads { (substance : List ℕ) × (loads.now ≡ map (λ code. fit (carried self.now substance code)) (nodes_of self.now))
            × (sum_by (λ shipment. shipment.units * carried self.now substance shipment.product) shipments.now < 2 ^ 128) }
        requires products { AllByRecursion (λ shipment. is_part self.now shipment.product ≡ true) shipments.now }
        ensures { (substance : List ℕ) → loads.now ≡ map (λ code. fit (carried self.now substance code)) (nodes_of self.now)
            → result ≡ sum_by (λ shipment. shipment.units * carried self.now substance shipment.product) shipments.now }
    {
        let mut sum = 0u128;
        for shipment in shipments {
            sum += u128::from(shipment.units) * self.load(loads, &shipment.product);
        }
        sum
    }
}
