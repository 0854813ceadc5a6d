ghost use Rattle.std.specs.Prelude.{◌≡◌, not, ◌&&◌, if◌then◌else◌, Some};
ghost use Rattle.desk_model.specs.Effect.{units_of};
ghost use Rattle.desk_model.specs.Lists.{is_kept, is_part, is_product, is_substance, part_row};
ghost use Rattle.desk_findings.specs.Articles.{is_article, is_assembly, same_sort};
ghost use Rattle.std.specs.Option.{option_and_then};
ghost use Rattle.desk_history.specs.Refused.{refuse_if};
ghost use Rattle.desk_model.specs.declared.rule_fault.RuleFault.TheVariants.{KindChanged, UnknownPart, UnknownProduct, UnknownSubstance};

use crate::Tables;
use crate::refuse::refuse_if;
use desk_model::{PartSort, RuleFault};
use desk_text::Code;

/// What single rows say of an edit's codes.
impl Tables {
    /// Whether an article of this code is kept.
    pub fn is_article(&self, code: &Code) -> bool
        ensures { result ≡ is_article self.now.lists code.now }
    {
        match self.part(code) {
            Some(part) => part.sort == PartSort::Article,
            None => false,
        }
    }

    /// Whether an assembly of this code is kept.
    pub fn is_assembly(&self, code: &Code) -> bool
        ensures { result ≡ is_assembly self.now.lists code.now }
    {
        match self.part(code) {
            Some(part) => part.sort == PartSort::Assembly,
            None => false,
        }
    }

    /// How many units of the product the year's entry holds, 0 where there is none.
    pub fn units_of(&self, year: u16, product: &Code) -> u64
        ensures { result ≡ units_of self.now.lists year product.now }
    {
        match self.shipment(year, product) {
            Some(shipment) => shipment.units,
            None => 0,
        }
    }

    /// The fault of naming a substance that isn't kept.
    pub(crate) fn substance_fault(&self, code: &Code) -> Option<RuleFault>
        ensures { result ≡ refuse_if (not (is_substance self.now.lists code.now)) (UnknownSubstance code.now) }
    {
        refuse_if(
            !self.is_substance(code),
            RuleFault::UnknownSubstance { code: *code },
        )
    }

    /// The fault of naming a part that isn't kept.
    pub(crate) fn part_fault(&self, code: &Code) -> Option<RuleFault>
        ensures { result ≡ refuse_if (not (is_part self.now.lists code.now)) (UnknownPart code.now) }
    {
        refuse_if(!self.is_part(code), RuleFault::UnknownPart { code: *code })
    }

    /// The fault of naming a product that isn't kept.
    pub(crate) fn product_fault(&self, code: &Code) -> Option<RuleFault>
        ensures { result ≡ refuse_if (not (is_product self.now.lists code.now)) (UnknownProduct code.now) }
    {
        refuse_if(
            !self.is_product(code),
            RuleFault::UnknownProduct { code: *code },
        )
    }

    /// The fault of a line whose parent isn't a kept part, or is a kept assembly whose child isn't kept.
    pub(crate) fn unknown_end(&self, parent: &Code, child: &Code) -> Option<RuleFault>
        ensures { result ≡ (if not (is_part self.now.lists parent.now) then Some (UnknownPart parent.now)
            else refuse_if (is_assembly self.now.lists parent.now && not (is_kept self.now.lists child.now)) (UnknownPart child.now)) }
    {
        if !self.is_part(parent) {
            return Some(RuleFault::UnknownPart { code: *parent });
        }
        refuse_if(
            self.is_assembly(parent) && !self.is_kept(child),
            RuleFault::UnknownPart { code: *child },
        )
    }

    /// The fault of a part that is kept as the other sort.
    pub(crate) fn sort_fault(&self, code: &Code, sort: PartSort) -> Option<RuleFault>
        ensures { result ≡ option_and_then (λ part. refuse_if (not (same_sort part.sort sort)) (KindChanged code.now))
            (part_row self.now.lists code.now) }
    {
        match self.part(code) {
            Some(part) => refuse_if(part.sort != sort, RuleFault::KindChanged { code: *code }),
            None => None,
        }
    }
}
