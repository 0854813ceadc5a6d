ghost use Rattle.std.specs.Prelude.{◌≡◌};
ghost use Rattle.desk_model.specs.Lists.{Lists};
ghost use Rattle.desk_history.specs.Refused.{exemption_span, foreign_material, kind_changed, masses_exceed, name_taken, no_such_line, outside_annex, ship_below_zero, stale_declaration, unknown_exemption, unknown_material, unknown_part, unknown_product, unknown_substance, units_too_large, wrong_child};

use crate::Tables;
use crate::declared::too_full_in;
use crate::refuse::{refuse_if, year_number};
use crate::terms::{breaks_annex, breaks_span};
use desk_model::limits::UNITS_LIMIT;
use desk_model::{Edit, RuleFault};

/// The refusals 2 to 17, which look-ups of a few rows decide: each tells its fault where the edit meets it.
impl Tables {
    /// 2: member or candidate names a substance that isn't kept, or a declared material lists one.
    #[tactic(auto, unfolding(desk_history::specs::Refused::unknown_substance))]
    pub(crate) fn unknown_substance(&self, edit: &Edit) -> Option<RuleFault>
        ensures { result ≡ unknown_substance self.now.lists edit.now }
    {
        match edit {
            Edit::Member { substance, .. } => self.substance_fault(substance),
            Edit::Declare { declaration } => self.unknown_in_declaration(declaration),
            Edit::Candidate { substance, .. } => self.substance_fault(substance),
            _ => None,
        }
    }

    /// 3: the line of a kept article leads to what is neither a kept material nor a kept part.
    #[tactic(auto, unfolding(desk_history::specs::Refused::unknown_material))]
    pub(crate) fn unknown_material(&self, edit: &Edit) -> Option<RuleFault>
        ensures { result ≡ unknown_material self.now.lists edit.now }
    {
        match edit {
            Edit::Line { parent, child, .. } => refuse_if(
                self.is_article(parent) && !self.is_kept(child),
                RuleFault::UnknownMaterial { code: *child },
            ),
            _ => None,
        }
    }

    /// 4: the parent of a line isn't a kept part; a kept assembly's line leads to what is neither a kept part nor a kept material; the
    /// part of a product isn't kept.
    #[tactic(auto, unfolding(desk_history::specs::Refused::unknown_part))]
    pub(crate) fn unknown_part(&self, edit: &Edit) -> Option<RuleFault>
        ensures { result ≡ unknown_part self.now.lists edit.now }
    {
        match edit {
            Edit::Line { parent, child, .. } => self.unknown_end(parent, child),
            Edit::Unline { parent, .. } => self.part_fault(parent),
            Edit::Product { part, .. } => self.part_fault(part),
            _ => None,
        }
    }

    /// 5: the shipped product isn't kept.
    #[tactic(auto, unfolding(desk_history::specs::Refused::unknown_product))]
    pub(crate) fn unknown_product(&self, edit: &Edit) -> Option<RuleFault>
        ensures { result ≡ unknown_product self.now.lists edit.now }
    {
        match edit {
            Edit::Ship { product, .. } => self.product_fault(product),
            Edit::Unship { product, .. } => self.product_fault(product),
            _ => None,
        }
    }

    /// 6: the exemption row isn't kept.
    #[tactic(auto, unfolding(desk_history::specs::Refused::unknown_exemption))]
    pub(crate) fn unknown_exemption(&self, edit: &Edit) -> Option<RuleFault>
        ensures { result ≡ unknown_exemption self.now.lists edit.now }
    {
        match edit {
            Edit::Unexempt { row, .. } => refuse_if(
                self.exemption(row).is_none(),
                RuleFault::UnknownExemption { row: *row },
            ),
            _ => None,
        }
    }

    /// 7: a declared material has a part's code, the first such; a part has a material's code.
    #[tactic(auto, unfolding(desk_history::specs::Refused::name_taken))]
    pub(crate) fn name_taken(&self, edit: &Edit) -> Option<RuleFault>
        ensures { result ≡ name_taken self.now.lists edit.now }
    {
        match edit {
            Edit::Declare { declaration } => self.named_as_part(declaration),
            Edit::Part { code, .. } => {
                refuse_if(self.is_material(code), RuleFault::NameTaken { code: *code })
            }
            _ => None,
        }
    }

    /// 8: the part is kept as the other of article and assembly.
    #[tactic(auto, unfolding(desk_history::specs::Refused::kind_changed))]
    pub(crate) fn kind_changed(&self, edit: &Edit) -> Option<RuleFault>
        ensures { result ≡ kind_changed self.now.lists edit.now }
    {
        match edit {
            Edit::Part { code, sort, .. } => self.sort_fault(code, *sort),
            _ => None,
        }
    }

    /// 9: the child of an article is a part, or that of an assembly is a material.
    #[tactic(auto, unfolding(desk_history::specs::Refused::wrong_child))]
    pub(crate) fn wrong_child(&self, edit: &Edit) -> Option<RuleFault>
        ensures { result ≡ wrong_child self.now.lists edit.now }
    {
        match edit {
            Edit::Line { parent, child, .. } => refuse_if(
                self.is_article(parent) && self.is_part(child)
                    || self.is_assembly(parent) && self.is_material(child),
                RuleFault::WrongChild { child: *child },
            ),
            _ => None,
        }
    }

    /// 10: the line isn't kept.
    #[tactic(auto, unfolding(desk_history::specs::Refused::no_such_line))]
    pub(crate) fn no_such_line(&self, edit: &Edit) -> Option<RuleFault>
        ensures { result ≡ no_such_line self.now.lists edit.now }
    {
        match edit {
            Edit::Unline { parent, child, .. } => refuse_if(
                !self.is_line(parent, child),
                RuleFault::NoSuchLine {
                    parent: *parent,
                    child: *child,
                },
            ),
            _ => None,
        }
    }

    /// 11: a declared material is kept from another supplier, the first such.
    #[tactic(auto, unfolding(desk_history::specs::Refused::foreign_material))]
    pub(crate) fn foreign_material(&self, edit: &Edit) -> Option<RuleFault>
        ensures { result ≡ foreign_material self.now.lists edit.now }
    {
        match edit {
            Edit::Declare { declaration } => self.foreign_in_declaration(declaration),
            _ => None,
        }
    }

    /// 12: a declared material is kept with a greater declaration number, the first such.
    #[tactic(auto, unfolding(desk_history::specs::Refused::stale_declaration))]
    pub(crate) fn stale_declaration(&self, edit: &Edit) -> Option<RuleFault>
        ensures { result ≡ stale_declaration self.now.lists edit.now }
    {
        match edit {
            Edit::Declare { declaration } => self.stale_in_declaration(declaration),
            _ => None,
        }
    }

    /// 16: more units are to be taken off than are kept.
    #[tactic(auto, unfolding(desk_history::specs::Refused::ship_below_zero))]
    pub(crate) fn ship_below_zero(&self, edit: &Edit) -> Option<RuleFault>
        ensures { result ≡ ship_below_zero self.now.lists edit.now }
    {
        match edit {
            Edit::Unship {
                product,
                year,
                units,
                ..
            } => {
                let kept = self.units_of(year_number(*year), product);
                refuse_if(kept < units.get(), RuleFault::ShipBelowZero { kept })
            }
            _ => None,
        }
    }

    /// 17: the year's units of the product would be more than an entry holds.
    #[tactic(auto, unfolding(desk_history::specs::Refused::units_too_large))]
    pub(crate) fn units_too_large(&self, edit: &Edit) -> Option<RuleFault>
        ensures { result ≡ units_too_large self.now.lists edit.now }
    {
        match edit {
            Edit::Ship {
                product,
                year,
                units,
                ..
            } => {
                let kept = self.units_of(year_number(*year), product);
                let after = u128::from(kept) + u128::from(units.get());
                refuse_if(after > u128::from(UNITS_LIMIT), RuleFault::UnitsTooLarge)
            }
            _ => None,
        }
    }
}

/// 13: a declared material's substance masses sum to more than its mass, the first such.
#[tactic(auto, unfolding(desk_history::specs::Refused::masses_exceed))]
pub(crate) fn masses_exceed(edit: &Edit) -> Option<RuleFault>
    ensures { (t : Lists) → result ≡ masses_exceed t edit.now }
{
    match edit {
        Edit::Declare { declaration } => too_full_in(declaration),
        _ => None,
    }
}

/// 14: the last day is before the first, or the floor is greater than the cap.
#[tactic(auto, unfolding(desk_history::specs::Refused::exemption_span))]
pub(crate) fn exemption_span(edit: &Edit) -> Option<RuleFault>
    ensures { (t : Lists) → result ≡ exemption_span t edit.now }
{
    match edit {
        Edit::Exemption { exemption, .. } => {
            refuse_if(breaks_span(&exemption.terms), RuleFault::ExemptionSpan)
        }
        _ => None,
    }
}

/// 15: the row names a kind that its annex isn't for.
#[tactic(auto, unfolding(desk_history::specs::Refused::outside_annex))]
pub(crate) fn outside_annex(edit: &Edit) -> Option<RuleFault>
    ensures { (t : Lists) → result ≡ outside_annex t edit.now }
{
    match edit {
        Edit::Exemption { exemption, .. } => {
            refuse_if(breaks_annex(&exemption.terms), RuleFault::AnnexKinds)
        }
        _ => None,
    }
}
