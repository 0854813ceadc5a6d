ghost use Rattle.std.specs.Prelude.{◌≡◌};
ghost use Rattle.desk_history.specs.Refused.{first_some};
ghost use Rattle.desk_history.specs.Refused.{refusals_of_names, refusals_of_values};

use crate::Tables;
use crate::rules::{exemption_span, masses_exceed, outside_annex};
use desk_model::{Edit, RuleFault};

/// The rules that look-ups decide, in their order.
impl Tables {
    /// The first of the refusals 2 to 10, on the names in an edit, that the edit meets.
    pub(crate) fn refused_by_names(&self, edit: &Edit) -> Option<RuleFault>
        ensures { result ≡ first_some (refusals_of_names self.now.lists edit.now) }
    {
        if let Some(fault) = self.unknown_substance(edit) {
            return Some(fault);
        }
        if let Some(fault) = self.unknown_material(edit) {
            return Some(fault);
        }
        if let Some(fault) = self.unknown_part(edit) {
            return Some(fault);
        }
        if let Some(fault) = self.unknown_product(edit) {
            return Some(fault);
        }
        if let Some(fault) = self.unknown_exemption(edit) {
            return Some(fault);
        }
        if let Some(fault) = self.name_taken(edit) {
            return Some(fault);
        }
        if let Some(fault) = self.kind_changed(edit) {
            return Some(fault);
        }
        if let Some(fault) = self.wrong_child(edit) {
            return Some(fault);
        }
        self.no_such_line(edit)
    }

    /// The first of the refusals 11 to 17, on the values in an edit, that the edit meets.
    pub(crate) fn refused_by_values(&self, edit: &Edit) -> Option<RuleFault>
        ensures { result ≡ first_some (refusals_of_values self.now.lists edit.now) }
    {
        if let Some(fault) = self.foreign_material(edit) {
            return Some(fault);
        }
        if let Some(fault) = self.stale_declaration(edit) {
            return Some(fault);
        }
        if let Some(fault) = masses_exceed(edit) {
            return Some(fault);
        }
        if let Some(fault) = exemption_span(edit) {
            return Some(fault);
        }
        if let Some(fault) = outside_annex(edit) {
            return Some(fault);
        }
        if let Some(fault) = self.ship_below_zero(edit) {
            return Some(fault);
        }
        self.units_too_large(edit)
    }
}
