ghost use Rattle.std.specs.Prelude.{◌≡◌, ◌≢◌, true, false, IfSome, IsNone};
ghost use Rattle.std.specs.List.{list_all};
ghost use Rattle.desk_model.specs.declared.table_name.TableName.{TableName};
ghost use Rattle.desk_model.specs.declared.table_name.TableName.TheVariants.{Substances, Members, Materials, Parts, Lines, Products, Exemptions, Candidates, Shipments, Tickets};
ghost use Rattle.desk_history.specs.Fits.{DoRowsFit, fits_candidate, fits_exemption, fits_line, fits_material, fits_member, fits_part, fits_product, fits_shipment, fits_substance};
ghost use Rattle.desk_history.specs.Limits.{is_overfull};
ghost use Rattle.desk_tables.specs.Soundness.{NamesBreach};

use crate::tested_row::rows_fault;
use crate::{SoundFault, Tables};
use std::alloc::Global;

/// The tests of tables 1 to 9, row by row: what each row has to keep by itself, and how many rows there may be.
impl Tables {
    /// A fault of a row of the tables 1 to 9, if there is one.
    pub(crate) fn row_fault(&self, alloc: Global) -> Option<SoundFault>
        ensures fit { IsNone result → DoRowsFit self.now.lists }
        ensures few { IsNone result → (table : TableName) → table ≢ Tickets → is_overfull self.now.lists table ≡ false }
        ensures told { IfSome result (NamesBreach self.now.lists) }
    {
        if let Some(fault) = self.substances_fault(alloc) {
            return Some(fault);
        }
        if let Some(fault) = self.members_fault(alloc) {
            return Some(fault);
        }
        if let Some(fault) = self.parts_fault(alloc) {
            return Some(fault);
        }
        if let Some(fault) = self.lines_fault(alloc) {
            return Some(fault);
        }
        if let Some(fault) = self.products_fault(alloc) {
            return Some(fault);
        }
        if let Some(fault) = self.exemptions_fault(alloc) {
            return Some(fault);
        }
        if let Some(fault) = self.candidates_fault(alloc) {
            return Some(fault);
        }
        if let Some(fault) = self.shipments_fault(alloc) {
            return Some(fault);
        }
        self.materials_fault(alloc)
    }

    /// A fault of table 1, if there is one.
    fn substances_fault(&self, alloc: Global) -> Option<SoundFault>
        ensures fit { IsNone result → list_all (fits_substance self.now.lists) self.now.lists.substances ≡ true }
        ensures few { IsNone result → is_overfull self.now.lists Substances ≡ false }
        ensures told { IfSome result (NamesBreach self.now.lists) }
    {
        rows_fault(alloc, self, self.substances())
    }

    /// A fault of table 2, if there is one.
    fn members_fault(&self, alloc: Global) -> Option<SoundFault>
        ensures fit { IsNone result → list_all (fits_member self.now.lists) self.now.lists.members ≡ true }
        ensures few { IsNone result → is_overfull self.now.lists Members ≡ false }
        ensures told { IfSome result (NamesBreach self.now.lists) }
    {
        rows_fault(alloc, self, self.members())
    }

    /// A fault of table 3, if there is one.
    fn materials_fault(&self, alloc: Global) -> Option<SoundFault>
        ensures fit { IsNone result → list_all (fits_material self.now.lists) self.now.lists.materials ≡ true }
        ensures few { IsNone result → is_overfull self.now.lists Materials ≡ false }
        ensures told { IfSome result (NamesBreach self.now.lists) }
    {
        rows_fault(alloc, self, self.materials())
    }

    /// A fault of table 4, if there is one.
    fn parts_fault(&self, alloc: Global) -> Option<SoundFault>
        ensures fit { IsNone result → list_all (fits_part self.now.lists) self.now.lists.parts ≡ true }
        ensures few { IsNone result → is_overfull self.now.lists Parts ≡ false }
        ensures told { IfSome result (NamesBreach self.now.lists) }
    {
        rows_fault(alloc, self, self.parts())
    }

    /// A fault of table 5, if there is one.
    fn lines_fault(&self, alloc: Global) -> Option<SoundFault>
        ensures fit { IsNone result → list_all (fits_line self.now.lists) self.now.lists.lines ≡ true }
        ensures few { IsNone result → is_overfull self.now.lists Lines ≡ false }
        ensures told { IfSome result (NamesBreach self.now.lists) }
    {
        rows_fault(alloc, self, self.lines())
    }

    /// A fault of table 6, if there is one.
    fn products_fault(&self, alloc: Global) -> Option<SoundFault>
        ensures fit { IsNone result → list_all (fits_product self.now.lists) self.now.lists.products ≡ true }
        ensures few { IsNone result → is_overfull self.now.lists Products ≡ false }
        ensures told { IfSome result (NamesBreach self.now.lists) }
    {
        rows_fault(alloc, self, self.products())
    }

    /// A fault of table 7, if there is one.
    fn exemptions_fault(&self, alloc: Global) -> Option<SoundFault>
        ensures fit { IsNone result → list_all (fits_exemption self.now.lists) self.now.lists.exemptions ≡ true }
        ensures few { IsNone result → is_overfull self.now.lists Exemptions ≡ false }
        ensures told { IfSome result (NamesBreach self.now.lists) }
    {
        rows_fault(alloc, self, self.exemptions())
    }

    /// A fault of table 8, if there is one.
    fn candidates_fault(&self, alloc: Global) -> Option<SoundFault>
        ensures fit { IsNone result → list_all (fits_candidate self.now.lists) self.now.lists.candidates ≡ true }
        ensures few { IsNone result → is_overfull self.now.lists Candidates ≡ false }
        ensures told { IfSome result (NamesBreach self.now.lists) }
    {
        rows_fault(alloc, self, self.candidates())
    }

    /// A fault of table 9, if there is one.
    fn shipments_fault(&self, alloc: Global) -> Option<SoundFault>
        ensures fit { IsNone result → list_all (fits_shipment self.now.lists) self.now.lists.shipments ≡ true }
        ensures few { IsNone result → is_overfull self.now.lists Shipments ≡ false }
        ensures told { IfSome result (NamesBreach self.now.lists) }
    {
        rows_fault(alloc, self, self.shipments())
    }
}
