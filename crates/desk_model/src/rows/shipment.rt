use crate::{TableName, TableRow, pair_code};
use desk_rows::{Grouped, Keyed};
use desk_text::{Bytes, Code, OutOfMemory};
use std::alloc::Global;
use std::cmp::Ordering;

/// How much of a product was placed on the market in a year: table 9.
#[derive(Clone, Copy, Debug, PartialEq, Eq)]
pub struct ShipmentRow {
    /// The calendar year from 2008 to 2099, the key's first part.
    pub year: u16,
    /// The product, the key's second part.
    pub product: Code,
    /// How many units: 1 to 1,000,000,000,000.
    pub units: u64,
}

impl Keyed for ShipmentRow {
    type Key = (u16, Code);

    ghost key = { λ row. (row.year, row.product) };

    fn compare(&self, sought: &(u16, Code)) -> Ordering {
        (self.year, self.product).cmp(sought)
    }

    fn compare_row(&self, other: &ShipmentRow) -> Ordering {
        (self.year, self.product).cmp(&(other.year, other.product))
    }

    fn copied(&self, _alloc: Global) -> Result<ShipmentRow, OutOfMemory> {
        Ok(*self)
    }
}

impl TableRow for ShipmentRow {
    ghost use Rattle.desk_model.specs.declared.row.Row.TheVariants.{Shipment};
    ghost use Rattle.desk_model.specs.declared.table_name.TableName.TheVariants.{Shipments};

    ghost as_row = { Shipment };

    ghost table = { Shipments };

    fn table() -> TableName {
        TableName::Shipments
    }

    #[tactic(auto, unfolding(crate::specs::Rows::record_code))]
    fn code_text(&self, alloc: Global) -> Result<Bytes, OutOfMemory> {
        let year = format!(in alloc; "{}", self.year)?;
        pair_code(alloc, year.as_bytes(), self.product.as_bytes())
    }

    #[tactic(auto, unfolding(crate::specs::RowTexts::body_text, crate::specs::RowTexts::body_fields))]
    fn body_text(&self, alloc: Global) -> Result<Bytes, OutOfMemory> {
        let text = format!(in alloc; "1\t{}", self.units)?;
        Ok(Bytes::from(text.into_bytes()))
    }
}

/// The shipments of one year stand together.
impl Grouped for ShipmentRow {
    type Group = u16;

    ghost group = { λ row. row.year };

    fn compare_group(&self, sought: &u16) -> Ordering {
        self.year.cmp(sought)
    }
}
