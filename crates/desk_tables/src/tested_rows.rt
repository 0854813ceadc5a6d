ghost use Rattle.std.specs.Prelude.{◌≡◌, length, nat_lt};
ghost use Rattle.desk_model.specs.Terms.{are_kinds, are_terms_in_range, is_ppm};
ghost use Rattle.desk_model.specs.Forms.{is_exemption_row};
ghost use Rattle.desk_model.specs.declared.limits.TheConstants.{LINES_OF_PARENT_LIMIT};
ghost use Rattle.desk_findings.specs.Bill.{has_right_child};
ghost use Rattle.desk_findings.specs.Reaches.{lines_of};

use crate::Tables;
use crate::content::{self, are_substances_kept, holds_too_much};
use crate::terms::{breaks_annex, breaks_span};
use crate::tested_row::TestedRow;
use desk_law::{KindSet, Terms};
use desk_model::limits::{
    COUNT_LIMIT, FIRST_SHIPMENT_YEAR, LAST_SHIPMENT_YEAR, LINES_OF_PARENT_LIMIT, PPM_LIMIT,
    UNITS_LIMIT, WHOLE_FACTOR,
};
use desk_model::{
    CandidateRow, ExemptionRow, LineRow, MaterialRow, MemberRow, PartRow, ProductRow, ShipmentRow,
    SubstanceRow,
};
use desk_rows::run_of;
use desk_text::Code;

impl TestedRow for SubstanceRow {
    ghost use Rattle.desk_history.specs.Fits.{fits_substance};

    ghost fits = { fits_substance };

    fn fits(&self, _tables: &Tables) -> bool {
        self.code.as_bytes();
        self.name.as_bytes();
        if let Some(cas) = &self.cas {
            cas.as_bytes();
        }
        true
    }
}

impl TestedRow for MemberRow {
    ghost use Rattle.desk_history.specs.Fits.{fits_member};

    ghost fits = { fits_member };

    fn fits(&self, tables: &Tables) -> bool {
        self.substance.as_bytes();
        let factor = u64::from(self.factor);
        1 <= factor && factor <= WHOLE_FACTOR && tables.is_substance(&self.substance)
    }
}

impl TestedRow for MaterialRow {
    ghost use Rattle.desk_history.specs.Fits.{fits_material};

    ghost fits = { fits_material };

    fn fits(&self, tables: &Tables) -> bool {
        content::is_in_form(self)
            && are_substances_kept(tables, self.substances.as_slice())
            && !holds_too_much(self)
    }
}

impl TestedRow for PartRow {
    ghost use Rattle.desk_history.specs.Fits.{fits_part};

    ghost fits = { fits_part };

    fn fits(&self, tables: &Tables) -> bool {
        self.code.as_bytes();
        self.name.as_bytes();
        !tables.is_material(&self.code)
    }
}

impl TestedRow for LineRow {
    ghost use Rattle.desk_history.specs.Fits.{fits_line};

    ghost fits = { fits_line };

    fn fits(&self, tables: &Tables) -> bool {
        self.parent.as_bytes();
        self.child.as_bytes();
        let count = u64::from(self.count);
        1 <= count
            && count <= COUNT_LIMIT
            && has_right_child(tables, self)
            && !has_too_many_lines(tables, &self.parent)
    }
}

impl TestedRow for ProductRow {
    ghost use Rattle.desk_history.specs.Fits.{fits_product};

    ghost fits = { fits_product };

    fn fits(&self, tables: &Tables) -> bool {
        self.part.as_bytes();
        tables.is_part(&self.part)
    }
}

impl TestedRow for ExemptionRow {
    ghost use Rattle.desk_history.specs.Fits.{fits_exemption};

    ghost fits = { fits_exemption };

    fn fits(&self, _tables: &Tables) -> bool {
        is_in_form(self) && !breaks_span(&self.terms) && !breaks_annex(&self.terms)
    }
}

impl TestedRow for CandidateRow {
    ghost use Rattle.desk_history.specs.Fits.{fits_candidate};

    ghost fits = { fits_candidate };

    fn fits(&self, tables: &Tables) -> bool {
        self.substance.as_bytes();
        self.day.year();
        tables.is_substance(&self.substance)
    }
}

impl TestedRow for ShipmentRow {
    ghost use Rattle.desk_history.specs.Fits.{fits_shipment};

    ghost fits = { fits_shipment };

    fn fits(&self, tables: &Tables) -> bool {
        self.product.as_bytes();
        let year = u64::from(self.year);
        FIRST_SHIPMENT_YEAR <= year
            && year <= LAST_SHIPMENT_YEAR
            && 1 <= self.units
            && self.units <= UNITS_LIMIT
            && tables.is_product(&self.product)
    }
}

/// Whether the row's values are of their form and in their range: it names a kind of equipment, and its floor and its
/// cap are parts per million.
#[tactic(auto, unfolding(desk_model::specs::Forms::is_exemption_row))]
fn is_in_form(row: &ExemptionRow) -> bool
    ensures { result ≡ is_exemption_row row.now }
{
    row.terms.row.as_bytes();
    row.terms.number.as_bytes();
    row.terms.first.year();
    row.terms.last.year();
    row.application.as_bytes();
    are_terms_in_range(&row.terms)
}

/// Whether there is a kind, and floor and cap are parts per million.
fn are_terms_in_range(terms: &Terms) -> bool
    ensures { result ≡ are_terms_in_range terms.now }
{
    are_kinds(&terms.kinds) && is_ppm(terms.floor) && is_ppm(terms.cap)
}

/// Whether there is a kind.
fn are_kinds(kinds: &KindSet) -> bool
    ensures { result ≡ are_kinds kinds.now }
{
    !kinds.is_empty()
}

/// Whether there is no bound, or it is at most the whole material.
fn is_ppm(ppm: Option<u32>) -> bool
    ensures { result ≡ is_ppm ppm }
{
    match ppm {
        Some(ppm) => ppm <= PPM_LIMIT,
        None => true,
    }
}

/// Whether the line is an article's and leads to a material, or an assembly's and leads to a part.
fn has_right_child(tables: &Tables, line: &LineRow) -> bool
    ensures { result ≡ has_right_child tables.now.lists line.now }
{
    tables.is_article(&line.parent) && tables.is_material(&line.child)
        || tables.is_assembly(&line.parent) && tables.is_part(&line.child)
}

/// Whether the part has more lines than one parent may have. It takes two binary searches.
fn has_too_many_lines(tables: &Tables, parent: &Code) -> bool
    ensures { result ≡ nat_lt LINES_OF_PARENT_LIMIT (length (lines_of tables.now.lists.lines parent.now)) }
{
    // The call does nothing but say that lines of one parent stand together.
    tables.in_order();
    run_of(tables.lines(), parent).len() > LINES_OF_PARENT_LIMIT
}
