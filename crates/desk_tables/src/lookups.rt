ghost use Rattle.std.specs.Prelude.{◌≡◌, true, false, option_copied, MatchOption};
ghost use Rattle.desk_model.specs.Lists.{candidate_row, exemption_row, is_kept, is_line, is_material, is_part, is_product, is_substance, line_row, material_row, member_row, part_row, product_row, shipment_row, substance_row};

use crate::Tables;
use desk_law::Rule;
use desk_model::{
    CandidateRow, ExemptionRow, LineRow, MaterialRow, MemberRow, PartRow, ProductRow, ShipmentRow,
    SubstanceRow,
};
use desk_rows::place_near;
use desk_text::Code;

impl Tables {
    /// The substance of this code, by a binary search.
    pub fn substance(&self, code: &Code) -> Option<&SubstanceRow>
        ensures { option_copied result ≡ substance_row self.now.lists code.now }
    {
        self.tables.substances.get(code)
    }

    /// The material of this code, by a binary search.
    pub fn material(&self, code: &Code) -> Option<&MaterialRow>
        ensures { option_copied result ≡ material_row self.now.lists code.now }
    {
        self.tables.materials.get(code)
    }

    /// The part of this code, by a binary search.
    pub fn part(&self, code: &Code) -> Option<&PartRow>
        ensures { option_copied result ≡ part_row self.now.lists code.now }
    {
        self.tables.parts.get(code)
    }

    /// The product of the part of this code, by a binary search.
    pub fn product(&self, part: &Code) -> Option<&ProductRow>
        ensures { option_copied result ≡ product_row self.now.lists part.now }
    {
        self.tables.products.get(part)
    }

    /// The exemption row of this code, by a binary search.
    pub fn exemption(&self, row: &Code) -> Option<&ExemptionRow>
        ensures { option_copied result ≡ exemption_row self.now.lists row.now }
    {
        self.tables.exemptions.get(row)
    }

    /// The candidate of the substance of this code, by a binary search.
    pub fn candidate(&self, substance: &Code) -> Option<&CandidateRow>
        ensures { option_copied result ≡ candidate_row self.now.lists substance.now }
    {
        self.tables.candidates.get(substance)
    }

    /// What the tables keep of the substance for the rule, by a binary search.
    pub fn member(&self, substance: &Code, rule: Rule) -> Option<&MemberRow>
        ensures { option_copied result ≡ member_row self.now.lists substance.now rule }
    {
        self.tables.members.get(&(*substance, rule.number()))
    }

    /// The line from the parent to the child, by a binary search.
    pub fn line(&self, parent: &Code, child: &Code) -> Option<&LineRow>
        ensures { option_copied result ≡ line_row self.now.lists parent.now child.now }
    {
        self.tables.lines.get(&(*parent, *child))
    }

    /// The shipment of the product in the year, by a binary search.
    pub fn shipment(&self, year: u16, product: &Code) -> Option<&ShipmentRow>
        ensures { option_copied result ≡ shipment_row self.now.lists year product.now }
    {
        self.tables.shipments.get(&(year, *product))
    }

    /// Where the substance of this code stands, if it is kept. It is looked for at this place first, and else by a binary search.
    pub(crate) fn substance_place(&self, code: &Code, near: usize) -> Option<usize>
        ensures { MatchOption result (is_substance self.now.lists code.now ≡ false) (λ place. is_substance self.now.lists code.now ≡ true) }
    {
        match place_near(self.tables.substances.as_slice(), code, near) {
            Ok(place) => Some(place),
            Err(_) => None,
        }
    }

    /// Whether a substance of this code is kept.
    pub fn is_substance(&self, code: &Code) -> bool
        ensures { result ≡ is_substance self.now.lists code.now }
    {
        self.substance(code).is_some()
    }

    /// Whether a material of this code is kept.
    pub fn is_material(&self, code: &Code) -> bool
        ensures { result ≡ is_material self.now.lists code.now }
    {
        self.material(code).is_some()
    }

    /// Whether a part of this code is kept.
    pub fn is_part(&self, code: &Code) -> bool
        ensures { result ≡ is_part self.now.lists code.now }
    {
        self.part(code).is_some()
    }

    /// Whether a product of this code is kept.
    pub fn is_product(&self, code: &Code) -> bool
        ensures { result ≡ is_product self.now.lists code.now }
    {
        self.product(code).is_some()
    }

    /// Whether a material or a part of this code is kept.
    pub fn is_kept(&self, code: &Code) -> bool
        ensures { result ≡ is_kept self.now.lists code.now }
    {
        self.is_material(code) || self.is_part(code)
    }

    /// Whether a line from the parent to the child is kept.
    pub fn is_line(&self, parent: &Code, child: &Code) -> bool
        ensures { result ≡ is_line self.now.lists parent.now child.now }
    {
        self.line(parent, child).is_some()
    }
}
