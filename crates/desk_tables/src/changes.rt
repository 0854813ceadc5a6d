ghost use Rattle.std.specs.Prelude.{◌≡◌, ◌+◌, IfOk, None, true};
ghost use Rattle.desk_text.specs.Code.{code_cmp};
ghost use Rattle.desk_rows.specs.Rows.{IsByKey, with_row};
ghost use Rattle.desk_model.specs.Effect.{declared_row, declared_rows, with_edit_made, with_factor, with_units};
ghost use Rattle.desk_model.specs.Forms.{is_of_bill};
ghost use Rattle.desk_model.specs.Lists.{line_key, line_key_cmp};
ghost use Rattle.desk_model.specs.declared.edit.Edit.TheVariants.{Declare};
ghost use Rattle.desk_history.specs.Refused.{units_too_large};
ghost use Rattle.desk_tables.specs.Change.{IsReady, with_change_made};
ghost use Rattle.desk_tables.specs.Sums.{is_of_sums, may_raise_sums};

use crate::refuse::year_number;
use crate::{RowChange, Tables};
use desk_law::{Kind, Rule};
use desk_model::{
    CandidateRow, Count, Declaration, Edit, Exemption, ExemptionRow, Factor, LineRow, ListOf,
    MaterialDecl, MaterialRow, MemberRow, PartRow, PartSort, ProductRow, ShipmentRow, SubstanceRow,
};
use desk_text::{Cas, Code, Day, Name, OutOfMemory};
use std::alloc::Global;

/// What edits make of the rows. Each of these calls answers `OutOfMemory` where none was left for the rows or for their room.
impl Tables {
    /// What the edit makes of the rows of its table, with room for it. The year's units have to be in range.
    #[tactic(auto, unfolding(desk_model::specs::Effect::with_edit_made, crate::specs::Change::with_change_made, crate::specs::Change::IsReady))]
    pub(crate) fn change_for(&self, alloc: Global, edit: &Edit) -> Result<RowChange, OutOfMemory>
        requires { units_too_large self.now.lists edit.now ≡ None }
        ensures made { IfOk result (λ change. with_change_made self.now.lists change ≡ with_edit_made self.now.lists edit.now) }
        ensures ready { IfOk result (λ change. IsReady self.now change) }
        ensures sums { IfOk result (λ change. may_raise_sums edit.now ≡ true → is_of_sums change ≡ true) }
    {
        match edit {
            Edit::Substance {
                code,
                name,
                cas,
                ..
            } => self.put_substance(alloc, *code, name, *cas),
            Edit::Member {
                substance,
                rule,
                factor,
                ..
            } => self.set_factor(alloc, *substance, *rule, *factor),
            Edit::Declare { declaration } => self.put_materials(alloc, declaration),
            Edit::Exemption { exemption, .. } => self.put_exemption(alloc, exemption),
            Edit::Unexempt { row, .. } => Ok(RowChange::DropExemption { row: *row }),
            Edit::Candidate { substance, day, .. } => self.put_candidate(alloc, *substance, *day),
            _ => self.bill_change(alloc, edit),
        }
    }

    /// What an edit of a part, a line, a product or its shipments makes of the rows.
    #[tactic(auto, unfolding(desk_model::specs::Effect::with_edit_made, crate::specs::Change::with_change_made, crate::specs::Change::IsReady, desk_history::specs::Refused::units_too_large))]
    fn bill_change(&self, alloc: Global, edit: &Edit) -> Result<RowChange, OutOfMemory>
        requires bill { is_of_bill edit.now ≡ true }
        requires units { units_too_large self.now.lists edit.now ≡ None }
        ensures made { IfOk result (λ change. with_change_made self.now.lists change ≡ with_edit_made self.now.lists edit.now) }
        ensures ready { IfOk result (λ change. IsReady self.now change) }
        ensures sums { IfOk result (λ change. may_raise_sums edit.now ≡ true → is_of_sums change ≡ true) }
    {
        match edit {
            Edit::Part {
                code,
                sort,
                name,
                ..
            } => self.put_part(alloc, *code, *sort, name),
            Edit::Line {
                parent,
                child,
                count,
                ..
            } => self.put_line(alloc, *parent, *child, *count),
            Edit::Unline { parent, child, .. } => Ok(RowChange::DropLine {
                parent: *parent,
                child: *child,
            }),
            Edit::Product { part, kind, .. } => self.put_product(alloc, *part, *kind),
            Edit::Ship {
                product,
                year,
                units,
                ..
            } => {
                let year = year_number(*year);
                let units = self.units_of(year, product) + units.get();
                self.set_units(alloc, year, *product, units)
            }
            Edit::Unship {
                product,
                year,
                units,
                ..
            } => {
                let year = year_number(*year);
                let units = self.units_of(year, product).saturating_sub(units.get());
                self.set_units(alloc, year, *product, units)
            }
            _ => unreachable!(),
        }
    }

    /// The substance goes in.
    #[tactic(auto, unfolding(desk_model::specs::Effect::with_edit_made, crate::specs::Change::with_change_made, crate::specs::Change::IsReady))]
    fn put_substance(
        &self,
        alloc: Global,
        code: Code,
        name: &Name,
        cas: Option<Cas>,
    ) -> Result<RowChange, OutOfMemory>
        ensures made { IfOk result (λ change. with_change_made self.now.lists change
            ≡ record self.now.lists { substances = with_row (λ row. row.code) code_cmp (record { code = code; name = name.now; cas = cas }) self.now.lists.substances }) }
        ensures ready { IfOk result (λ change. IsReady self.now change) }
    {
        let name = name.clone()?;
        let row = SubstanceRow { code, name, cas };
        let room = self.tables.substances.room_for(alloc, 1)?;
        Ok(RowChange::PutSubstance { row, room })
    }

    /// The rule counts the substance by this factor, and not at all where it is 0.
    #[tactic(auto, unfolding(crate::specs::Change::with_change_made, crate::specs::Change::IsReady))]
    fn set_factor(
        &self,
        alloc: Global,
        substance: Code,
        rule: Rule,
        factor: Factor,
    ) -> Result<RowChange, OutOfMemory>
        ensures made { IfOk result (λ change. with_change_made self.now.lists change ≡ with_factor self.now.lists substance rule factor) }
        ensures ready { IfOk result (λ change. IsReady self.now change) }
        ensures sums { IfOk result (λ change. is_of_sums change ≡ true) }
    {
        let factor = factor.get() as u32;
        if factor == 0 {
            return Ok(RowChange::DropMember { substance, rule });
        }
        let row = MemberRow {
            substance,
            rule,
            factor,
        };
        let room = self.tables.members.room_for(alloc, 1)?;
        Ok(RowChange::PutMember { row, room })
    }

    /// The materials of the declaration go in.
    #[tactic(auto, unfolding(desk_model::specs::Effect::with_edit_made, crate::specs::Change::with_change_made, crate::specs::Change::IsReady))]
    fn put_materials(
        &self,
        alloc: Global,
        declaration: &Declaration,
    ) -> Result<RowChange, OutOfMemory>
        ensures made { IfOk result (λ change. with_change_made self.now.lists change ≡ with_edit_made self.now.lists (Declare declaration.now)) }
        ensures ready { IfOk result (λ change. IsReady self.now change) }
        ensures sums { IfOk result (λ change. is_of_sums change ≡ true) }
    {
        let rows = declared_rows(alloc, declaration)?;
        let room = self
            .tables
            .materials
            .room_for(alloc, rows.as_slice().len())?;
        Ok(RowChange::PutMaterials { rows, room })
    }

    /// The exemption row goes in.
    #[tactic(auto, unfolding(desk_model::specs::Effect::with_edit_made, crate::specs::Change::with_change_made, crate::specs::Change::IsReady))]
    fn put_exemption(&self, alloc: Global, exemption: &Exemption) -> Result<RowChange, OutOfMemory>
        ensures made { IfOk result (λ change. with_change_made self.now.lists change
            ≡ record self.now.lists { exemptions = with_row (λ row. row.terms.row) code_cmp (exemption.now) self.now.lists.exemptions }) }
        ensures ready { IfOk result (λ change. IsReady self.now change) }
    {
        let row = ExemptionRow {
            terms: exemption.terms,
            application: exemption.application.clone()?,
        };
        let room = self.tables.exemptions.room_for(alloc, 1)?;
        Ok(RowChange::PutExemption { row, room })
    }

    /// The candidate goes in.
    #[tactic(auto, unfolding(desk_model::specs::Effect::with_edit_made, crate::specs::Change::with_change_made, crate::specs::Change::IsReady))]
    fn put_candidate(
        &self,
        alloc: Global,
        substance: Code,
        day: Day,
    ) -> Result<RowChange, OutOfMemory>
        ensures made { IfOk result (λ change. with_change_made self.now.lists change
            ≡ record self.now.lists { candidates = with_row (λ row. row.substance) code_cmp (record { substance = substance; day = day }) self.now.lists.candidates }) }
        ensures ready { IfOk result (λ change. IsReady self.now change) }
        ensures sums { IfOk result (λ change. is_of_sums change ≡ true) }
    {
        let row = CandidateRow { substance, day };
        let room = self.tables.candidates.room_for(alloc, 1)?;
        Ok(RowChange::PutCandidate { row, room })
    }

    /// The part goes in.
    #[tactic(auto, unfolding(desk_model::specs::Effect::with_edit_made, crate::specs::Change::with_change_made, crate::specs::Change::IsReady))]
    fn put_part(
        &self,
        alloc: Global,
        code: Code,
        sort: PartSort,
        name: &Name,
    ) -> Result<RowChange, OutOfMemory>
        ensures made { IfOk result (λ change. with_change_made self.now.lists change
            ≡ record self.now.lists { parts = with_row (λ row. row.code) code_cmp (record { code = code; sort = sort; name = name.now }) self.now.lists.parts }) }
        ensures ready { IfOk result (λ change. IsReady self.now change) }
    {
        let name = name.clone()?;
        let row = PartRow { code, sort, name };
        let room = self.tables.parts.room_for(alloc, 1)?;
        Ok(RowChange::PutPart { row, room })
    }

    /// The line goes in.
    #[tactic(auto, unfolding(desk_model::specs::Effect::with_edit_made, crate::specs::Change::with_change_made, crate::specs::Change::IsReady))]
    fn put_line(
        &self,
        alloc: Global,
        parent: Code,
        child: Code,
        count: Count,
    ) -> Result<RowChange, OutOfMemory>
        ensures made { IfOk result (λ change. with_change_made self.now.lists change
            ≡ record self.now.lists { lines = with_row line_key line_key_cmp (record { parent = parent; child = child; count = count }) self.now.lists.lines }) }
        ensures ready { IfOk result (λ change. IsReady self.now change) }
        ensures sums { IfOk result (λ change. is_of_sums change ≡ true) }
    {
        let row = LineRow {
            parent,
            child,
            count: count.get() as u32,
        };
        let room = self.tables.lines.room_for(alloc, 1)?;
        Ok(RowChange::PutLine { row, room })
    }

    /// The product goes in.
    #[tactic(auto, unfolding(desk_model::specs::Effect::with_edit_made, crate::specs::Change::with_change_made, crate::specs::Change::IsReady))]
    fn put_product(&self, alloc: Global, part: Code, kind: Kind) -> Result<RowChange, OutOfMemory>
        ensures made { IfOk result (λ change. with_change_made self.now.lists change
            ≡ record self.now.lists { products = with_row (λ row. row.part) code_cmp (record { part = part; kind = kind }) self.now.lists.products }) }
        ensures ready { IfOk result (λ change. IsReady self.now change) }
    {
        let row = ProductRow { part, kind };
        let room = self.tables.products.room_for(alloc, 1)?;
        Ok(RowChange::PutProduct { row, room })
    }

    /// The year's entry of the product holds so many units, and is taken out where that is 0.
    #[tactic(auto, unfolding(crate::specs::Change::with_change_made, crate::specs::Change::IsReady))]
    fn set_units(
        &self,
        alloc: Global,
        year: u16,
        product: Code,
        units: u64,
    ) -> Result<RowChange, OutOfMemory>
        ensures made { IfOk result (λ change. with_change_made self.now.lists change ≡ with_units self.now.lists year product units) }
        ensures ready { IfOk result (λ change. IsReady self.now change) }
        ensures sums { IfOk result (λ change. is_of_sums change ≡ true) }
    {
        if units == 0 {
            return Ok(RowChange::DropShipment { year, product });
        }
        let row = ShipmentRow {
            year,
            product,
            units,
        };
        let room = self.tables.shipments.room_for(alloc, 1)?;
        Ok(RowChange::PutShipment { row, room })
    }
}

/// The rows of a declaration's materials.
fn declared_rows(
    alloc: Global,
    declaration: &Declaration,
) -> Result<ListOf<MaterialRow>, OutOfMemory>
    ensures rows { IfOk result (λ rows. rows ≡ declared_rows declaration.now) }
    ensures by_key { IfOk result (λ rows. IsByKey (λ row. row.code) code_cmp rows) }
{
    let materials = declaration.materials();
    let mut rows = Vec::with_capacity(alloc, materials.len())?;
    for material in materials {
        rows.push_reserved(declared_row(alloc, declaration, material)?);
    }
    Ok(ListOf::new(rows))
}

/// The row of a declared material.
fn declared_row(
    alloc: Global,
    declaration: &Declaration,
    material: &MaterialDecl,
) -> Result<MaterialRow, OutOfMemory>
    ensures { IfOk result (λ row. row ≡ declared_row declaration.now material.now) }
{
    Ok(MaterialRow {
        code: material.code,
        supplier: *declaration.supplier(),
        number: declaration.number(),
        day: declaration.day(),
        name: material.name.clone()?,
        mass: material.mass,
        substances: material.substances.copied(alloc)?,
        claims: material.claims.copied(alloc)?,
    })
}
