ghost use Rattle.std.specs.Prelude.{◌≡◌, ◌++◌, ◌∷◌, [], length, map, if◌then◌else◌, IfOk, OnOk};
ghost use Rattle.desk_text.specs.Code.{same_code};
ghost use Rattle.desk_model.specs.Lists.{Lists};
ghost use Rattle.desk_findings.specs.Bill.{IsBill};
ghost use Rattle.desk_findings.specs.Reaches.{is_or_reaches, reaches};
ghost use Rattle.desk_totals.specs.Linked.{IsLinkedOf};
ghost use Rattle.desk_scratch.specs.Uses.{lines_to, products_with};

use crate::bill::Bill;
use desk_model::{LineRow, ProductRow};
use desk_text::{Code, OutOfMemory};
use desk_totals::Links;
use std::alloc::Global;

impl<'a> Bill<'a> {
    /// The lines that lead to a code, in order of parent. It takes one pass over the lines.
    pub(crate) fn users(&self, alloc: Global, code: &Code) -> Result<Vec<LineRow>, OutOfMemory>
        ensures { IfOk result (λ lines. lines.items ≡ lines_to self.now code.now) }
    {
        let mut lines = Vec::new(alloc);
        for line in self.tables().lines() {
            push_if_leads(&mut lines, line, code)?;
        }
        Ok(lines)
    }

    /// The products that reach a code, or are it, in order of code. It takes a pass over the lines, and a binary search for
    /// each product.
    pub(crate) fn products_with(
        &self,
        alloc: Global,
        code: &Code,
    ) -> Result<Vec<ProductRow>, OutOfMemory>
        ensures { IfOk result (λ products. products.items ≡ products_with self.now code.now) }
    {
        let marks = self.marks(alloc, code)?;
        let mut products = Vec::new(alloc);
        for product in self.tables().products() {
            let holds = self.does_hold(marks.as_slice(), &product.part, code);
            push_if_holds(&mut products, product, holds)?;
        }
        Ok(products)
    }
}

/// Appends the line, where it leads to the code.
fn push_if_leads(list: &mut Vec<LineRow>, line: &LineRow, code: &Code) -> Result<(), OutOfMemory>
    ensures { OnOk result (list.new.items ≡ list.old.items ++ (if same_code line.now.child code.now then line.now ∷ [] else [])) }
{
    if line.child == *code {
        list.push(*line)?;
    }
    Ok(())
}

/// Appends the product, where it holds what is asked for.
fn push_if_holds(
    list: &mut Vec<ProductRow>,
    product: &ProductRow,
    holds: bool,
) -> Result<(), OutOfMemory>
    ensures { OnOk result (list.new.items ≡ list.old.items ++ (if holds then product.now ∷ [] else [])) }
{
    if holds {
        list.push(*product)?;
    }
    Ok(())
}

/// Whether the part reaches the code or is it. The marks tell of each node whether it reaches the code.
pub(crate) fn does_hold(links: &Links, marks: &[bool], part: &Code, code: &Code) -> bool
    requires { length marks.now ≡ length links.now.nodes }
    ensures { (t : Lists) → IsLinkedOf links.now t → IsBill t → marks.now ≡ map (λ node. reaches t node code.now) links.now.nodes
        → result ≡ is_or_reaches t part.now code.now }
{
    if part == code {
        return true;
    }
    match links.place_of(part) {
        Some(place) => marks[place],
        // What is no node reaches nothing.
        None => false,
    }
}
