ghost use Rattle.std.specs.Prelude.{◌≡◌, ◌++◌, [], ◌∷◌, codes, decimal, true, IfOk, OnErr, OnOk, string_bytes};
ghost use Rattle.std.specs.List.{flat_map};
ghost use Rattle.desk_law.specs.Rule.{rule_code};
ghost use Rattle.desk_model.specs.EditText.{claim_fields, declaration_fields, declared_code, edit_text, exemption_fields, joined, material_fields, optional_field, optional_number, substance_fields, tabbed, ticket_code};
ghost use Rattle.desk_model.specs.Forms.{is_of_bill};

use crate::{Declaration, Edit, Exemption, MaterialDecl, SubstanceMass};
use desk_law::Claim;
use desk_text::{Bytes, Cas, Code, Name, OutOfMemory};
use std::alloc::{AllocError, Global};

impl Edit {
    /// Appends the edit's text, by which two edits are the same: its word and its fields, joined by TAB. The ticket that a
    /// sender chooses is no part of it.
    ///
    /// `OutOfMemory`: none was left for the text. `out` is then as it was.
    pub fn text(&self, out: &mut Bytes) -> Result<(), OutOfMemory>
        ensures ok { OnOk result (out.new ≡ out.old ++ edit_text self.now) }
        ensures err { OnErr result (out.new ≡ out.old) }
    {
        let text = self.own_text(*out.allocator())?;
        out.push_all(text.as_bytes())
    }

    /// Appends the code of the edit's ticket: `E:TICKET`, or of a declaration `D:SUPPLIER:NUMBER`.
    ///
    /// `OutOfMemory`: none was left for the code. `out` is then as it was.
    pub fn ticket_code(&self, out: &mut Bytes) -> Result<(), OutOfMemory>
        ensures ok { OnOk result (out.new ≡ out.old ++ ticket_code self.now) }
        ensures err { OnErr result (out.new ≡ out.old) }
    {
        let code = self.own_ticket_code(*out.allocator())?;
        out.push_all(code.as_bytes())
    }

    /// The text.
    #[tactic(auto, unfolding(crate::specs::EditText::edit_text))]
    fn own_text(&self, alloc: Global) -> Result<String, AllocError>
        ensures { IfOk result (λ text. string_bytes text ≡ edit_text self.now) }
    {
        match self {
            Edit::Substance {
                code,
                name,
                cas,
                ..
            } => substance_text(alloc, code, name, cas),
            Edit::Member {
                substance,
                rule,
                factor,
                ..
            } => Ok(format!(in alloc; "member\t{substance}\t{rule}\t{factor}")?),
            Edit::Declare { declaration } => declaration_text(alloc, declaration),
            Edit::Exemption { exemption, .. } => exemption_text(alloc, exemption),
            Edit::Unexempt { row, .. } => Ok(format!(in alloc; "unexempt\t{row}")?),
            Edit::Candidate { substance, day, .. } => {
                Ok(format!(in alloc; "candidate\t{substance}\t{day}")?)
            }
            _ => self.bill_text(alloc),
        }
    }

    /// The text of an edit of a part, a line, a product or its shipments.
    #[tactic(auto, unfolding(crate::specs::EditText::edit_text))]
    fn bill_text(&self, alloc: Global) -> Result<String, AllocError>
        requires { is_of_bill self.now ≡ true }
        ensures { IfOk result (λ text. string_bytes text ≡ edit_text self.now) }
    {
        match self {
            Edit::Part {
                code,
                sort,
                name,
                ..
            } => Ok(format!(in alloc; "part\t{code}\t{sort}\t{name}")?),
            Edit::Line {
                parent,
                child,
                count,
                ..
            } => Ok(format!(in alloc; "line\t{parent}\t{child}\t{count}")?),
            Edit::Unline { parent, child, .. } => Ok(format!(in alloc;
                "unline\t{parent}\t{child}"
            )?),
            Edit::Product { part, kind, .. } => Ok(format!(in alloc; "product\t{part}\t{kind}")?),
            Edit::Ship {
                product,
                year,
                units,
                ..
            } => Ok(format!(in alloc; "ship\t{product}\t{year}\t{units}")?),
            Edit::Unship {
                product,
                year,
                units,
                ..
            } => Ok(format!(in alloc; "unship\t{product}\t{year}\t{units}")?),
            _ => Ok(String::new(alloc)),
        }
    }

    /// The code of the ticket.
    #[tactic(auto, unfolding(crate::specs::EditText::ticket_code))]
    fn own_ticket_code(&self, alloc: Global) -> Result<String, AllocError>
        ensures { IfOk result (λ code. string_bytes code ≡ ticket_code self.now) }
    {
        match self {
            Edit::Declare { declaration } => declaration_code(alloc, declaration),
            Edit::Substance { ticket, .. }
            | Edit::Member { ticket, .. }
            | Edit::Part { ticket, .. }
            | Edit::Line { ticket, .. }
            | Edit::Unline { ticket, .. }
            | Edit::Product { ticket, .. }
            | Edit::Exemption { ticket, .. }
            | Edit::Unexempt { ticket, .. }
            | Edit::Candidate { ticket, .. }
            | Edit::Ship { ticket, .. }
            | Edit::Unship { ticket, .. } => Ok(format!(in alloc; "E:{ticket}")?),
        }
    }
}

/// The code of a declaration's ticket.
fn declaration_code(alloc: Global, declaration: &Declaration) -> Result<String, AllocError>
    ensures { IfOk result (λ code. string_bytes code ≡ declared_code declaration.now.supplier declaration.now.number) }
{
    let supplier = declaration.supplier();
    let number = declaration.number();
    Ok(format!(in alloc; "D:{supplier}:{number}")?)
}

/// The text of an edit that enters a substance.
fn substance_text(
    alloc: Global,
    code: &Code,
    name: &Name,
    cas: &Option<Cas>,
) -> Result<String, AllocError>
    ensures { IfOk result (λ text. string_bytes text
        ≡ joined (codes "substance" ∷ code.now ∷ name.now ∷ optional_field cas.now ∷ [])) }
{
    match cas {
        Some(cas) => Ok(format!(in alloc; "substance\t{code}\t{name}\t{cas}")?),
        None => Ok(format!(in alloc; "substance\t{code}\t{name}\t")?),
    }
}

/// The text of an edit that enters an exemption row.
fn exemption_text(alloc: Global, exemption: &Exemption) -> Result<String, AllocError>
    ensures { IfOk result (λ text. string_bytes text ≡ joined (codes "exemption" ∷ exemption_fields exemption.now)) }
{
    let terms = exemption.terms;
    let application = &exemption.application;
    let floor = optional_number(alloc, terms.floor)?;
    let cap = optional_number(alloc, terms.cap)?;
    let (row, annex, number, rule) = (terms.row, terms.annex, terms.number, terms.rule);
    let (kinds, first, last) = (terms.kinds, terms.first, terms.last);
    Ok(format!(in alloc;
        "exemption\t{row}\t{annex}\t{number}\t{rule}\t{kinds}\t{first}\t{last}\t{floor}\t{cap}\t{application}"
    )?)
}

/// The number's digits, or nothing.
pub(crate) fn optional_number(alloc: Global, number: Option<u32>) -> Result<String, AllocError>
    ensures { IfOk result (λ text. string_bytes text ≡ optional_number number) }
{
    match number {
        Some(number) => Ok(format!(in alloc; "{number}")?),
        None => Ok(String::new(alloc)),
    }
}

/// The text of a declaration.
fn declaration_text(alloc: Global, declaration: &Declaration) -> Result<String, AllocError>
    ensures { IfOk result (λ text. string_bytes text ≡ joined (codes "declare" ∷ declaration_fields declaration.now)) }
{
    let supplier = declaration.supplier();
    let number = declaration.number();
    let day = declaration.day();
    let materials = declaration.materials();
    let count = materials.len();
    let mut text = format!(in alloc; "declare\t{supplier}\t{number}\t{day}\t{count}")?;
    push_materials(alloc, &mut text, materials)?;
    Ok(text)
}

/// Appends the fields of the materials, each behind a TAB.
fn push_materials(
    alloc: Global,
    text: &mut String,
    materials: &[MaterialDecl],
) -> Result<(), AllocError>
    ensures { OnOk result (string_bytes text.new ≡ string_bytes text.old ++ tabbed (flat_map material_fields materials.now)) }
{
    for material in materials {
        push_material(alloc, text, material)?;
    }
    Ok(())
}

/// Appends the fields of a material, each behind a TAB.
fn push_material(
    alloc: Global,
    text: &mut String,
    material: &MaterialDecl,
) -> Result<(), AllocError>
    ensures { OnOk result (string_bytes text.new ≡ string_bytes text.old ++ tabbed (material_fields material.now)) }
{
    let (code, name, mass) = (&material.code, &material.name, material.mass);
    let head = format!(in alloc; "\t{code}\t{name}\t{mass}")?;
    text.push_str(head.as_str())?;
    push_substances(alloc, text, material.substances.as_slice())?;
    push_claims(alloc, text, material.claims.as_slice())
}

/// Appends how many substances there are, and then the code and the mass in micrograms of each, each field after a TAB, as they
/// stand in the text of an edit and in that of a row.
///
/// `AllocError`: no memory was left for them. What stands in `text` then isn't told.
pub fn push_substances(
    alloc: Global,
    text: &mut String,
    substances: &[SubstanceMass],
) -> Result<(), AllocError>
    ensures { OnOk result (string_bytes text.new ≡ string_bytes text.old ++ tabbed (substance_fields substances.now)) }
{
    let count = substances.len();
    let head = format!(in alloc; "\t{count}")?;
    text.push_str(head.as_str())?;
    for held in substances {
        push_substance(alloc, text, held)?;
    }
    Ok(())
}

/// Appends the code and the mass of a substance, each after a TAB.
fn push_substance(alloc: Global, text: &mut String, held: &SubstanceMass) -> Result<(), AllocError>
    ensures { OnOk result (string_bytes text.new ≡ string_bytes text.old ++ tabbed (held.now.substance ∷ decimal held.now.mass ∷ [])) }
{
    let (substance, mass) = (held.substance, held.mass);
    let fields = format!(in alloc; "\t{substance}\t{mass}")?;
    text.push_str(fields.as_str())
}

/// Appends how many claims there are, and then the rule and the number of each, each field after a TAB, as they stand in the
/// text of an edit and in that of a row.
///
/// `AllocError`: no memory was left for them. What stands in `text` then isn't told.
pub fn push_claims(alloc: Global, text: &mut String, claims: &[Claim]) -> Result<(), AllocError>
    ensures { OnOk result (string_bytes text.new ≡ string_bytes text.old ++ tabbed (claim_fields claims.now)) }
{
    let count = claims.len();
    let head = format!(in alloc; "\t{count}")?;
    text.push_str(head.as_str())?;
    for claim in claims {
        push_claim(alloc, text, claim)?;
    }
    Ok(())
}

/// Appends the rule and the number of a claim, each behind a TAB.
fn push_claim(alloc: Global, text: &mut String, claim: &Claim) -> Result<(), AllocError>
    ensures { OnOk result (string_bytes text.new ≡ string_bytes text.old ++ tabbed (rule_code claim.now.rule ∷ claim.now.number ∷ [])) }
{
    let (rule, number) = (claim.rule, claim.number);
    let fields = format!(in alloc; "\t{rule}\t{number}")?;
    text.push_str(fields.as_str())
}
