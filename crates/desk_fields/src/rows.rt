ghost use Rattle.std.specs.Prelude.{◌≡◌, ◌≢◌, ◌^◌, ◌-◌, ◌∷◌, Err, false, IfOk, is_some, None, OnOk, Some, true};
ghost use Rattle.desk_text.specs.Forms.{a_code, a_number};
ghost use Rattle.desk_fields.specs.Reading.{both, one, all_fields};
ghost use Rattle.desk_fields.specs.RowReading.{candidate_row_in, is_ticket_code, line_row_in, material_row_in};
ghost use Rattle.desk_fields.specs.RowReading.{member_row_in, pair_in, paired, part_row_in, product_row_in, row_of_fields};
ghost use Rattle.desk_fields.specs.RowReading.{shipment_row_in, substance_row_in, ticket_row_in};
ghost use Rattle.desk_fields.specs.EditReading.{exemption_in};
ghost use Rattle.desk_fields.specs.RowTexts.{has_texts};

use crate::edit_text::check_edit_text;
use crate::exemption::read_exemption_behind;
use crate::field::Field;
use crate::field_fault::FieldFault;
use crate::fields::{COLON, Fields, Parts, SLASH};
use crate::material::{take_claims, take_substances};
use desk_model::limits::{MASS_LIMIT, WHOLE_FACTOR};
use desk_model::{
    CandidateRow, Count, Exemption, ExemptionRow, LineRow, MaterialRow, MemberRow, PartRow,
    ProductRow, Row, ShipmentRow, SubstanceRow, TicketRow, Units, Year,
};
use desk_text::{Bytes, Code};
use std::alloc::Global;

/// The row of a table, of its code and its fields behind the version.
#[tactic(auto, unfolding(crate::specs::RowReading::row_of_fields, crate::specs::RowTexts::has_texts))]
pub(crate) fn row_of(
    alloc: Global,
    table: u8,
    code: &[u8],
    fields: &mut Fields<'_>,
) -> Result<Row, FieldFault>
    ensures ok { IfOk result (λ row. row_of_fields table code.now fields.old ≡ Some row) }
    ensures shape { result ≡ Err FieldFault.Shape → row_of_fields table code.now fields.old ≡ None }
    ensures memory { result ≡ Err FieldFault.OutOfMemory → has_texts table ≡ true }
{
    match table {
        1 => Ok(Row::Substance(substance(alloc, code, fields)?)),
        2 => Ok(Row::Member(member(code, fields)?)),
        3 => Ok(Row::Material(material(alloc, code, fields)?)),
        4 => Ok(Row::Part(part(alloc, code, fields)?)),
        5 => Ok(Row::Line(line(code, fields)?)),
        6 => Ok(Row::Product(product(code, fields)?)),
        7 => Ok(Row::Exemption(exemption(alloc, code, fields)?)),
        8 => Ok(Row::Candidate(candidate(code, fields)?)),
        9 => Ok(Row::Shipment(shipment(code, fields)?)),
        10 => Ok(Row::Ticket(ticket(alloc, code, fields)?)),
        _ => Err(FieldFault::Shape),
    }
}

/// What a code, or a part of one, is read as.
fn key<T: Field>(code: &[u8]) -> Result<T, FieldFault>
    ensures ok { IfOk result (λ key. T.Field.form code.now ≡ Some key) }
    ensures shape { result ≡ Err FieldFault.Shape → T.Field.form code.now ≡ None }
    ensures memory { result ≢ Err FieldFault.OutOfMemory }
{
    T::from_field(code).ok_or(FieldFault::Shape)
}

/// The two parts of a code that has two, with a `/` between them.
#[tactic(auto, unfolding(crate::specs::RowReading::pair_in))]
fn pair(code: &[u8]) -> Result<(&[u8], &[u8]), FieldFault>
    ensures ok { IfOk result (λ parts. pair_in code.now ≡ Some (parts.0.now, parts.1.now)) }
    ensures shape { result ≡ Err FieldFault.Shape → pair_in code.now ≡ None }
    ensures memory { result ≢ Err FieldFault.OutOfMemory }
{
    let mut parts = Parts::<SLASH>::of(code);
    let (Some(first), Some(second), None) = (parts.next(), parts.next(), parts.next()) else {
        return Err(FieldFault::Shape);
    };
    Ok((first, second))
}

/// A substance, of its code and its fields.
#[tactic(auto, unfolding(crate::specs::RowReading::substance_row_in))]
fn substance(
    alloc: Global,
    code: &[u8],
    fields: &mut Fields<'_>,
) -> Result<SubstanceRow, FieldFault>
    ensures ok { IfOk result (λ row. all_fields substance_row_in (code.now ∷ fields.old) ≡ Some row) }
    ensures shape { result ≡ Err FieldFault.Shape → all_fields substance_row_in (code.now ∷ fields.old) ≡ None }
{
    let row = SubstanceRow {
        code: key(code)?,
        name: fields.take_name(alloc)?,
        cas: fields.take()?,
    };
    fields.end()?;
    Ok(row)
}

/// A member, of its code and its fields.
#[tactic(auto, unfolding(crate::specs::RowReading::member_row_in))]
fn member(code: &[u8], fields: &mut Fields<'_>) -> Result<MemberRow, FieldFault>
    ensures ok { IfOk result (λ row. paired member_row_in code.now fields.old ≡ Some row) }
    ensures shape { result ≡ Err FieldFault.Shape → paired member_row_in code.now fields.old ≡ None }
    ensures memory { result ≢ Err FieldFault.OutOfMemory }
{
    let (first, second) = pair(code)?;
    let row = MemberRow {
        substance: key(first)?,
        rule: key(second)?,
        factor: fields.take_number(1, WHOLE_FACTOR)? as u32,
    };
    fields.end()?;
    Ok(row)
}

/// A material, of its code and its fields.
#[tactic(auto, unfolding(crate::specs::RowReading::material_row_in))]
fn material(alloc: Global, code: &[u8], fields: &mut Fields<'_>) -> Result<MaterialRow, FieldFault>
    ensures ok { IfOk result (λ row. all_fields material_row_in (code.now ∷ fields.old) ≡ Some row) }
    ensures shape { result ≡ Err FieldFault.Shape → all_fields material_row_in (code.now ∷ fields.old) ≡ None }
{
    let row = MaterialRow {
        code: key(code)?,
        supplier: fields.take()?,
        number: fields.take_number(1, u64::MAX)?,
        day: fields.take()?,
        name: fields.take_name(alloc)?,
        mass: fields.take_number(1, MASS_LIMIT)?,
        substances: take_substances(alloc, fields)?,
        claims: take_claims(alloc, fields)?,
    };
    fields.end()?;
    Ok(row)
}

/// A part, of its code and its fields.
#[tactic(auto, unfolding(crate::specs::RowReading::part_row_in))]
fn part(alloc: Global, code: &[u8], fields: &mut Fields<'_>) -> Result<PartRow, FieldFault>
    ensures ok { IfOk result (λ row. all_fields part_row_in (code.now ∷ fields.old) ≡ Some row) }
    ensures shape { result ≡ Err FieldFault.Shape → all_fields part_row_in (code.now ∷ fields.old) ≡ None }
{
    let row = PartRow {
        code: key(code)?,
        sort: fields.take()?,
        name: fields.take_name(alloc)?,
    };
    fields.end()?;
    Ok(row)
}

/// A line, of its code and its fields.
#[tactic(auto, unfolding(crate::specs::RowReading::line_row_in))]
fn line(code: &[u8], fields: &mut Fields<'_>) -> Result<LineRow, FieldFault>
    ensures ok { IfOk result (λ row. paired line_row_in code.now fields.old ≡ Some row) }
    ensures shape { result ≡ Err FieldFault.Shape → paired line_row_in code.now fields.old ≡ None }
    ensures memory { result ≢ Err FieldFault.OutOfMemory }
{
    let (first, second) = pair(code)?;
    let row = LineRow {
        parent: key(first)?,
        child: key(second)?,
        count: fields.take::<Count>()?.get() as u32,
    };
    fields.end()?;
    Ok(row)
}

/// A product, of its code and its fields.
#[tactic(auto, unfolding(crate::specs::RowReading::product_row_in))]
fn product(code: &[u8], fields: &mut Fields<'_>) -> Result<ProductRow, FieldFault>
    ensures ok { IfOk result (λ row. all_fields product_row_in (code.now ∷ fields.old) ≡ Some row) }
    ensures shape { result ≡ Err FieldFault.Shape → all_fields product_row_in (code.now ∷ fields.old) ≡ None }
    ensures memory { result ≢ Err FieldFault.OutOfMemory }
{
    let row = ProductRow {
        part: key(code)?,
        kind: fields.take()?,
    };
    fields.end()?;
    Ok(row)
}

/// A candidate, of its code and its fields.
#[tactic(auto, unfolding(crate::specs::RowReading::candidate_row_in))]
fn candidate(code: &[u8], fields: &mut Fields<'_>) -> Result<CandidateRow, FieldFault>
    ensures ok { IfOk result (λ row. all_fields candidate_row_in (code.now ∷ fields.old) ≡ Some row) }
    ensures shape { result ≡ Err FieldFault.Shape → all_fields candidate_row_in (code.now ∷ fields.old) ≡ None }
    ensures memory { result ≢ Err FieldFault.OutOfMemory }
{
    let row = CandidateRow {
        substance: key(code)?,
        day: fields.take()?,
    };
    fields.end()?;
    Ok(row)
}

/// A shipment, of its code and its fields.
#[tactic(auto, unfolding(crate::specs::RowReading::shipment_row_in))]
fn shipment(code: &[u8], fields: &mut Fields<'_>) -> Result<ShipmentRow, FieldFault>
    ensures ok { IfOk result (λ row. paired shipment_row_in code.now fields.old ≡ Some row) }
    ensures shape { result ≡ Err FieldFault.Shape → paired shipment_row_in code.now fields.old ≡ None }
    ensures memory { result ≢ Err FieldFault.OutOfMemory }
{
    let (first, second) = pair(code)?;
    let row = ShipmentRow {
        year: key::<Year>(first)?.get() as u16,
        product: key(second)?,
        units: fields.take::<Units>()?.get(),
    };
    fields.end()?;
    Ok(row)
}

/// An exemption row, of its code and its fields.
#[tactic(auto, unfolding(crate::specs::EditReading::exemption_in))]
fn exemption(
    alloc: Global,
    code: &[u8],
    fields: &mut Fields<'_>,
) -> Result<ExemptionRow, FieldFault>
    ensures ok { IfOk result (λ row. all_fields exemption_in (code.now ∷ fields.old) ≡ Some row) }
    ensures shape { result ≡ Err FieldFault.Shape → all_fields exemption_in (code.now ∷ fields.old) ≡ None }
{
    let row = key(code)?;
    let Exemption { terms, application } = read_exemption_behind(alloc, row, fields)?;
    fields.end()?;
    Ok(ExemptionRow { terms, application })
}

/// A ticket, of its code and its fields: the last of them are those of the edit's text.
#[tactic(auto, unfolding(crate::specs::RowReading::ticket_row_in))]
fn ticket(alloc: Global, code: &[u8], fields: &mut Fields<'_>) -> Result<TicketRow, FieldFault>
    ensures ok { IfOk result (λ row. ticket_row_in code.now fields.old ≡ Some row) }
    ensures shape { result ≡ Err FieldFault.Shape → ticket_row_in code.now fields.old ≡ None }
{
    let number = fields.take_number(1, u64::MAX)?;
    let text = fields.rest();
    check_ticket_code(code)?;
    check_edit_text(alloc, text)?;
    Ok(TicketRow {
        code: Bytes::from(code.to_vec(alloc)?),
        number,
        text: Bytes::from(text.to_vec(alloc)?),
    })
}

/// Says that the code is a ticket's: `E:TICKET`, or `D:SUPPLIER:NUMBER`.
#[tactic(auto, unfolding(crate::specs::RowReading::is_ticket_code))]
fn check_ticket_code(code: &[u8]) -> Result<(), FieldFault>
    ensures ok { OnOk result (is_ticket_code code.now ≡ true) }
    ensures shape { result ≡ Err FieldFault.Shape → is_ticket_code code.now ≡ false }
    ensures memory { result ≢ Err FieldFault.OutOfMemory }
{
    let mut parts = Parts::<COLON>::of(code);
    match parts.next() {
        Some(word) if word == b"E".as_slice() => check_sent(&mut parts),
        Some(word) if word == b"D".as_slice() => check_declared(&mut parts),
        _ => Err(FieldFault::Shape),
    }
}

/// Says that the parts are the ticket that a sender chose.
fn check_sent(parts: &mut Parts<'_, COLON>) -> Result<(), FieldFault>
    ensures ok { OnOk result (is_some (all_fields (one a_code) parts.old) ≡ true) }
    ensures shape { result ≡ Err FieldFault.Shape → is_some (all_fields (one a_code) parts.old) ≡ false }
    ensures memory { result ≢ Err FieldFault.OutOfMemory }
{
    drop(parts.take::<Code>()?);
    parts.end()
}

/// Says that the parts are the supplier and the number of a declaration.
fn check_declared(parts: &mut Parts<'_, COLON>) -> Result<(), FieldFault>
    ensures ok { OnOk result (is_some (all_fields (both (one a_code) (one (a_number 1 (2 ^ 64 - 1)))) parts.old) ≡ true) }
    ensures shape { result ≡ Err FieldFault.Shape
        → is_some (all_fields (both (one a_code) (one (a_number 1 (2 ^ 64 - 1)))) parts.old) ≡ false }
    ensures memory { result ≢ Err FieldFault.OutOfMemory }
{
    drop(parts.take::<Code>()?);
    parts.take_number(1, u64::MAX)?;
    parts.end()
}
