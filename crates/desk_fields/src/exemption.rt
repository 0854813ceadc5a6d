ghost use Rattle.std.specs.Prelude.{◌≡◌, ◌≢◌, ◌==◌, [], Err, IfOk, None, Some, true};
ghost use Rattle.std.specs.List.{slice_split};
ghost use Rattle.desk_model.specs.declared.limits.TheConstants.{PPM_LIMIT};
ghost use Rattle.desk_model.specs.Terms.{are_kinds, is_ppm};
ghost use Rattle.desk_fields.specs.EditReading.{exemption_behind, exemption_in};
ghost use Rattle.desk_text.specs.Forms.{a_number};
ghost use Rattle.desk_fields.specs.Forms.{kinds_with, maybe, kinds_of_text};
ghost use Rattle.desk_fields.specs.Reading.{one};

use crate::field_fault::FieldFault;
use crate::fields::{COMMA, Fields, Parts};
use desk_law::{Kind, KindSet, Terms};
use desk_model::Exemption;
use desk_model::limits::PPM_LIMIT;
use desk_text::{Code, Name, read_u64};
use std::alloc::Global;

/// The exemption row that the fields begin with.
#[tactic(auto, unfolding(crate::specs::EditReading::exemption_in))]
pub(crate) fn read_exemption(
    alloc: Global,
    fields: &mut Fields<'_>,
) -> Result<Exemption, FieldFault>
    ensures ok { IfOk result (λ row. exemption_in fields.old ≡ Some (row, fields.new)) }
    ensures shape { result ≡ Err FieldFault.Shape → exemption_in fields.old ≡ None }
{
    let row = fields.take()?;
    read_exemption_behind(alloc, row, fields)
}

/// The exemption row of this code whose other values the fields begin with.
#[tactic(auto, unfolding(crate::specs::EditReading::exemption_behind))]
pub(crate) fn read_exemption_behind(
    alloc: Global,
    row: Code,
    fields: &mut Fields<'_>,
) -> Result<Exemption, FieldFault>
    ensures ok { IfOk result (λ exemption. exemption_behind row fields.old ≡ Some (exemption, fields.new)) }
    ensures shape { result ≡ Err FieldFault.Shape → exemption_behind row fields.old ≡ None }
{
    let terms = Terms {
        row,
        annex: fields.take()?,
        number: fields.take()?,
        rule: fields.take()?,
        kinds: take_kinds(alloc, fields)?,
        first: fields.take()?,
        last: fields.take()?,
        floor: take_ppm(fields)?,
        cap: take_ppm(fields)?,
    };
    let application = fields.take_name(alloc)?;
    Ok(exemption_row(terms, application))
}

/// The row of terms whose values are in their ranges.
fn exemption_row(terms: Terms, application: Name) -> Exemption
    requires kinds { are_kinds terms.kinds ≡ true }
    requires floor { is_ppm terms.floor ≡ true }
    requires cap { is_ppm terms.cap ≡ true }
    ensures { result ≡ record { terms = terms; application = application } }
{
    match Exemption::new(terms, application) {
        Some(exemption) => exemption,
        None => unreachable!(),
    }
}

/// Takes a floor or a cap, which may be absent.
#[tactic(auto, unfolding(desk_text::specs::Forms::a_number))]
fn take_ppm(fields: &mut Fields<'_>) -> Result<Option<u32>, FieldFault>
    ensures ok { IfOk result (λ ppm. one (maybe (a_number 0 PPM_LIMIT)) fields.old ≡ Some (ppm, fields.new)) }
    ensures range { IfOk result (λ ppm. is_ppm ppm ≡ true) }
    ensures shape { result ≡ Err FieldFault.Shape → one (maybe (a_number 0 PPM_LIMIT)) fields.old ≡ None }
    ensures memory { result ≢ Err FieldFault.OutOfMemory }
{
    let Some(field) = fields.next() else {
        return Err(FieldFault::Shape);
    };
    if field.is_empty() {
        return Ok(None);
    }
    match read_u64(field) {
        Ok(ppm) if ppm <= u64::from(PPM_LIMIT) => Ok(Some(ppm as u32)),
        _ => Err(FieldFault::Shape),
    }
}

/// Takes a set of kinds: at least one, in the order of Annex I, with commas between them.
#[tactic(auto, unfolding(crate::specs::Forms::kinds_of_text))]
fn take_kinds(alloc: Global, fields: &mut Fields<'_>) -> Result<KindSet, FieldFault>
    ensures ok { IfOk result (λ kinds. one kinds_of_text fields.old ≡ Some (kinds, fields.new)) }
    ensures range { IfOk result (λ kinds. are_kinds kinds ≡ true) }
    ensures shape { result ≡ Err FieldFault.Shape → one kinds_of_text fields.old ≡ None }
{
    let Some(field) = fields.next() else {
        return Err(FieldFault::Shape);
    };
    let Some(kinds) = kinds_of(field) else {
        return Err(FieldFault::Shape);
    };
    // In another order, or with a kind twice, it isn't the text of the set.
    let text = format!(in alloc; "{kinds}")?;
    if are_kinds(&kinds) && text.as_bytes() == field {
        Ok(kinds)
    } else {
        Err(FieldFault::Shape)
    }
}

/// The set of the kinds whose codes stand between commas.
fn kinds_of(field: &[u8]) -> Option<KindSet>
    ensures { result ≡ kinds_with [] (slice_split (λ b. b == 44) field.now) }
{
    let mut kinds = KindSet::new();
    let mut codes = Parts::<COMMA>::of(field);
    while let Some(code) = codes.next() {
        kinds.insert(Kind::read(code)?);
    }
    Some(kinds)
}

/// Whether there is a kind.
fn are_kinds(kinds: &KindSet) -> bool
    ensures { result ≡ are_kinds kinds.now }
{
    !kinds.is_empty()
}
