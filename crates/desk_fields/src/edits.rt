ghost use Rattle.std.specs.Prelude.{◌≡◌, ◌≢◌, Err, IfOk, None, Some, true};
ghost use Rattle.desk_fields.specs.EditReading.{edit_reader_of_word, edit_reader, edit_of_text};
ghost use Rattle.desk_fields.specs.EditTexts.{begins_with_texts, edit_has_texts};
ghost use Rattle.desk_fields.specs.Reading.{fields_of};
ghost use Rattle.desk_model.specs.declared.edit_word.EditWord.TheVariants as word;

use crate::declaration::read_declaration;
use crate::exemption::read_exemption;
use crate::field_fault::FieldFault;
use crate::fields::Fields;
use desk_model::{Edit, EditWord};
use desk_text::Code;
use std::alloc::Global;

/// The edit whose text the bytes are, under a sender's ticket. A declaration has none, and is read as it is.
#[tactic(auto, unfolding(crate::specs::EditReading::edit_of_text, crate::specs::Reading::fields_of))]
pub(crate) fn edit_of(alloc: Global, ticket: Code, text: &[u8]) -> Result<Edit, FieldFault>
    ensures ok { IfOk result (λ edit. edit_of_text ticket text.now ≡ Some edit) }
    ensures shape { result ≡ Err FieldFault.Shape → edit_of_text ticket text.now ≡ None }
    ensures memory { result ≡ Err FieldFault.OutOfMemory → begins_with_texts (fields_of text.now) ≡ true }
{
    let mut fields = Fields::of(text);
    let edit = edit(alloc, ticket, &mut fields)?;
    fields.end()?;
    Ok(edit)
}

/// The edit that the fields begin with.
#[tactic(auto, unfolding(crate::specs::EditReading::edit_reader, crate::specs::EditTexts::begins_with_texts))]
fn edit(alloc: Global, ticket: Code, fields: &mut Fields<'_>) -> Result<Edit, FieldFault>
    ensures ok { IfOk result (λ edit. edit_reader ticket fields.old ≡ Some (edit, fields.new)) }
    ensures shape { result ≡ Err FieldFault.Shape → edit_reader ticket fields.old ≡ None }
    ensures memory { result ≡ Err FieldFault.OutOfMemory → begins_with_texts fields.old ≡ true }
{
    let word = fields.take()?;
    edit_by(alloc, ticket, word, fields)
}

/// The edit of a word.
#[tactic(auto, unfolding(crate::specs::EditReading::edit_reader_of_word, crate::specs::EditTexts::edit_has_texts))]
fn edit_by(
    alloc: Global,
    ticket: Code,
    word: EditWord,
    fields: &mut Fields<'_>,
) -> Result<Edit, FieldFault>
    ensures ok { IfOk result (λ edit. edit_reader_of_word ticket word fields.old ≡ Some (edit, fields.new)) }
    ensures shape { result ≡ Err FieldFault.Shape → edit_reader_of_word ticket word fields.old ≡ None }
    ensures memory { result ≡ Err FieldFault.OutOfMemory → edit_has_texts word ≡ true }
{
    match word {
        EditWord::Substance => substance(alloc, ticket, fields),
        EditWord::Member => member(ticket, fields),
        EditWord::Declare => Ok(Edit::Declare {
            declaration: read_declaration(alloc, fields)?,
        }),
        EditWord::Part => part(alloc, ticket, fields),
        EditWord::Line => line(ticket, fields),
        EditWord::Unline => unline(ticket, fields),
        EditWord::Product => product(ticket, fields),
        EditWord::Exemption => exemption(alloc, ticket, fields),
        EditWord::Unexempt => unexempt(ticket, fields),
        EditWord::Candidate => candidate(ticket, fields),
        EditWord::Ship => ship(ticket, fields),
        EditWord::Unship => unship(ticket, fields),
    }
}

/// The edit that enters a substance.
#[tactic(auto, unfolding(crate::specs::EditReading::edit_reader_of_word))]
fn substance(alloc: Global, ticket: Code, fields: &mut Fields<'_>) -> Result<Edit, FieldFault>
    ensures ok { IfOk result (λ edit. edit_reader_of_word ticket word.Substance fields.old ≡ Some (edit, fields.new)) }
    ensures shape { result ≡ Err FieldFault.Shape → edit_reader_of_word ticket word.Substance fields.old ≡ None }
{
    Ok(Edit::Substance {
        ticket,
        code: fields.take()?,
        name: fields.take_name(alloc)?,
        cas: fields.take()?,
    })
}

/// The edit that sets a factor.
#[tactic(auto, unfolding(crate::specs::EditReading::edit_reader_of_word))]
fn member(ticket: Code, fields: &mut Fields<'_>) -> Result<Edit, FieldFault>
    ensures ok { IfOk result (λ edit. edit_reader_of_word ticket word.Member fields.old ≡ Some (edit, fields.new)) }
    ensures shape { result ≡ Err FieldFault.Shape → edit_reader_of_word ticket word.Member fields.old ≡ None }
    ensures memory { result ≢ Err FieldFault.OutOfMemory }
{
    Ok(Edit::Member {
        ticket,
        substance: fields.take()?,
        rule: fields.take()?,
        factor: fields.take()?,
    })
}

/// The edit that enters a part.
#[tactic(auto, unfolding(crate::specs::EditReading::edit_reader_of_word))]
fn part(alloc: Global, ticket: Code, fields: &mut Fields<'_>) -> Result<Edit, FieldFault>
    ensures ok { IfOk result (λ edit. edit_reader_of_word ticket word.Part fields.old ≡ Some (edit, fields.new)) }
    ensures shape { result ≡ Err FieldFault.Shape → edit_reader_of_word ticket word.Part fields.old ≡ None }
{
    Ok(Edit::Part {
        ticket,
        code: fields.take()?,
        sort: fields.take()?,
        name: fields.take_name(alloc)?,
    })
}

/// The edit that enters a line.
#[tactic(auto, unfolding(crate::specs::EditReading::edit_reader_of_word))]
fn line(ticket: Code, fields: &mut Fields<'_>) -> Result<Edit, FieldFault>
    ensures ok { IfOk result (λ edit. edit_reader_of_word ticket word.Line fields.old ≡ Some (edit, fields.new)) }
    ensures shape { result ≡ Err FieldFault.Shape → edit_reader_of_word ticket word.Line fields.old ≡ None }
    ensures memory { result ≢ Err FieldFault.OutOfMemory }
{
    Ok(Edit::Line {
        ticket,
        parent: fields.take()?,
        child: fields.take()?,
        count: fields.take()?,
    })
}

/// The edit that takes a line out.
#[tactic(auto, unfolding(crate::specs::EditReading::edit_reader_of_word))]
fn unline(ticket: Code, fields: &mut Fields<'_>) -> Result<Edit, FieldFault>
    ensures ok { IfOk result (λ edit. edit_reader_of_word ticket word.Unline fields.old ≡ Some (edit, fields.new)) }
    ensures shape { result ≡ Err FieldFault.Shape → edit_reader_of_word ticket word.Unline fields.old ≡ None }
    ensures memory { result ≢ Err FieldFault.OutOfMemory }
{
    Ok(Edit::Unline {
        ticket,
        parent: fields.take()?,
        child: fields.take()?,
    })
}

/// The edit that names a product.
#[tactic(auto, unfolding(crate::specs::EditReading::edit_reader_of_word))]
fn product(ticket: Code, fields: &mut Fields<'_>) -> Result<Edit, FieldFault>
    ensures ok { IfOk result (λ edit. edit_reader_of_word ticket word.Product fields.old ≡ Some (edit, fields.new)) }
    ensures shape { result ≡ Err FieldFault.Shape → edit_reader_of_word ticket word.Product fields.old ≡ None }
    ensures memory { result ≢ Err FieldFault.OutOfMemory }
{
    Ok(Edit::Product {
        ticket,
        part: fields.take()?,
        kind: fields.take()?,
    })
}

/// The edit that takes an exemption row out.
#[tactic(auto, unfolding(crate::specs::EditReading::edit_reader_of_word))]
fn unexempt(ticket: Code, fields: &mut Fields<'_>) -> Result<Edit, FieldFault>
    ensures ok { IfOk result (λ edit. edit_reader_of_word ticket word.Unexempt fields.old ≡ Some (edit, fields.new)) }
    ensures shape { result ≡ Err FieldFault.Shape → edit_reader_of_word ticket word.Unexempt fields.old ≡ None }
    ensures memory { result ≢ Err FieldFault.OutOfMemory }
{
    Ok(Edit::Unexempt {
        ticket,
        row: fields.take()?,
    })
}

/// The edit that enters a candidate.
#[tactic(auto, unfolding(crate::specs::EditReading::edit_reader_of_word))]
fn candidate(ticket: Code, fields: &mut Fields<'_>) -> Result<Edit, FieldFault>
    ensures ok { IfOk result (λ edit. edit_reader_of_word ticket word.Candidate fields.old ≡ Some (edit, fields.new)) }
    ensures shape { result ≡ Err FieldFault.Shape → edit_reader_of_word ticket word.Candidate fields.old ≡ None }
    ensures memory { result ≢ Err FieldFault.OutOfMemory }
{
    Ok(Edit::Candidate {
        ticket,
        substance: fields.take()?,
        day: fields.take()?,
    })
}

/// The edit that adds shipped units.
#[tactic(auto, unfolding(crate::specs::EditReading::edit_reader_of_word))]
fn ship(ticket: Code, fields: &mut Fields<'_>) -> Result<Edit, FieldFault>
    ensures ok { IfOk result (λ edit. edit_reader_of_word ticket word.Ship fields.old ≡ Some (edit, fields.new)) }
    ensures shape { result ≡ Err FieldFault.Shape → edit_reader_of_word ticket word.Ship fields.old ≡ None }
    ensures memory { result ≢ Err FieldFault.OutOfMemory }
{
    Ok(Edit::Ship {
        ticket,
        product: fields.take()?,
        year: fields.take()?,
        units: fields.take()?,
    })
}

/// The edit that takes shipped units off.
#[tactic(auto, unfolding(crate::specs::EditReading::edit_reader_of_word))]
fn unship(ticket: Code, fields: &mut Fields<'_>) -> Result<Edit, FieldFault>
    ensures ok { IfOk result (λ edit. edit_reader_of_word ticket word.Unship fields.old ≡ Some (edit, fields.new)) }
    ensures shape { result ≡ Err FieldFault.Shape → edit_reader_of_word ticket word.Unship fields.old ≡ None }
    ensures memory { result ≢ Err FieldFault.OutOfMemory }
{
    Ok(Edit::Unship {
        ticket,
        product: fields.take()?,
        year: fields.take()?,
        units: fields.take()?,
    })
}

/// The edit that enters an exemption row.
#[tactic(auto, unfolding(crate::specs::EditReading::edit_reader_of_word))]
fn exemption(alloc: Global, ticket: Code, fields: &mut Fields<'_>) -> Result<Edit, FieldFault>
    ensures ok { IfOk result (λ edit. edit_reader_of_word ticket word.Exemption fields.old ≡ Some (edit, fields.new)) }
    ensures shape { result ≡ Err FieldFault.Shape → edit_reader_of_word ticket word.Exemption fields.old ≡ None }
{
    Ok(Edit::Exemption {
        ticket,
        exemption: read_exemption(alloc, fields)?,
    })
}
