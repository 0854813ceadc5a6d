ghost use Rattle.std.specs.Prelude.{◌≡◌, Err, false, IfErr, IfOk, is_some, MatchBool, OnOk, true, drop, codes};
ghost use Rattle.desk_model.specs.declared.edit.Edit.{Edit};
ghost use Rattle.desk_model.specs.EditText.{edit_text, ticket_code};
ghost use Rattle.desk_model.specs.Forms.{is_edit_in_form};
ghost use Rattle.desk_fields.specs.EditTexts.{IsEditOf, IsEditText, begins_with_texts};
ghost use Rattle.desk_fields.specs.EditReading.{edit_of_text, ticket_in};
ghost use Rattle.desk_fields.specs.Reading.{fields_of};

use crate::TextFault;
use crate::edits::edit_of;
use crate::field_fault::FieldFault;
use desk_model::Edit;
use desk_text::{Bytes, Code, OutOfMemory};
use std::alloc::Global;

/// The edit that has this text and whose ticket has this code: `E:TICKET`, or of a declaration `D:SUPPLIER:NUMBER`.
///
/// `NotAnEdit`: no edit has both. `OutOfMemory`: there was no memory to read it.
pub fn read_edit_text(alloc: Global, code: &[u8], text: &[u8]) -> Result<Edit, TextFault>
    ensures edit { IfOk result (λ edit. IsEditOf code.now text.now edit) }
    ensures none { result ≡ Err TextFault.NotAnEdit
        → (edit : Edit) → is_edit_in_form edit ≡ true → code.now ≡ ticket_code edit → text.now ≡ edit_text edit → ⊥ }
{
    let edit = edit_of(alloc, ticket_of(code), text)?;
    if has_code(alloc, &edit, code)? {
        Ok(edit)
    } else {
        drop(edit);
        Err(TextFault::NotAnEdit)
    }
}

/// Whether the bytes are the text of an edit, under whichever ticket. Memory is taken only after the word of an edit that holds texts.
pub fn is_edit_text(alloc: Global, text: &[u8]) -> Result<bool, OutOfMemory>
    ensures is { IfOk result (λ is. MatchBool is (IsEditText text.now) (IsEditText text.now → ⊥)) }
    ensures memory { IfErr result (λ _. begins_with_texts (fields_of text.now) ≡ true) }
{
    match edit_of(alloc, no_ticket(), text) {
        Ok(edit) => {
            drop(edit);
            Ok(true)
        }
        Err(FieldFault::Shape) => Ok(false),
        Err(FieldFault::OutOfMemory) => Err(OutOfMemory),
    }
}

/// Says that the bytes are the text of an edit, under whichever ticket.
pub(crate) fn check_edit_text(alloc: Global, text: &[u8]) -> Result<(), FieldFault>
    ensures ok { OnOk result (is_some (edit_of_text (codes "D") text.now) ≡ true) }
    ensures shape { result ≡ Err FieldFault.Shape → is_some (edit_of_text (codes "D") text.now) ≡ false }
    ensures memory { result ≡ Err FieldFault.OutOfMemory → begins_with_texts (fields_of text.now) ≡ true }
{
    drop(edit_of(alloc, no_ticket(), text)?);
    Ok(())
}

/// Whether the edit's ticket has the code.
fn has_code(alloc: Global, edit: &Edit, code: &[u8]) -> Result<bool, OutOfMemory>
    ensures { IfOk result (λ has.
        MatchBool has (code.now ≡ ticket_code edit.now) (code.now ≡ ticket_code edit.now → ⊥)) }
{
    let mut own = Bytes::start(alloc);
    edit.ticket_code(&mut own)?;
    Ok(own.as_slice() == code)
}

/// The ticket that follows `E:` in a sender's code. Of any other code it is some ticket, which isn't used.
#[tactic(auto, unfolding(desk_text::specs::Forms::a_code))]
fn ticket_of(code: &[u8]) -> Code
    ensures { result ≡ ticket_in code.now }
{
    match Code::read(behind_two(code)) {
        Ok(ticket) => ticket,
        Err(_) => no_ticket(),
    }
}

/// What stands behind the first two bytes.
fn behind_two(code: &[u8]) -> &[u8]
    ensures { result.now ≡ drop 2 code.now }
{
    match code {
        [_, _, behind @ ..] => behind,
        _ => &[],
    }
}

/// A ticket that no edit has to have.
#[tactic(auto, unfolding(desk_text::specs::Code::code_of))]
fn no_ticket() -> Code
    ensures { result ≡ codes "D" }
{
    Code::read(b"D").unwrap()
}
