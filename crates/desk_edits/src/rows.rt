ghost use Rattle.std.specs.Prelude.{◌≡◌, ◌≢◌, true, Err};
ghost use Rattle.desk_model.specs.Terms.{are_kinds, is_ppm};
ghost use Rattle.serde_json.specs.View.{view};
ghost use Rattle.desk_edits.specs.Edit.{edit_of_word};
ghost use Rattle.desk_model.specs.declared.edit_word.EditWord.TheVariants as word;

use crate::shape_key::check_keys;
use crate::value_at::{needed, needed_kinds, needed_name, optional, optional_ppm};
use crate::{EditKey, JsonFault, shapes};
use desk_law::Terms;
use desk_model::{Edit, Exemption};
use desk_text::Name;
use serde_json::Value;
use std::alloc::Global;

/// The edit that an object of the word `substance` is.
#[tactic(auto, unfolding(crate::specs::Edit::edit_of_word))]
pub(crate) fn substance(alloc: Global, object: &Value) -> Result<Edit, JsonFault>
    ensures { result ≢ Err JsonFault.OutOfMemory → result ≡ edit_of_word word.Substance (view object.now) }
{
    check_keys(object, &shapes::SUBSTANCE)?;
    Ok(Edit::Substance {
        ticket: needed(object, EditKey::Ticket)?,
        code: needed(object, EditKey::Code)?,
        name: needed_name(alloc, object, EditKey::Name)?,
        cas: optional(object, EditKey::Cas)?,
    })
}

/// The edit that an object of the word `member` is.
#[tactic(auto, unfolding(crate::specs::Edit::edit_of_word))]
pub(crate) fn member(object: &Value) -> Result<Edit, JsonFault>
    ensures { result ≡ edit_of_word word.Member (view object.now) }
{
    check_keys(object, &shapes::MEMBER)?;
    Ok(Edit::Member {
        ticket: needed(object, EditKey::Ticket)?,
        substance: needed(object, EditKey::Substance)?,
        rule: needed(object, EditKey::Rule)?,
        factor: needed(object, EditKey::Factor)?,
    })
}

/// The edit that an object of the word `part` is.
#[tactic(auto, unfolding(crate::specs::Edit::edit_of_word))]
pub(crate) fn part(alloc: Global, object: &Value) -> Result<Edit, JsonFault>
    ensures { result ≢ Err JsonFault.OutOfMemory → result ≡ edit_of_word word.Part (view object.now) }
{
    check_keys(object, &shapes::PART)?;
    Ok(Edit::Part {
        ticket: needed(object, EditKey::Ticket)?,
        code: needed(object, EditKey::Code)?,
        sort: needed(object, EditKey::Kind)?,
        name: needed_name(alloc, object, EditKey::Name)?,
    })
}

/// The edit that an object of the word `line` is.
#[tactic(auto, unfolding(crate::specs::Edit::edit_of_word))]
pub(crate) fn line(object: &Value) -> Result<Edit, JsonFault>
    ensures { result ≡ edit_of_word word.Line (view object.now) }
{
    check_keys(object, &shapes::LINE)?;
    Ok(Edit::Line {
        ticket: needed(object, EditKey::Ticket)?,
        parent: needed(object, EditKey::Parent)?,
        child: needed(object, EditKey::Child)?,
        count: needed(object, EditKey::Count)?,
    })
}

/// The edit that an object of the word `unline` is.
#[tactic(auto, unfolding(crate::specs::Edit::edit_of_word))]
pub(crate) fn unline(object: &Value) -> Result<Edit, JsonFault>
    ensures { result ≡ edit_of_word word.Unline (view object.now) }
{
    check_keys(object, &shapes::UNLINE)?;
    Ok(Edit::Unline {
        ticket: needed(object, EditKey::Ticket)?,
        parent: needed(object, EditKey::Parent)?,
        child: needed(object, EditKey::Child)?,
    })
}

/// The edit that an object of the word `product` is.
#[tactic(auto, unfolding(crate::specs::Edit::edit_of_word))]
pub(crate) fn product(object: &Value) -> Result<Edit, JsonFault>
    ensures { result ≡ edit_of_word word.Product (view object.now) }
{
    check_keys(object, &shapes::PRODUCT)?;
    Ok(Edit::Product {
        ticket: needed(object, EditKey::Ticket)?,
        part: needed(object, EditKey::Part)?,
        kind: needed(object, EditKey::Kind)?,
    })
}

/// The edit that an object of the word `unexempt` is.
#[tactic(auto, unfolding(crate::specs::Edit::edit_of_word))]
pub(crate) fn unexempt(object: &Value) -> Result<Edit, JsonFault>
    ensures { result ≡ edit_of_word word.Unexempt (view object.now) }
{
    check_keys(object, &shapes::UNEXEMPT)?;
    Ok(Edit::Unexempt {
        ticket: needed(object, EditKey::Ticket)?,
        row: needed(object, EditKey::Row)?,
    })
}

/// The edit that an object of the word `candidate` is.
#[tactic(auto, unfolding(crate::specs::Edit::edit_of_word))]
pub(crate) fn candidate(object: &Value) -> Result<Edit, JsonFault>
    ensures { result ≡ edit_of_word word.Candidate (view object.now) }
{
    check_keys(object, &shapes::CANDIDATE)?;
    Ok(Edit::Candidate {
        ticket: needed(object, EditKey::Ticket)?,
        substance: needed(object, EditKey::Substance)?,
        day: needed(object, EditKey::Day)?,
    })
}

/// The edit that an object of the word `ship` is.
#[tactic(auto, unfolding(crate::specs::Edit::edit_of_word))]
pub(crate) fn ship(object: &Value) -> Result<Edit, JsonFault>
    ensures { result ≡ edit_of_word word.Ship (view object.now) }
{
    check_keys(object, &shapes::SHIPMENT)?;
    Ok(Edit::Ship {
        ticket: needed(object, EditKey::Ticket)?,
        product: needed(object, EditKey::Product)?,
        year: needed(object, EditKey::Year)?,
        units: needed(object, EditKey::Units)?,
    })
}

/// The edit that an object of the word `unship` is.
#[tactic(auto, unfolding(crate::specs::Edit::edit_of_word))]
pub(crate) fn unship(object: &Value) -> Result<Edit, JsonFault>
    ensures { result ≡ edit_of_word word.Unship (view object.now) }
{
    check_keys(object, &shapes::SHIPMENT)?;
    Ok(Edit::Unship {
        ticket: needed(object, EditKey::Ticket)?,
        product: needed(object, EditKey::Product)?,
        year: needed(object, EditKey::Year)?,
        units: needed(object, EditKey::Units)?,
    })
}

/// The edit that an object of the word `exemption` is.
#[tactic(auto, unfolding(crate::specs::Edit::edit_of_word))]
pub(crate) fn exemption(alloc: Global, object: &Value) -> Result<Edit, JsonFault>
    ensures { result ≢ Err JsonFault.OutOfMemory → result ≡ edit_of_word word.Exemption (view object.now) }
{
    check_keys(object, &shapes::EXEMPTION)?;
    let ticket = needed(object, EditKey::Ticket)?;
    let row = needed(object, EditKey::Row)?;
    let annex = needed(object, EditKey::Annex)?;
    let number = needed(object, EditKey::Number)?;
    let rule = needed(object, EditKey::Rule)?;
    let kinds = needed_kinds(object, EditKey::Kinds)?;
    let application = needed_name(alloc, object, EditKey::Application)?;
    let first = needed(object, EditKey::From)?;
    let last = needed(object, EditKey::Until)?;
    let floor = optional_ppm(object, EditKey::Floor)?;
    let cap = optional_ppm(object, EditKey::Cap)?;
    let terms = Terms {
        row,
        annex,
        number,
        rule,
        kinds,
        first,
        last,
        floor,
        cap,
    };
    Ok(Edit::Exemption {
        ticket,
        exemption: exemption_row(terms, application),
    })
}

/// The row of terms whose values are in their ranges.
fn exemption_row(terms: Terms, application: Name) -> Exemption
    requires kinds { are_kinds terms.kinds ≡ true }
    requires floor { is_ppm terms.floor ≡ true }
    requires cap { is_ppm terms.cap ≡ true }
    ensures { result ≡ record { terms = terms; application = application } }
{
    match Exemption::new(terms, application) {
        Some(exemption) => exemption,
        None => unreachable!(),
    }
}
