ghost use Rattle.std.specs.Prelude.{◌≡◌, ◌≢◌, true, Err, IfOk, is_ok, option_and_then, option_map};
ghost use Rattle.serde_json.specs.Find.{get};
ghost use Rattle.serde_json.specs.View.{view};
ghost use Rattle.desk_model.specs.Terms.{are_kinds, is_ppm};
ghost use Rattle.desk_edits.specs.Keys.{key_name};
ghost use Rattle.desk_edits.specs.Shape.{needed, optional, unless_null};
ghost use Rattle.desk_edits.specs.Values.{name_value, a_ppm, kinds_value};

use crate::from_json::FromJson;
use crate::{EditKey, JsonFault, Ppm};
use desk_law::KindSet;
use desk_text::{Name, NameFault};
use serde_json::Value;
use std::alloc::Global;

/// The value of a key of the object, if it is there.
pub(crate) fn value_at(object: &Value, key: EditKey) -> Option<&Value>
    ensures { option_map (λ v. view v.now) result ≡ get (key_name key) (view object.now) }
{
    object.get(key.name())
}

/// The value of a key, if it is there and isn't null.
fn value_unless_null(object: &Value, key: EditKey) -> Option<&Value>
    ensures { option_map (λ v. view v.now) result ≡ option_and_then unless_null (get (key_name key) (view object.now)) }
{
    let value = value_at(object, key)?;
    if value.is_null() { None } else { Some(value) }
}

/// What the value of a key is that has to be there.
#[tactic(auto, unfolding(crate::specs::Shape::needed))]
pub(crate) fn needed<T: FromJson>(object: &Value, key: EditKey) -> Result<T, JsonFault>
    ensures { result ≡ needed T.FromJson.form key (view object.now) }
{
    let Some(value) = value_at(object, key) else {
        return Err(JsonFault::BadValue { key });
    };
    T::from_json(value).ok_or(JsonFault::BadValue { key })
}

/// What the value of a key is that may be absent or null.
#[tactic(auto, unfolding(crate::specs::Shape::optional))]
pub(crate) fn optional<T: FromJson>(object: &Value, key: EditKey) -> Result<Option<T>, JsonFault>
    ensures { result ≡ optional T.FromJson.form key (view object.now) }
{
    let Some(value) = value_unless_null(object, key) else {
        return Ok(None);
    };
    match T::from_json(value) {
        Some(value) => Ok(Some(value)),
        None => Err(JsonFault::BadValue { key }),
    }
}

/// The name that the value of a key is, which has to be there. Memory is wanting only for a value that is a name.
#[tactic(auto, unfolding(crate::specs::Shape::needed, crate::specs::Values::name_value, desk_text::specs::Forms::a_name))]
pub(crate) fn needed_name(alloc: Global, object: &Value, key: EditKey) -> Result<Name, JsonFault>
    ensures name { result ≢ Err JsonFault.OutOfMemory → result ≡ needed name_value key (view object.now) }
    ensures memory { result ≡ Err JsonFault.OutOfMemory → is_ok (needed name_value key (view object.now)) ≡ true }
{
    let Some(value) = value_at(object, key) else {
        return Err(JsonFault::BadValue { key });
    };
    let Some(text) = value.as_str() else {
        return Err(JsonFault::BadValue { key });
    };
    match Name::read(alloc, text.as_bytes()) {
        Ok(name) => Ok(name),
        Err(NameFault::OutOfMemory) => Err(JsonFault::OutOfMemory),
        Err(_) => Err(JsonFault::BadValue { key }),
    }
}

/// The set of kinds that the value of a key is, which has to be there.
#[tactic(auto, using(crate::proofs::KindForms::needed_are_kinds))]
pub(crate) fn needed_kinds(object: &Value, key: EditKey) -> Result<KindSet, JsonFault>
    ensures value { result ≡ needed kinds_value key (view object.now) }
    ensures range { IfOk result (λ kinds. are_kinds kinds ≡ true) }
{
    needed(object, key)
}

/// The number of ppm that the value of a key is, which may be absent or null.
pub(crate) fn optional_ppm(object: &Value, key: EditKey) -> Result<Option<u32>, JsonFault>
    ensures value { result ≡ optional a_ppm key (view object.now) }
    ensures range { IfOk result (λ ppm. is_ppm ppm ≡ true) }
{
    match optional::<Ppm>(object, key)? {
        Some(ppm) => Ok(Some(ppm.get())),
        None => Ok(None),
    }
}
