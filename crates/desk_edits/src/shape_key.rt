ghost use Rattle.std.specs.Prelude.{◌≡◌, Ok, find, not};
ghost use Rattle.std.specs.List.{list_any};
ghost use Rattle.std.specs.Map.{keys_of};
ghost use Rattle.std.specs.String.{string_bytes};
ghost use Rattle.std.specs.Str.{bytes_eq};
ghost use Rattle.serde_json.specs.View.{view};
ghost use Rattle.desk_edits.specs.Keys.{key_name};
ghost use Rattle.desk_edits.specs.Shape.{by_keys, has_extra_key, is_known, is_missing, json_key_of, missing_key};

use crate::edit_key::WORD_KEY;
use crate::value_at::value_at;
use crate::{EditKey, JsonFault};
use serde_json::{Map, Value};

/// A key of a word's shape.
#[derive(Clone, Copy, Debug, PartialEq, Eq)]
pub(crate) enum ShapeKey {
    /// The key has to be there, with a value of its form.
    Needed(EditKey),
    /// The key may be absent, and its value may be null.
    Optional(EditKey),
}

impl ShapeKey {
    /// The key itself.
    fn key(self) -> EditKey
        ensures { result ≡ json_key_of self }
    {
        match self {
            ShapeKey::Needed(key) | ShapeKey::Optional(key) => key,
        }
    }

    /// Whether the key has the name.
    fn is_named(self, name: &str) -> bool
        ensures { result ≡ bytes_eq (key_name (json_key_of self)) name.now }
    {
        self.key().name() == name
    }

    /// Whether the object lacks the key, and has to have it.
    fn is_missing(self, object: &Value) -> bool
        ensures { result ≡ is_missing (view object.now) self }
    {
        match self {
            ShapeKey::Needed(key) => value_at(object, key).is_none(),
            ShapeKey::Optional(_) => false,
        }
    }
}

/// Whether the object has the keys of a shape that have to be there, and none besides them and `edit`.
pub(crate) fn check_keys(object: &Value, keys: &[ShapeKey]) -> Result<(), JsonFault>
    ensures { result ≡ by_keys (missing_key keys.now (view object.now)) (has_extra_key keys.now (view object.now)) (Ok tt) }
{
    if let Some(key) = missing_key(object, keys) {
        return Err(JsonFault::MissingKey { key });
    }
    if has_extra_key(object, keys) {
        return Err(JsonFault::ExtraKey);
    }
    Ok(())
}

/// The first key of a shape that has to be there and isn't.
#[tactic(auto, unfolding(crate::specs::Shape::missing_key))]
fn missing_key(object: &Value, keys: &[ShapeKey]) -> Option<EditKey>
    ensures { result ≡ missing_key keys.now (view object.now) }
{
    match first_missing(object, keys) {
        Some(key) => Some(key.key()),
        None => None,
    }
}

/// The same with its place in the shape.
fn first_missing(object: &Value, keys: &[ShapeKey]) -> Option<ShapeKey>
    ensures { result ≡ find (is_missing (view object.now)) keys.now }
{
    keys.iter().copied().find(|key| key.is_missing(object))
}

/// Whether there is a key besides `edit` and those of a shape.
#[tactic(auto, using(crate::proofs::Members::has_unknown_entries), unfolding(crate::specs::Shape::has_extra_key))]
fn has_extra_key(object: &Value, keys: &[ShapeKey]) -> bool
    ensures { result ≡ has_extra_key keys.now (view object.now) }
{
    match object.as_object() {
        Some(members) => has_unknown(members, keys),
        None => false,
    }
}

/// Whether there is such a key among members.
fn has_unknown(members: &Map<String, Value>, keys: &[ShapeKey]) -> bool
    ensures { result ≡ list_any (λ name. not (is_known keys.now (string_bytes name))) (keys_of members.now.entries) }
{
    members.keys().any(|name| !is_known(keys, name.as_str()))
}

/// Whether a name is that of a key, or `edit`.
fn is_known(keys: &[ShapeKey], name: &str) -> bool
    ensures { result ≡ is_known keys.now name.now }
{
    name == WORD_KEY || is_named_by(keys, name)
}

/// Whether a name is that of a key.
fn is_named_by(keys: &[ShapeKey], name: &str) -> bool
    ensures { result ≡ list_any (λ key. bytes_eq (key_name (json_key_of key)) name.now) keys.now }
{
    keys.iter().any(|key| key.is_named(name))
}
