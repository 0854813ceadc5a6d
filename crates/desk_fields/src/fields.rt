ghost use Rattle.std.specs.Prelude.{◌≡◌, ◌≢◌, ◌≤◌, ◌==◌, [], ◌∷◌, Err, IfOk, is_some, MatchOption, None};
ghost use Rattle.std.specs.Prelude.{OnErr, OnOk, position, Some, true};
ghost use Rattle.std.specs.List.{join_with_byte, slice_split};
ghost use Rattle.std.specs.Option.{option_map_or};
ghost use Rattle.desk_text.specs.Forms.{a_name, a_number};
ghost use Rattle.desk_fields.specs.Reading.{one};

use crate::field::Field;
use crate::field_fault::FieldFault;
use desk_text::{Name, NameFault, read_u64};
use std::alloc::Global;
use std::marker::Model;

/// The byte between two fields.
pub(crate) const TAB: u8 = b'\t';

/// The byte between two codes of kinds.
pub(crate) const COMMA: u8 = b',';

/// The byte between the two parts of a row's code.
pub(crate) const SLASH: u8 = b'/';

/// The byte between the parts of a ticket's code.
pub(crate) const COLON: u8 = b':';

/// The parts of a text that are still to be read: they stand in it with a separator between each two.
#[derive(Drop)]
pub(crate) struct Parts<'a, const SEPARATOR: u8> {
    rest: Option<&'a [u8]>,
}

/// The fields of a text: its parts with a TAB between each two.
pub(crate) type Fields<'a> = Parts<'a, TAB>;

impl<'a, const SEPARATOR: u8> Model for Parts<'a, SEPARATOR> {
    ghost use Rattle.std.specs.Prelude.{◌==◌, List, ℕ, []};
    ghost use Rattle.std.specs.List.{slice_split};
    ghost use Rattle.std.specs.Option.{option_map_or};

    ghost Value = { List (List ℕ) };

    ghost view = { λ parts. option_map_or (λ rest. slice_split (λ b. b == SEPARATOR) rest.now) parts.rest [] };
}

impl<'a, const SEPARATOR: u8> Parts<'a, SEPARATOR> {
    /// The parts of a text: one more than it has of the separator.
    pub(crate) fn of(text: &'a [u8]) -> Parts<'a, SEPARATOR>
        ensures { result ≡ slice_split (λ b. b == SEPARATOR) text.now }
    {
        Parts { rest: Some(text) }
    }

    /// Takes the next part, if there is one.
    pub(crate) fn next(&mut self) -> Option<&'a [u8]>
        ensures { MatchOption result (self.old ≡ []) (λ part. self.old ≡ part.now ∷ self.new) }
    {
        let (part, rest) = cut(SEPARATOR, self.rest?);
        *self = Parts { rest };
        Some(part)
    }

    /// The bytes of the parts that are left, with the separators between them.
    #[tactic(auto, using(crate::proofs::FirstField::joined_parts))]
    pub(crate) fn rest(&self) -> &'a [u8]
        ensures { result.now ≡ join_with_byte SEPARATOR self.now }
    {
        match self.rest {
            Some(rest) => rest,
            None => &[],
        }
    }

    /// Says that no part is left.
    pub(crate) fn end(&mut self) -> Result<(), FieldFault>
        ensures ok { OnOk result (self.old ≡ []) }
        ensures shape { OnErr result ((result ≡ Err FieldFault.Shape) × (self.old ≢ [])) }
    {
        match self.next() {
            Some(_) => Err(FieldFault::Shape),
            None => Ok(()),
        }
    }

    /// Takes a value of one part.
    pub(crate) fn take<T: Field>(&mut self) -> Result<T, FieldFault>
        ensures ok { IfOk result (λ value. one T.Field.form self.old ≡ Some (value, self.new)) }
        ensures shape { result ≡ Err FieldFault.Shape → one T.Field.form self.old ≡ None }
        ensures memory { result ≢ Err FieldFault.OutOfMemory }
    {
        let Some(field) = self.next() else {
            return Err(FieldFault::Shape);
        };
        match T::from_field(field) {
            Some(value) => Ok(value),
            None => Err(FieldFault::Shape),
        }
    }

    /// Takes a number from the least to the greatest that is asked.
    #[tactic(auto, unfolding(desk_text::specs::Forms::a_number))]
    pub(crate) fn take_number(&mut self, least: u64, greatest: u64) -> Result<u64, FieldFault>
        ensures ok { IfOk result (λ number. one (a_number least greatest) self.old ≡ Some (number, self.new)) }
        ensures range { IfOk result (λ number. (least ≤ number) × (number ≤ greatest)) }
        ensures shape { result ≡ Err FieldFault.Shape → one (a_number least greatest) self.old ≡ None }
        ensures memory { result ≢ Err FieldFault.OutOfMemory }
    {
        let Some(field) = self.next() else {
            return Err(FieldFault::Shape);
        };
        match read_u64(field) {
            Ok(number) if least <= number && number <= greatest => Ok(number),
            _ => Err(FieldFault::Shape),
        }
    }

    /// Takes a name. Memory is wanting only for a field that is one.
    #[tactic(auto, unfolding(desk_text::specs::Forms::a_name))]
    pub(crate) fn take_name(&mut self, alloc: Global) -> Result<Name, FieldFault>
        ensures ok { IfOk result (λ name. one a_name self.old ≡ Some (name, self.new)) }
        ensures shape { result ≡ Err FieldFault.Shape → one a_name self.old ≡ None }
        ensures memory { result ≡ Err FieldFault.OutOfMemory → is_some (one a_name self.old) ≡ true }
    {
        let Some(field) = self.next() else {
            return Err(FieldFault::Shape);
        };
        match Name::read(alloc, field) {
            Ok(name) => Ok(name),
            Err(NameFault::OutOfMemory) => Err(FieldFault::OutOfMemory),
            Err(_) => Err(FieldFault::Shape),
        }
    }
}

/// What stands before the first separator, and what stands behind it, if there is one.
fn cut(separator: u8, text: &[u8]) -> (&[u8], Option<&[u8]>)
    ensures { slice_split (λ b. b == separator) text.now
        ≡ result.0.now ∷ option_map_or (λ rest. slice_split (λ b. b == separator) rest.now) result.1 [] }
{
    match place_of(separator, text) {
        Some(at) => (&text[..at], Some(&text[at + 1..])),
        None => (text, None),
    }
}

/// The place of the first byte that is the one that is sought.
fn place_of(sought: u8, text: &[u8]) -> Option<usize>
    ensures { result ≡ position (λ b. b == sought) text.now }
{
    text.iter().position(|&byte| byte == sought)
}
