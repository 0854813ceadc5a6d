ghost use Rattle.std.specs.Prelude.{◌≡◌, Err, IfOk, None, Some};
ghost use Rattle.desk_fields.specs.Reading.{in_turn, rising, times};
ghost use Rattle.desk_model.specs.Content.{rises};

use crate::field_fault::FieldFault;
use crate::fields::Fields;
use std::alloc::Global;
use std::cmp::Ordering;

/// A value of several fields, of which lists are read.
pub(crate) trait Item: Sized + Drop {
    // What reads such a value.
    ghost reader: { List (List ℕ) → Option (Self × List (List ℕ)) };

    // The order in which such values stand.
    ghost order: { Self → Self → Ordering };

    ghost use Rattle.std.specs.Prelude.{◌≡◌, ℕ, Err, IfOk, List, None, Option, Some};
    ghost use Rattle.std.specs.Cmp.{IsTotalOrder};
    ghost use Rattle.std.specs.declared.cmp.Ordering.{Ordering};
    ghost use Rattle.desk_fields.specs.declared.field_fault.FieldFault.TheVariants as fault;

    /// The value that the fields begin with.
    fn from_fields(alloc: Global, fields: &mut Fields<'_>) -> Result<Self, FieldFault>
        ensures ok { IfOk result (λ value. reader fields.old ≡ Some (value, fields.new)) }
        ensures shape { result ≡ Err fault.Shape → reader fields.old ≡ None };

    /// How the value stands to another.
    fn order(&self, other: &Self) -> Ordering
        ensures { result ≡ order self.now other.now };

    // Values that stand in it are ordered by it.
    ghost total: { IsTotalOrder order };
}

/// A list of values that rise: at most so many, with how many there are in front.
pub(crate) fn rising<T: Item>(
    alloc: Global,
    fields: &mut Fields<'_>,
    limit: u64,
) -> Result<Vec<T>, FieldFault>
    ensures ok { IfOk result (λ list.
        rising T.Item.order limit T.Item.reader fields.old ≡ Some (list.items, fields.new)) }
    ensures shape { result ≡ Err FieldFault.Shape → rising T.Item.order limit T.Item.reader fields.old ≡ None }
{
    let count = fields.take_number(0, limit)?;
    let list = items(alloc, fields, count)?;
    if rises(list.as_slice()) {
        Ok(list)
    } else {
        Err(FieldFault::Shape)
    }
}

/// So many values.
fn items<T: Item>(alloc: Global, fields: &mut Fields<'_>, count: u64) -> Result<Vec<T>, FieldFault>
    ensures ok { IfOk result (λ list. times count T.Item.reader fields.old ≡ Some (list.items, fields.new)) }
    ensures shape { result ≡ Err FieldFault.Shape → times count T.Item.reader fields.old ≡ None }
{
    let mut list = Vec::new(alloc);
    for _ in 0..count {
        list.push(T::from_fields(alloc, fields)?)?;
    }
    Ok(list)
}

/// Whether the values rise.
fn rises<T: Item>(list: &[T]) -> bool
    ensures { result ≡ rises T.Item.order list.now }
{
    in_turn(list)
}

/// Whether each value is below the one behind it.
fn in_turn<T: Item>(list: &[T]) -> bool
    ensures { result ≡ in_turn T.Item.order list.now }
{
    for place in 1..list.len() {
        if list[place - 1].order(&list[place]).is_ge() {
            return false;
        }
    }
    true
}
