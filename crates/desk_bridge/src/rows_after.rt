ghost use Rattle.std.specs.Prelude.{◌≡◌, Some, true, option_copied, if◌then◌else◌};
ghost use Rattle.std.specs.Ordering.{is_eq, on};
ghost use Rattle.desk_fields.specs.Reading.{in_turn};
ghost use Rattle.desk_rows.specs.Rows.{IsByKey, row_of, with_row, with_rows, without_row};
ghost use Rattle.desk_bridge.specs.RowsAfter.{last_of};

use desk_rows::Keyed;
use desk_tables::row_of;

/// The row of the key once `new` is put in. It takes a binary search.
pub(crate) fn row_with<'a, R: Keyed>(rows: &'a [R], new: &'a R, key: &R::Key) -> Option<&'a R>
    requires { IsByKey R.key R.Key.cmp rows.now }
    ensures { option_copied result ≡ row_of R.key R.Key.cmp key.now (with_row R.key R.Key.cmp new.now rows.now) }
{
    if new.compare(key).is_eq() {
        return Some(new);
    }
    row_of(rows, key)
}

/// The row of the key once the row of another key is taken out. It takes a binary search.
pub(crate) fn row_without<'a, R: Keyed>(
    rows: &'a [R],
    dropped: &R::Key,
    key: &R::Key,
) -> Option<&'a R>
    requires { IsByKey R.key R.Key.cmp rows.now }
    ensures { option_copied result ≡ row_of R.key R.Key.cmp key.now (without_row R.key R.Key.cmp dropped.now rows.now) }
{
    if dropped.cmp(key).is_eq() {
        return None;
    }
    row_of(rows, key)
}

/// The row of the key once each of `more` is put in, one after the other. It takes two binary searches where their keys are known to
/// rise.
pub(crate) fn row_with_all<'a, R: Keyed>(
    rows: &'a [R],
    more: &'a [R],
    rise: bool,
    key: &R::Key,
) -> Option<&'a R>
    requires rows { IsByKey R.key R.Key.cmp rows.now }
    requires more { rise ≡ true → IsByKey R.key R.Key.cmp more.now }
    ensures { option_copied result ≡ row_of R.key R.Key.cmp key.now (with_rows R.key R.Key.cmp more.now rows.now) }
{
    match last_of(more, rise, key) {
        Some(row) => Some(row),
        None => row_of(rows, key),
    }
}

/// The last of the rows that has the key. It takes a binary search where the keys are known to rise, and else a pass.
fn last_of<'a, R: Keyed>(rows: &'a [R], rise: bool, key: &R::Key) -> Option<&'a R>
    requires { rise ≡ true → IsByKey R.key R.Key.cmp rows.now }
    ensures { option_copied result ≡ last_of R.key R.Key.cmp key.now rows.now }
{
    if rise {
        return row_of(rows, key);
    }
    last_of_any(rows, key)
}

/// The same for rows in any order.
fn last_of_any<'a, R: Keyed>(rows: &'a [R], key: &R::Key) -> Option<&'a R>
    ensures { option_copied result ≡ last_of R.key R.Key.cmp key.now rows.now }
{
    let mut found = None;
    for row in rows {
        found = newer(found, row, key);
    }
    found
}

/// The row, where it has the key, and else the one that was found before.
fn newer<'a, R: Keyed>(found: Option<&'a R>, row: &'a R, key: &R::Key) -> Option<&'a R>
    ensures { option_copied result ≡ (if is_eq (R.Key.cmp (R.key row.now) key.now) then Some row.now else option_copied found.entry) }
{
    if row.compare(key).is_eq() {
        Some(row)
    } else {
        found
    }
}

/// Whether each row's key is below that of the row behind it.
pub(crate) fn do_keys_rise<R: Keyed>(rows: &[R]) -> bool
    ensures { result ≡ in_turn (on R.key R.Key.cmp) rows.now }
{
    for place in 1..rows.len() {
        if !rows[place - 1].compare_row(&rows[place]).is_lt() {
            return false;
        }
    }
    true
}
