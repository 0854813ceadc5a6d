ghost use Rattle.std.specs.Prelude.{◌≡◌, List, MatchResult, not, position};
ghost use Rattle.std.specs.Ordering.{is_eq};
ghost use Rattle.desk_rows.specs.Rows.{IsByKey};
ghost use Rattle.desk_rows.specs.Place.{StandsAt, StandsNowhere, Replaces, Enters};
ghost use Rattle.desk_rows.specs.Runs.{IsOneRun};

use crate::keyed::{Grouped, Keyed};
use std::cmp::Ordering;

/// The place of the row with this key, or else the place where it would go. It takes a binary search.
pub fn place_of_key<R: Keyed>(rows: &[R], key: &R::Key) -> Result<usize, usize>
    requires { IsByKey R.key R.Key.cmp rows.now }
    ensures { MatchResult result (StandsAt R.key R.Key.cmp key.now rows.now) (StandsNowhere R.key R.Key.cmp key.now rows.now) }
{
    rows.binary_search_by(|row| row.compare(key))
}

/// The same for a key that is mostly that of the last row, or a greater one: it takes one comparison there, and else a binary search.
pub fn place_from_end<R: Keyed>(rows: &[R], key: &R::Key) -> Result<usize, usize>
    requires { IsByKey R.key R.Key.cmp rows.now }
    ensures { MatchResult result (StandsAt R.key R.Key.cmp key.now rows.now) (StandsNowhere R.key R.Key.cmp key.now rows.now) }
{
    let Some(last) = rows.last() else {
        return Err(0);
    };
    match last.compare(key) {
        Ordering::Less => Err(rows.len()),
        Ordering::Equal => Ok(rows.len() - 1),
        Ordering::Greater => place_of_key(rows, key),
    }
}

/// The same for a key that mostly stands at this place: it takes one comparison there, and else a binary search.
pub fn place_near<R: Keyed>(rows: &[R], key: &R::Key, near: usize) -> Result<usize, usize>
    requires { IsByKey R.key R.Key.cmp rows.now }
    ensures { MatchResult result (StandsAt R.key R.Key.cmp key.now rows.now) (StandsNowhere R.key R.Key.cmp key.now rows.now) }
{
    match rows.get(near) {
        Some(row) if row.compare(key).is_eq() => Ok(near),
        _ => place_of_key(rows, key),
    }
}

/// The place of the row with the same key, or else the place where the row would go. It takes one comparison where no row has a greater
/// key, and else a binary search.
pub fn place_of_row<R: Keyed>(rows: &[R], row: &R) -> Result<usize, usize>
    requires { IsByKey R.key R.Key.cmp rows.now }
    ensures { MatchResult result (Replaces R.key R.Key.cmp row.now rows.now) (Enters R.key R.Key.cmp row.now rows.now) }
{
    let Some(last) = rows.last() else {
        return Err(0);
    };
    match last.compare_row(row) {
        Ordering::Less => Err(rows.len()),
        Ordering::Equal => Ok(rows.len() - 1),
        Ordering::Greater => rows.binary_search_by(|kept| kept.compare_row(row)),
    }
}

/// How many rows of a group are looked at before the end of a longer one is searched for.
const NEAR: usize = 8;

/// The rows of this group, where the rows of each group stand together, as they do in a list by key. It takes a binary search
/// and a look at some of them, and where there are many a second search.
pub fn run_of<'a, R: Grouped>(rows: &'a [R], group: &R::Group) -> &'a [R]
    ensures { (run : List R) → IsOneRun R.group R.Group.cmp group.now rows.now run → result.now ≡ run }
{
    let first = rows.partition_point(|row| row.compare_group(group).is_lt());
    let rest = &rows[first..];
    let near = &rest[..rest.len().min(NEAR)];
    match first_other(near, group) {
        Some(len) => &rest[..len],
        None => {
            let len = rest.partition_point(|row| row.compare_group(group).is_eq());
            &rest[..len]
        }
    }
}

/// The first place whose row isn't of the group.
fn first_other<R: Grouped>(rows: &[R], group: &R::Group) -> Option<usize>
    ensures { result ≡ position (λ row. not (is_eq (R.Group.cmp (R.group row) group.now))) rows.now }
{
    rows.iter()
        .position(|row| !row.compare_group(group).is_eq())
}
