ghost use Rattle.std.specs.Prelude.{◌≡◌, ◌<◌, ◌≤◌, ◌++◌, List, false, drop, length, map, nat_lt, slice_index_or, take, IfOk, OnOk};
ghost use Rattle.desk_rollup.specs.Merge.{merged_in, merged};

use crate::entry::Entry;
use desk_graph::{BillLine, OutOfMemory};

/// Joins what the entries of a child are at the parent of the line to those of the same number that are held, up to the first entry whose
/// number none has. Gives the place of the held one that comes next, and how many are joined. Both lists stand in the order of their numbers.
pub fn join_held<E: Entry>(held: &mut [E], line: BillLine, more: &[E]) -> (usize, usize)
    ensures within { result.0 ≤ length held.new }
    ensures few { result.1 ≤ length more.now }
    ensures joins { merged E.number E.joined (map (E.lifted line) more.now) held.old ≡
        take result.0 held.new ++ merged E.number E.joined (map (E.lifted line) (drop result.1 more.now)) (drop result.0 held.new) }
{
    let front = join_front(held, line, more);
    join_from(held, front, line, more)
}

/// The same from a place on, at which both lists go on.
fn join_from<E: Entry>(held: &mut [E], from: usize, line: BillLine, more: &[E]) -> (usize, usize)
    requires within { from ≤ length held.old }
    requires few { from ≤ length more.now }
    ensures within { result.0 ≤ length held.new }
    ensures few { result.1 ≤ length more.now }
    ensures joins { take from held.old ++ merged E.number E.joined (map (E.lifted line) (drop from more.now)) (drop from held.old) ≡
        take result.0 held.new ++ merged E.number E.joined (map (E.lifted line) (drop result.1 more.now)) (drop result.0 held.new) }
{
    let mut at = from;
    for place in from..more.len() {
        let entry = more[place].lifted(line);
        at = past_below(held, at, entry);
        if at >= held.len() || held[at].number() != entry.number() {
            return (at, place);
        }
        held[at] = held[at].joined(entry);
        at += 1;
    }
    (at, more.len())
}

/// Joins what the entries of a child are at the parent of the line to those that are held at the same places, up to the first that has
/// another number, and tells how many are joined. Most nodes have what their children have, so this is most of the work.
fn join_front<E: Entry>(held: &mut [E], line: BillLine, more: &[E]) -> usize
    ensures within { result ≤ length held.new }
    ensures few { result ≤ length more.now }
    ensures joins { merged E.number E.joined (map (E.lifted line) more.now) held.old ≡
        take result held.new ++ merged E.number E.joined (map (E.lifted line) (drop result more.now)) (drop result held.new) }
{
    for (place, entry) in more.iter().enumerate() {
        let entry = entry.lifted(line);
        if place >= held.len() || held[place].number() != entry.number() {
            return place;
        }
        held[place] = held[place].joined(entry);
    }
    more.len()
}

/// Of the entries that are held from a place on, the place of the first that hasn't a lesser number.
fn past_below<E: Entry>(held: &[E], from: usize, entry: E) -> usize
    requires { from ≤ length held.now }
    ensures within { result ≤ length held.now }
    ensures stops { (none : E) → result < length held.now → nat_lt (E.number (slice_index_or held.now result none)) (E.number entry) ≡ false }
    ensures passes { (go : List E → List E) → take from held.now ++ merged_in E.number E.joined entry go (drop from held.now) ≡
        take result held.now ++ merged_in E.number E.joined entry go (drop result held.now) }
{
    for at in from..held.len() {
        if held[at].number() >= entry.number() {
            return at;
        }
    }
    held.len()
}

/// Appends what the entries of a child are at the parent of the line.
pub fn push_lifted<E: Entry>(
    line: BillLine,
    entries: &[E],
    into: &mut Vec<E>,
) -> Result<(), OutOfMemory>
    ensures { OnOk result (into.new.items ≡ into.old.items ++ map (E.lifted line) entries.now) }
{
    for entry in entries {
        into.push(entry.lifted(line))?;
    }
    Ok(())
}

/// Appends the entries that are held, and those of a child as they are at the parent of the line. Both stand in the order of their
/// numbers; two of the same number are joined.
pub fn merge_lifted<E: Entry>(
    held: &[E],
    line: BillLine,
    more: &[E],
    into: &mut Vec<E>,
) -> Result<(), OutOfMemory>
    ensures { OnOk result (into.new.items ≡ into.old.items ++ merged E.number E.joined (map (E.lifted line) more.now) held.now) }
{
    let mut at = 0;
    for entry in more {
        at = push_entry(held, at, entry.lifted(line), into)?;
    }
    into.extend_from_slice(held.split_at(at).1)?;
    Ok(())
}

/// Appends the entries that are held from a place on and have a lesser number than this one, and this one, joined to the one of the same
/// number where that is held. Gives the place of the next that is held.
pub fn push_entry<E: Entry>(
    held: &[E],
    from: usize,
    entry: E,
    into: &mut Vec<E>,
) -> Result<usize, OutOfMemory>
    requires { from ≤ length held.now }
    ensures within { IfOk result (λ next. next ≤ length held.now) }
    ensures pushes { IfOk result (λ next. (go : List E → List E) →
        into.old.items ++ merged_in E.number E.joined entry go (drop from held.now) ≡ into.new.items ++ go (drop next held.now)) }
{
    let at = push_below(held, from, entry, into)?;
    push_joined(held, at, entry, into)
}

/// Appends the entries that are held from a place on and have a lesser number, and gives the place of the first that has not.
fn push_below<E: Entry>(
    held: &[E],
    from: usize,
    entry: E,
    into: &mut Vec<E>,
) -> Result<usize, OutOfMemory>
    requires { from ≤ length held.now }
    ensures within { IfOk result (λ at. at ≤ length held.now) }
    ensures stops { IfOk result (λ at. (none : E) → at < length held.now → nat_lt (E.number (slice_index_or held.now at none)) (E.number entry) ≡ false) }
    ensures pushes { IfOk result (λ at. (go : List E → List E) →
        into.old.items ++ merged_in E.number E.joined entry go (drop from held.now) ≡ into.new.items ++ merged_in E.number E.joined entry go (drop at held.now)) }
{
    for at in from..held.len() {
        if held[at].number() >= entry.number() {
            return Ok(at);
        }
        into.push(held[at])?;
    }
    Ok(held.len())
}

/// Appends the entry, joined to the one that is held at the place where that has the same number, and gives the place of the next.
fn push_joined<E: Entry>(
    held: &[E],
    at: usize,
    entry: E,
    into: &mut Vec<E>,
) -> Result<usize, OutOfMemory>
    requires within { at ≤ length held.now }
    requires stops { (none : E) → at < length held.now → nat_lt (E.number (slice_index_or held.now at none)) (E.number entry) ≡ false }
    ensures within { IfOk result (λ next. next ≤ length held.now) }
    ensures pushes { IfOk result (λ next. (go : List E → List E) →
        into.old.items ++ merged_in E.number E.joined entry go (drop at held.now) ≡ into.new.items ++ go (drop next held.now)) }
{
    if at >= held.len() {
        into.push(entry)?;
        return Ok(at);
    }
    if held[at].number() != entry.number() {
        into.push(entry)?;
        return Ok(at);
    }
    into.push(held[at].joined(entry))?;
    Ok(at + 1)
}
