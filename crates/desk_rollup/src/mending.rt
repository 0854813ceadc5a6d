ghost use Rattle.std.specs.Prelude.{◌≡◌, ℕ, true, option_map, IfOk, IfSome, OnOk};
ghost use Rattle.desk_graph.specs.Graph.{has_line};
ghost use Rattle.desk_rollup.specs.Changed.{IsMended, with_hop};
ghost use Rattle.desk_rollup.specs.Numbers.{Rises, hop_numbers, mark_number};
ghost use Rattle.desk_rollup.specs.Places.{IsKnown, known, place_at};
ghost use Rattle.desk_rollup.specs.Step.{step_hop};

use crate::hop::Hop;
use crate::hops::{has_mark, place_of, stands_at};
use crate::mark::{Mark, has_number};
use crate::own::Own;
use crate::values::Values;
use desk_graph::{BillLine, OutOfMemory};

/// Mends the hops of a node: those of marks that have changed come anew from its own marks and from those of its children. Tells whether
/// all hops are as they were.
pub fn mend_each(
    changed: &[Mark],
    own: &Own,
    lines: &[BillLine],
    values: &Values,
    hops: &mut Vec<Hop>,
) -> Result<bool, OutOfMemory>
    requires known { (child : ℕ) → has_line lines.now child ≡ true → IsKnown (place_at values.now.places.now child) values.now.kept.now values.now.new.now child }
    requires order { (child : ℕ) → has_line lines.now child ≡ true →
        Rises (hop_numbers (known (place_at values.now.places.now child) values.now.kept.now values.now.new.now child).hops) }
    requires rises { Rises (hop_numbers hops.old.items) }
    ensures mended { OnOk result (IsMended (λ child. known (place_at values.now.places.now child) values.now.kept.now values.now.new.now child)
        own.now lines.now changed.now hops.old.items hops.new.items) }
    ensures same { IfOk result (λ is_same. is_same ≡ true → hops.new.items ≡ hops.old.items) }
{
    let mut is_same = true;
    for mark in changed {
        let hop = hop_at(*mark, own, lines, values);
        let stays = exchange(hops, mark.number(), hop)?;
        is_same = is_same && stays;
    }
    Ok(is_same)
}

/// The hop of a mark at a node, by its own marks and by those of its children: the first child that has the mark is the one with the
/// least label.
fn hop_at(mark: Mark, own: &Own, lines: &[BillLine], values: &Values) -> Option<Hop>
    requires known { (child : ℕ) → has_line lines.now child ≡ true → IsKnown (place_at values.now.places.now child) values.now.kept.now values.now.new.now child }
    requires order { (child : ℕ) → has_line lines.now child ≡ true →
        Rises (hop_numbers (known (place_at values.now.places.now child) values.now.kept.now values.now.new.now child).hops) }
    ensures mark { IfSome result (λ hop. mark_number hop.mark ≡ mark_number mark) }
    ensures next { option_map (λ hop. hop.next) result
        ≡ step_hop (λ child. known (place_at values.now.places.now child) values.now.kept.now values.now.new.now child) own.now lines.now (mark_number mark) }
{
    let number = mark.number();
    if has_number(own.marks.as_slice(), number) {
        return Some(Hop { mark, next: None });
    }
    for line in lines {
        let child = values.of(line.node);
        if has_mark(child.hops.as_slice(), number) {
            let next = Some(line.node);
            return Some(Hop { mark, next });
        }
    }
    None
}

/// Puts a hop in the place of the one of its mark, or takes that out, and tells whether all are as they were.
fn exchange(hops: &mut Vec<Hop>, number: u64, hop: Option<Hop>) -> Result<bool, OutOfMemory>
    requires rises { Rises (hop_numbers hops.old.items) }
    requires number { IfSome hop (λ hop. mark_number hop.mark ≡ number) }
    ensures hops { OnOk result (hops.new.items ≡ with_hop number hop hops.old.items) }
    ensures same { IfOk result (λ is_same. is_same ≡ true → hops.new.items ≡ hops.old.items) }
{
    let at = place_of(hops.as_slice(), number);
    if !stands_at(hops.as_slice(), at, number) {
        let Some(hop) = hop else {
            return Ok(true);
        };
        hops.insert(at, hop)?;
        return Ok(false);
    }
    let Some(hop) = hop else {
        hops.remove(at);
        return Ok(false);
    };
    let is_same = hops[at].is(hop);
    hops[at] = hop;
    Ok(is_same)
}
