ghost use Rattle.std.specs.Prelude.{◌≡◌, ◌==◌, ◌&&◌, ◌<◌, true, false, length, nat_lt, slice_index, slice_index_or, IfOk, IfSome, MatchOption};
ghost use Rattle.std.specs.List.{list_all, list_any};
ghost use Rattle.desk_model.specs.Lists.{Lists};
ghost use Rattle.desk_findings.specs.Bill.{are_parents_kept, is_acyclic};
ghost use Rattle.desk_findings.specs.Reaches.{reaches};
ghost use Rattle.desk_totals.specs.declared.link.Link.{Link};
ghost use Rattle.desk_totals.specs.Cycles.{IsOnCycle};
ghost use Rattle.desk_totals.specs.Linked.{IsLinkedOf};
ghost use Rattle.desk_totals.specs.Marks.{has_bit};
ghost use Rattle.desk_totals.specs.Places.{ArePlaces, node_at};

use crate::bits::rounds_of_bits;
use crate::guess::place_on_cycle;
use crate::link::Link;
use crate::links::Links;
use crate::reach::{bits_at_target, has_lowest};
use desk_text::OutOfMemory;
use std::alloc::Global;

impl Links {
    /// The place of a line on a cycle: its child is its parent or reaches it. None where there is none: then the bill
    /// is acyclic.
    ///
    /// It takes two passes over the lines where there is none. Where there is one it takes, for a part that a guess
    /// found, a pass over the lines for each step of the longest way to it; and that for each part, if the guess was
    /// wrong.
    pub fn line_on_cycle(&self, alloc: Global) -> Result<Option<usize>, OutOfMemory>
        ensures { (t : Lists) → IsLinkedOf self.now t → are_parents_kept t ≡ true
            → IfOk result (λ line. MatchOption line (is_acyclic t ≡ true) (IsOnCycle t)) }
    {
        let heights = guessed_heights(alloc, self)?;
        if does_fall(self.links(), heights.as_slice()) {
            return Ok(None);
        }
        let guess = place_on_cycle(alloc, self)?;
        match line_from(alloc, self, guess)? {
            Some(line) => Ok(Some(line)),
            None => first_on_cycle(alloc, self),
        }
    }
}

/// Of each node how many lines lie below it at most, as far as the guess at the order goes.
fn guessed_heights(alloc: Global, bill: &Links) -> Result<Vec<usize>, OutOfMemory>
    ensures { IfOk result (λ heights. length heights.items ≡ length bill.now.nodes) }
{
    let mut heights = vec![in alloc; 0; bill.nodes().len()]?;
    for link in bill.guess() {
        raise(heights.as_mut_slice(), *link);
    }
    Ok(heights)
}

/// Raises the parent above the child, where both have their place.
fn raise(heights: &mut [usize], link: Link)
    ensures { length heights.new ≡ length heights.old }
{
    if link.parent >= heights.len() {
        return;
    }
    if link.child < heights.len() {
        let least = heights[link.child].saturating_add(1);
        heights[link.parent] = heights[link.parent].max(least);
    }
}

/// Whether each link leads to a lesser height.
fn does_fall(links: &[Link], heights: &[usize]) -> bool
    requires { ArePlaces (length heights.now) links.now }
    ensures { result ≡ list_all (λ link. nat_lt (slice_index heights.now link.child) (slice_index heights.now link.parent)) links.now }
{
    for link in links {
        if heights[link.child] >= heights[link.parent] {
            return false;
        }
    }
    true
}

/// The place of a line of the node at the place, where that is a node, whose child is the node or reaches it.
fn line_from(alloc: Global, bill: &Links, place: usize) -> Result<Option<usize>, OutOfMemory>
    ensures { (t : Lists) → IsLinkedOf bill.now t → are_parents_kept t ≡ true
        → IfOk result (λ line. IfSome line (IsOnCycle t)) }
{
    if place >= bill.nodes().len() {
        return Ok(None);
    }
    line_to_itself(alloc, bill, place)
}

/// The place of a line of the first part that reaches itself, whose child is the part or reaches it.
fn first_on_cycle(alloc: Global, bill: &Links) -> Result<Option<usize>, OutOfMemory>
    ensures { (t : Lists) → IsLinkedOf bill.now t → are_parents_kept t ≡ true
        → IfOk result (λ line. MatchOption line (is_acyclic t ≡ true) (IsOnCycle t)) }
{
    for place in bill.material_count()..bill.nodes().len() {
        if let Some(line) = line_to_itself(alloc, bill, place)? {
            return Ok(Some(line));
        }
    }
    Ok(None)
}

/// The place of a line of the node at the place whose child is the node or reaches it. None where the node doesn't
/// reach itself.
fn line_to_itself(alloc: Global, bill: &Links, place: usize) -> Result<Option<usize>, OutOfMemory>
    requires { place < length bill.now.nodes }
    ensures { (t : Lists) → IsLinkedOf bill.now t → are_parents_kept t ≡ true
        → IfOk result (λ line. MatchOption line (reaches t (node_at bill.now.nodes place) (node_at bill.now.nodes place) ≡ false) (IsOnCycle t)) }
{
    let nodes = bill.nodes();
    let own = bits_at_target(alloc, nodes, &nodes[place])?;
    let blank = vec![in alloc; 0; nodes.len()]?;
    let bits = rounds_of_bits(alloc, bill, own.as_slice(), blank)?;
    Ok(link_to_bit(bill.links(), bits.as_slice(), place))
}

/// The place of the first link from the node that leads to a node with the lowest bit.
fn link_to_bit(links: &[Link], bits: &[u64], place: usize) -> Option<usize>
    requires { ArePlaces (length bits.now) links.now }
    ensures { MatchOption result
        (list_any (λ link. link.parent == place && has_bit 0 (slice_index bits.now link.child)) links.now ≡ false)
        (λ at. (at < length links.now)
        × ((d : Link) → ((slice_index_or links.now at d).parent == place && has_bit 0 (slice_index bits.now (slice_index_or links.now at d).child)) ≡ true)) }
{
    for (index, link) in links.iter().enumerate() {
        if (link.parent == place) & has_lowest(bits[link.child]) {
            return Some(index);
        }
    }
    None
}
