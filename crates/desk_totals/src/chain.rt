ghost use Rattle.std.specs.Prelude.{◌≡◌, ◌+◌, ◌<◌, ℕ, List, [], ◌∷◌, None, Some, length, replicate, slice_index_or, if◌then◌else◌, IfOk, IfSome};
ghost use Rattle.desk_text.specs.Code.{same_code};
ghost use Rattle.desk_model.specs.declared.rows.line.LineRow.{LineRow};
ghost use Rattle.desk_model.specs.Lists.{Lists};
ghost use Rattle.desk_findings.specs.Bill.{IsBill};
ghost use Rattle.desk_findings.specs.Chain.{chain, chain_within};
ghost use Rattle.desk_totals.specs.Linked.{IsLinkedOf};
ghost use Rattle.desk_totals.specs.Marks.{has_bit};
ghost use Rattle.desk_totals.specs.Next.{AreNext, AreSteps, or_child};
ghost use Rattle.desk_totals.specs.Places.{node_at};
ghost use Rattle.desk_totals.specs.Rounds.{round};

use crate::bits::settled_bits;
use crate::links::Links;
use crate::reach::{bits_at_target, has_lowest};
use desk_model::Codes;
use desk_text::{Code, OutOfMemory};
use std::alloc::Global;

impl Links {
    /// The chain from one code to another: from each part to the child with the least code that is the target or reaches it.
    ///
    /// It takes a few passes over nodes and lines.
    pub fn chain(&self, alloc: Global, from: &Code, target: &Code) -> Result<Codes, OutOfMemory>
        ensures { (t : Lists) → IsLinkedOf self.now t → IsBill t → IfOk result (λ codes. codes ≡ chain t from.now target.now) }
    {
        let codes = match self.place_of(from) {
            Some(start) => chain_from(alloc, self, start, target)?,
            None => alone(alloc, *from)?,
        };
        Ok(Codes::new(codes))
    }
}

/// The code alone.
fn alone(alloc: Global, code: Code) -> Result<Vec<Code>, OutOfMemory>
    ensures { IfOk result (λ codes. codes.items ≡ code ∷ []) }
{
    let mut codes = Vec::new(alloc);
    codes.push(code)?;
    Ok(codes)
}

/// The chain from the node at a place.
fn chain_from(
    alloc: Global,
    bill: &Links,
    start: usize,
    target: &Code,
) -> Result<Vec<Code>, OutOfMemory>
    requires { start < length bill.now.nodes }
    ensures { (t : Lists) → IsLinkedOf bill.now t → IsBill t
        → IfOk result (λ codes. codes.items ≡ chain t (node_at bill.now.nodes start) target.now) }
{
    let own = bits_at_target(alloc, bill.nodes(), target)?;
    let bits = settled_bits(alloc, bill, own.as_slice())?;
    let steps = steps_of(alloc, bits.as_slice())?;
    let next = first_children(alloc, bill, steps.as_slice())?;
    walk(alloc, bill.nodes(), next.as_slice(), start, target)
}

/// Each place whose node has the lowest bit: there a chain may go on.
fn steps_of(alloc: Global, bits: &[u64]) -> Result<Vec<Option<usize>>, OutOfMemory>
    ensures steps { IfOk result (λ steps. AreSteps bits.now steps.items) }
    ensures len { IfOk result (λ steps. length steps.items ≡ length bits.now) }
{
    let mut steps = Vec::with_capacity(alloc, bits.len())?;
    for (place, bits) in bits.iter().enumerate() {
        steps.push_reserved(step_at(place, *bits));
    }
    Ok(steps)
}

/// The place, where its node has the lowest bit.
fn step_at(place: usize, bits: u64) -> Option<usize>
    ensures { result ≡ (if has_bit 0 bits then Some place else None) }
{
    if has_lowest(bits) { Some(place) } else { None }
}

/// Of each node the first of its children at which a chain may go on.
fn first_children(
    alloc: Global,
    bill: &Links,
    steps: &[Option<usize>],
) -> Result<Vec<Option<usize>>, OutOfMemory>
    requires { length steps.now ≡ length bill.now.nodes }
    ensures next { IfOk result (λ next. next.items ≡ round or_child None bill.now (replicate (length bill.now.nodes) None) steps.now) }
    ensures len { IfOk result (λ next. length next.items ≡ length bill.now.nodes) }
{
    let mut next: Vec<Option<usize>> = vec![in alloc; None; bill.nodes().len()]?;
    add_children(bill, steps, next.as_mut_slice());
    Ok(next)
}

/// Gives each node that has none yet the first of its children at which a chain may go on.
fn add_children(bill: &Links, steps: &[Option<usize>], next: &mut [Option<usize>])
    requires steps { length steps.now ≡ length bill.now.nodes }
    requires next { length next.old ≡ length bill.now.nodes }
    ensures next { next.new ≡ round or_child None bill.now next.old steps.now }
    ensures len { length next.new ≡ length bill.now.nodes }
{
    for link in bill.links() {
        next[link.parent] = next[link.parent].or(steps[link.child]);
    }
}

/// The codes from the node at a place on, each the next of the one before, until the target or a node that has no next.
fn walk(
    alloc: Global,
    nodes: &[Code],
    next: &[Option<usize>],
    start: usize,
    target: &Code,
) -> Result<Vec<Code>, OutOfMemory>
    requires start { start < length nodes.now }
    requires next { length next.now ≡ length nodes.now }
    ensures { (lines : List LineRow) (deep : ℕ) → AreNext nodes.now next.now lines deep target.now
        → IfOk result (λ codes. codes.items ≡ chain_within lines deep (length nodes.now + 2) (node_at nodes.now start) target.now) }
{
    let mut codes = Vec::new(alloc);
    codes.push(nodes[start])?;
    let mut at = start;
    for _step in 0..nodes.len() + 2 {
        match step_from(nodes, next, at, target) {
            Some(child) => {
                codes.push(nodes[child])?;
                at = child;
            }
            None => return Ok(codes),
        }
    }
    Ok(codes)
}

/// The place of the next node, none at the target.
fn step_from(nodes: &[Code], next: &[Option<usize>], at: usize, target: &Code) -> Option<usize>
    requires at { at < length nodes.now }
    requires next { length next.now ≡ length nodes.now }
    ensures within { IfSome result (λ child. child < length nodes.now) }
    ensures next { IfSome (slice_index_or next.now at None) (λ child. child < length nodes.now)
        → result ≡ (if same_code (node_at nodes.now at) target.now then None else slice_index_or next.now at None) }
{
    if nodes[at] == *target {
        return None;
    }
    match next[at] {
        Some(child) if child < nodes.len() => Some(child),
        _ => None,
    }
}
