ghost use Rattle.std.specs.Prelude.{◌≡◌, ◌+◌, true, length, IfOk};
ghost use Rattle.desk_totals.specs.Linked.{IsLinked};
ghost use Rattle.desk_totals.specs.Rounds.{IsSettled, round, rounds};
ghost use Rattle.desk_totals.specs.Marks.{with_bits};

use crate::link::Link;
use crate::links::Links;
use desk_text::OutOfMemory;
use std::alloc::Global;

/// Of each node its own bits, with those of all that it reaches. Each node's own bits stand in the order of the nodes.
///
/// It takes one pass over the lines for the guess and one that settles it.
pub(crate) fn settled_bits(
    alloc: Global,
    bill: &Links,
    own: &[u64],
) -> Result<Vec<u64>, OutOfMemory>
    requires { length own.now ≡ length bill.now.nodes }
    ensures bits { IfOk result (λ bits. IsSettled with_bits 0 bill.now own.now bits.items) }
    ensures len { IfOk result (λ bits. length bits.items ≡ length bill.now.nodes) }
    ensures linked { IfOk result (λ bits. IsLinked bill.now) }
{
    let guess = guessed_bits(alloc, bill, own)?;
    rounds_of_bits(alloc, bill, own, guess)
}

/// The bits after two rounds more than there are nodes. It stops at the first round that changes nothing, as would each later one.
pub(crate) fn rounds_of_bits(
    alloc: Global,
    bill: &Links,
    own: &[u64],
    first: Vec<u64>,
) -> Result<Vec<u64>, OutOfMemory>
    requires own { length own.now ≡ length bill.now.nodes }
    requires first { length first.items ≡ length bill.now.nodes }
    ensures bits { IfOk result (λ bits. bits.items ≡ rounds with_bits 0 bill.now own.now (length bill.now.nodes + 2) first.items) }
    ensures len { IfOk result (λ bits. length bits.items ≡ length bill.now.nodes) }
    ensures linked { IsLinked bill.now }
{
    let node_count = bill.nodes().len();
    let mut bits = first;
    for _round in 0..node_count + 2 {
        let next = round_of_bits(alloc, bill, own, bits.as_slice())?;
        if are_same(next.as_slice(), bits.as_slice()) {
            return Ok(bits);
        }
        bits = next;
    }
    Ok(bits)
}

/// The bits as one sweep over the links gives them in the order in which, as a guess, children come first.
fn guessed_bits(alloc: Global, bill: &Links, own: &[u64]) -> Result<Vec<u64>, OutOfMemory>
    ensures { IfOk result (λ bits. length bits.items ≡ length own.now) }
{
    let mut bits = Vec::from_slice(alloc, own)?;
    for link in bill.guess() {
        sweep(bits.as_mut_slice(), *link);
    }
    Ok(bits)
}

/// Adds the child's bits to the parent's, where both have their place.
fn sweep(bits: &mut [u64], link: Link)
    ensures { length bits.new ≡ length bits.old }
{
    if link.parent >= bits.len() {
        return;
    }
    if link.child < bits.len() {
        bits[link.parent] = bits[link.parent] | bits[link.child];
    }
}

/// One round: of each node its own bits, with those that its children had.
fn round_of_bits(
    alloc: Global,
    bill: &Links,
    own: &[u64],
    bits: &[u64],
) -> Result<Vec<u64>, OutOfMemory>
    requires own { length own.now ≡ length bill.now.nodes }
    requires bits { length bits.now ≡ length bill.now.nodes }
    ensures { IfOk result (λ next. next.items ≡ round with_bits 0 bill.now own.now bits.now) }
{
    let mut next = Vec::from_slice(alloc, own)?;
    add_children(bill, bits, next.as_mut_slice());
    Ok(next)
}

/// Adds to each node's bits those that its children had.
fn add_children(bill: &Links, bits: &[u64], next: &mut [u64])
    requires bits { length bits.now ≡ length bill.now.nodes }
    requires next { length next.old ≡ length bill.now.nodes }
    ensures { next.new ≡ round with_bits 0 bill.now next.old bits.now }
{
    for link in bill.links() {
        next[link.parent] = next[link.parent] | bits[link.child];
    }
}

/// Whether the two lists are the same.
fn are_same(one: &[u64], other: &[u64]) -> bool
    ensures { result ≡ true → one.now ≡ other.now }
{
    one == other
}
