ghost use Rattle.std.specs.Prelude.{◌≡◌, ◌+◌, ◌*◌, ℕ, List, None, Some, true, length, map, IfOk};
ghost use Rattle.desk_model.specs.Lists.{Lists};
ghost use Rattle.desk_findings.specs.Bill.{IsBill};
ghost use Rattle.desk_findings.specs.Rolled.{rolled};
ghost use Rattle.desk_totals.specs.Fit.{fit, fit_with};
ghost use Rattle.desk_totals.specs.Linked.{IsLinkedOf, IsLinked};
ghost use Rattle.desk_totals.specs.Rounds.{IsSettled, round};

use crate::link::Link;
use crate::links::Links;
use desk_text::OutOfMemory;
use std::alloc::Global;

impl Links {
    /// Of each node, in order, what it has of its own and by its lines, down to the end of the bill: count times what the child has,
    /// for each line. None where that is 2^128 or more. Each node's own amount stands in the order of the nodes, whatever its unit.
    ///
    /// It takes two passes over nodes and lines.
    pub fn rolled_up(&self, alloc: Global, own: &[u128]) -> Result<Vec<Option<u128>>, OutOfMemory>
        requires { length own.now ≡ length self.now.nodes }
        ensures amounts { (t : Lists) (amount : List ℕ → ℕ) → IsLinkedOf self.now t → IsBill t → own.now ≡ map amount self.now.nodes
            → IfOk result (λ amounts. amounts.items ≡ map (λ code. fit (rolled t amount code)) self.now.nodes) }
        ensures len { IfOk result (λ amounts. length amounts.items ≡ length self.now.nodes) }
    {
        let own = own_amounts(alloc, own)?;
        settled_amounts(alloc, self, own.as_slice())
    }
}

/// The amounts as those that fit.
fn own_amounts(alloc: Global, own: &[u128]) -> Result<Vec<Option<u128>>, OutOfMemory>
    ensures amounts { IfOk result (λ amounts. amounts.items ≡ map Some own.now) }
    ensures len { IfOk result (λ amounts. length amounts.items ≡ length own.now) }
{
    let mut amounts = Vec::with_capacity(alloc, own.len())?;
    for amount in own {
        amounts.push_reserved(Some(*amount));
    }
    Ok(amounts)
}

/// Of each node its own amount, with those of its children.
///
/// It takes one pass over the lines for the guess and one that settles it.
fn settled_amounts(
    alloc: Global,
    bill: &Links,
    own: &[Option<u128>],
) -> Result<Vec<Option<u128>>, OutOfMemory>
    requires { length own.now ≡ length bill.now.nodes }
    ensures amounts { IfOk result (λ amounts. IsSettled fit_with None bill.now own.now amounts.items) }
    ensures len { IfOk result (λ amounts. length amounts.items ≡ length bill.now.nodes) }
    ensures linked { IsLinked bill.now }
{
    let node_count = bill.nodes().len();
    let mut amounts = guessed_amounts(alloc, bill, own)?;
    for _round in 0..node_count + 2 {
        let next = round_of_amounts(alloc, bill, own, amounts.as_slice())?;
        if are_same(next.as_slice(), amounts.as_slice()) {
            return Ok(amounts);
        }
        amounts = next;
    }
    Ok(amounts)
}

/// The amounts as one sweep over the links gives them in the order in which, as a guess, children come first.
fn guessed_amounts(
    alloc: Global,
    bill: &Links,
    own: &[Option<u128>],
) -> Result<Vec<Option<u128>>, OutOfMemory>
    ensures { IfOk result (λ amounts. length amounts.items ≡ length own.now) }
{
    let mut amounts = Vec::from_slice(alloc, own)?;
    for link in bill.guess() {
        sweep(amounts.as_mut_slice(), *link);
    }
    Ok(amounts)
}

/// Adds the child's amount to the parent's, where both have their place.
fn sweep(amounts: &mut [Option<u128>], link: Link)
    ensures { length amounts.new ≡ length amounts.old }
{
    if link.parent >= amounts.len() {
        return;
    }
    if link.child < amounts.len() {
        amounts[link.parent] = with_child(amounts[link.parent], link.count, amounts[link.child]);
    }
}

/// One round: of each node its own amount, with those that its children had.
fn round_of_amounts(
    alloc: Global,
    bill: &Links,
    own: &[Option<u128>],
    amounts: &[Option<u128>],
) -> Result<Vec<Option<u128>>, OutOfMemory>
    requires own { length own.now ≡ length bill.now.nodes }
    requires amounts { length amounts.now ≡ length bill.now.nodes }
    ensures { IfOk result (λ next. next.items ≡ round fit_with None bill.now own.now amounts.now) }
{
    let mut next = Vec::from_slice(alloc, own)?;
    add_children(bill, amounts, next.as_mut_slice());
    Ok(next)
}

/// Adds to each node's amount those that its children had.
fn add_children(bill: &Links, amounts: &[Option<u128>], next: &mut [Option<u128>])
    requires amounts { length amounts.now ≡ length bill.now.nodes }
    requires next { length next.old ≡ length bill.now.nodes }
    ensures { next.new ≡ round fit_with None bill.now next.old amounts.now }
{
    for link in bill.links() {
        next[link.parent] = with_child(next[link.parent], link.count, amounts[link.child]);
    }
}

/// An amount and count times that of a child, None where it is 2^128 or more.
#[tactic(auto, unfolding(crate::specs::Fit::fit_with))]
fn with_child(amount: Option<u128>, count: u32, child: Option<u128>) -> Option<u128>
    ensures { result ≡ fit_with amount count child }
{
    if count == 0 {
        return amount;
    }
    match (amount, child) {
        (Some(amount), Some(child)) => sum_with(amount, count, child),
        _ => None,
    }
}

/// A number and count times another, None where it is 2^128 or more.
fn sum_with(amount: u128, count: u32, child: u128) -> Option<u128>
    ensures { result ≡ fit (amount + count * child) }
{
    match child.checked_mul(u128::from(count)) {
        Some(product) => amount.checked_add(product),
        None => None,
    }
}

/// Whether the two lists are the same.
fn are_same(one: &[Option<u128>], other: &[Option<u128>]) -> bool
    ensures { result ≡ true → one.now ≡ other.now }
{
    one == other
}
