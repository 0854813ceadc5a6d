ghost use Rattle.std.specs.Prelude.{◌≡◌, ◌≤◌, ◌<◌, ◌+◌, ◌*◌, ℕ, false, true, List, Some, map, sum_by, IfOk, IfSome};
ghost use Rattle.desk_model.specs.declared.limits.TheConstants.{FINDING_LIMIT};
ghost use Rattle.desk_findings.specs.Totals.{has_too_many_findings};
ghost use Rattle.desk_history.specs.Sound.{IsConsistent};
ghost use Rattle.desk_totals.specs.Fit.{fit};
ghost use Rattle.desk_totals.specs.Linked.{IsLinkedOf};

use crate::TableLists;
use desk_model::limits::FINDING_LIMIT;
use desk_text::OutOfMemory;
use desk_totals::Links;
use std::alloc::Global;

/// How many rules there are: no material has more findings by itself.
const RULE_COUNT: u128 = 10;

impl<'a> TableLists<'a> {
    /// Whether the bill alone shows that all parts together have few enough findings, whatever materials hold.
    ///
    /// The ways down from a part are at least as many as the nodes that it is or reaches, and no node has more findings by itself than
    /// there are rules and candidates. It takes a few passes over nodes and lines, and looks at no material.
    pub(crate) fn has_few_ways(&self, alloc: Global, bill: &Links) -> Result<bool, OutOfMemory>
        requires consistent { IsConsistent self.now }
        requires bill { IsLinkedOf bill.now self.now }
        ensures { IfOk result (λ few. few ≡ true → has_too_many_findings self.now ≡ false) }
    {
        let own = vec![in alloc; 1; bill.nodes().len()]?;
        let ways = bill.single(alloc)?.rolled_up(alloc, own.as_slice())?;
        let of_parts = &ways.as_slice()[self.materials().len()..];
        Ok(are_few(of_parts, self.candidates().len()))
    }
}

/// Whether so many ways, for each of them a finding for each rule and each of so many candidates, are no more findings than the desk
/// keeps.
fn are_few(ways: &[Option<u128>], candidate_count: usize) -> bool
    ensures { (codes : List (List ℕ)) (count : List ℕ → ℕ) → ways.now ≡ map (λ code. fit (count code)) codes
        → result ≡ true → (candidate_count + 10) * sum_by count codes ≤ FINDING_LIMIT }
{
    match sum_of(ways) {
        Some(sum) => sum * (candidate_count as u128 + RULE_COUNT) <= FINDING_LIMIT as u128,
        None => false,
    }
}

/// The sum of the numbers, where it isn't over the limit of findings.
fn sum_of(ways: &[Option<u128>]) -> Option<u128>
    ensures sum { (codes : List (List ℕ)) (count : List ℕ → ℕ) → ways.now ≡ map (λ code. fit (count code)) codes
        → IfSome result (λ sum. sum ≡ sum_by count codes) }
    ensures small { IfSome result (λ sum. sum ≤ FINDING_LIMIT) }
{
    let mut sum = 0u128;
    for way in ways {
        match sum_with(sum, *way) {
            Some(next) => sum = next,
            None => return None,
        }
    }
    Some(sum)
}

/// The sum of the two, where it isn't over the limit of findings.
fn sum_with(sum: u128, way: Option<u128>) -> Option<u128>
    requires { sum ≤ FINDING_LIMIT }
    ensures sum { IfSome result (λ next. (n : ℕ) → (way ≡ fit n) → next ≡ sum + n) }
    ensures small { IfSome result (λ next. next ≤ FINDING_LIMIT) }
{
    match way {
        Some(way) => match sum.checked_add(way) {
            Some(next) if next <= FINDING_LIMIT as u128 => Some(next),
            _ => None,
        },
        None => None,
    }
}
