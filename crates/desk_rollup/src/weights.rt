ghost use Rattle.std.specs.Prelude.{◌≡◌, ◌+◌, ◌*◌, ◌<◌, ◌^◌, ℕ, true};
ghost use Rattle.desk_graph.specs.Graph.{has_line};
ghost use Rattle.desk_rollup.specs.Places.{place_at};
ghost use Rattle.desk_rollup.specs.Weights.{IsKnownWeight, fitting, known_weight, weighed, with_child};

use crate::places::Places;
use crate::rolled::Rolled;
use desk_graph::{BillLine, NodeId};

/// The weight of a node by its own and by those of its children, unless it is 2^128 or more.
pub fn weigh(
    own: u128,
    lines: &[BillLine],
    places: &Places,
    kept: &[Rolled],
    new: &[Option<u128>],
) -> Option<u128>
    requires { (child : ℕ) → has_line lines.now child ≡ true → IsKnownWeight (place_at places.now child) kept.now new.now child }
    ensures value { result ≡ weighed (λ child. known_weight (place_at places.now child) kept.now new.now child) own lines.now }
    ensures own { own < 2 ^ 128 }
{
    let mut sum = Some(own);
    for line in lines {
        sum = with_line(sum, line.count, known_weight(places, kept, new, line.node));
    }
    sum
}

/// The sum together with so many of a child, unless it is 2^128 or more.
fn with_line(sum: Option<u128>, count: u32, child: Option<u128>) -> Option<u128>
    ensures { result ≡ with_child sum count child }
{
    let sum = sum?;
    if count == 0 {
        return Some(sum);
    }
    with_more(sum, count, child?)
}

/// The sum together with so many of a weight, unless it is 2^128 or more.
pub fn with_more(sum: u128, count: u32, weight: u128) -> Option<u128>
    ensures { result ≡ fitting (sum + count * weight) }
{
    let more = u128::from(count).checked_mul(weight)?;
    sum.checked_add(more)
}

/// The weight of a node: the new one at its place, or the one that is kept of it.
fn known_weight(
    places: &Places,
    kept: &[Rolled],
    new: &[Option<u128>],
    node: NodeId,
) -> Option<u128>
    requires { IsKnownWeight (place_at places.now node) kept.now new.now node }
    ensures { result ≡ known_weight (place_at places.now node) kept.now new.now node }
{
    match places.place_of(node) {
        Some(place) => new[place],
        None => {
            let values = &kept[node as usize];
            Some(values.weight)
        }
    }
}
