ghost use Rattle.std.specs.Prelude.{◌≡◌};
ghost use Rattle.desk_model.specs.Terms.{breaks_annex, breaks_span, is_floor_over_cap};

use desk_law::Terms;

/// Whether the row's last day is before its first, or its floor is greater than its cap.
pub(crate) fn breaks_span(terms: &Terms) -> bool
    ensures { result ≡ breaks_span terms.now }
{
    !(terms.first <= terms.last) || is_floor_over_cap(terms.floor, terms.cap)
}

/// Whether there are a floor and a cap, and the floor is the greater.
fn is_floor_over_cap(floor: Option<u32>, cap: Option<u32>) -> bool
    ensures { result ≡ is_floor_over_cap floor cap }
{
    match (floor, cap) {
        (Some(floor), Some(cap)) => cap < floor,
        _ => false,
    }
}

/// Whether the row names a kind of equipment that its annex isn't for.
pub(crate) fn breaks_annex(terms: &Terms) -> bool
    ensures { result ≡ breaks_annex terms.now }
{
    // The call does nothing but say that the set of kinds stands in order.
    terms.kinds.is_empty();
    !terms.kinds.is_subset(&terms.annex.kinds())
}
