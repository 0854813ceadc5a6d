//! What holds of counts of faults. The function does nothing: it is called for its clauses alone.

ghost use Rattle.std.specs.Prelude.{◌↔◌, ℕ, ◌<◌, ◌≤◌};
ghost use Rattle.desk_edge.specs.Faults.{Rose, last_count};

/// Below its last value a count tells a fault exactly by rising. At its last value it stands, and each
/// call may have failed.
pub fn a_count_rises_up_to_its_last_value()
    ensures below { (old new : ℕ) → old < last_count → (Rose old new ↔ (old < new)) }
    ensures at_last { (new : ℕ) → last_count ≤ new → Rose last_count new }
{}
