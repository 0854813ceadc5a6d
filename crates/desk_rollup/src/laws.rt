//! Laws of the definitions in `specs/`, each proved as the contract of a function that does nothing.

ghost use Rattle.desk_rollup.specs.Laws.{MayPrepareOne, StaysLighter, StaysRight};

/// Values that are right for a bill stay right by the children at each node whose lines an edit leaves as they are.
pub fn stays_right()
    ensures { StaysRight }
{}

/// Where no node has more of a substance of its own than it weighs, none carries more of it than it weighs.
pub fn stays_lighter()
    ensures { StaysLighter }
{}

/// An edit that changes one node asks for new own values of that node alone.
pub fn may_prepare_one()
    ensures { MayPrepareOne }
{}
