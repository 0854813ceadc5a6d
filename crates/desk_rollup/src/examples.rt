//! Examples of the definitions in `specs/`: small bills beside values that were worked out by hand. The check computes them,
//! as the contract of a function that does nothing.

ghost use Rattle.desk_rollup.specs.Examples.{DiamondExamples};

/// Each example holds.
pub fn examples_hold()
    ensures { DiamondExamples }
{}
