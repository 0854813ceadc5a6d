//! Examples of the texts of rows beside values that were worked out by hand. The check computes them, as the contract of a
//! function that does nothing.

ghost use Rattle.desk_fields.specs.Examples.{RowTextExamples};

/// Each example holds.
pub fn examples_hold()
    ensures { RowTextExamples }
{}
