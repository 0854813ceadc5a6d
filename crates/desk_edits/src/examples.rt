//! Examples of the definitions in `specs/`: bytes beside the edits that they are, worked out by hand. The check computes them, as the
//! contract of a function that does nothing.

ghost use Rattle.desk_edits.specs.Examples.{FaultExamples, WordExamples};

/// Each example holds.
pub fn examples_hold()
    ensures words { WordExamples }
    ensures faults { FaultExamples }
{}
