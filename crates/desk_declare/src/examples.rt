//! Examples of the definitions in `specs/`: rows beside what they spell, worked out by hand. The check computes them, as the
//! contract of a function that does nothing.

ghost use Rattle.desk_declare.specs.Examples.Rows.{ByteExamples, FaultExamples, ReadExamples};

/// Each example holds.
pub fn examples_hold()
    ensures readings { ReadExamples }
    ensures faults { FaultExamples }
    ensures bytes { ByteExamples }
{}
