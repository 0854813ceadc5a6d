//! Examples of the definitions in `specs/`: an ordinary desk beside values that were worked out by hand. The check computes them, as the
//! contract of a function that does nothing.

ghost use Rattle.desk_bridge.specs.Examples.{BridgeExamples, EditExamples, FindingExamples, LineExamples, OrderExamples, OwnExamples, RefusalExamples, RollUpExamples, YearExamples};

/// Each example holds.
pub fn examples_hold()
    ensures bridge { BridgeExamples }
    ensures findings { FindingExamples }
    ensures order { OrderExamples }
    ensures lines { LineExamples }
    ensures edits { EditExamples }
    ensures own { OwnExamples }
    ensures roll_ups { RollUpExamples }
    ensures years { YearExamples }
    ensures refusals { RefusalExamples }
{}
