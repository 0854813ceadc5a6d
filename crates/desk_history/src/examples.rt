//! Examples of the definitions in `specs/`: small desks beside values that were worked out by hand. The check computes them,
//! as the contract of a function that does nothing.

ghost use Rattle.desk_history.specs.Examples.Affected.{AffectedExamples, HistoryExamples};
ghost use Rattle.desk_history.specs.Examples.Limits.{LimitExamples, TableLimitExamples};
ghost use Rattle.desk_history.specs.Examples.Refusals.{AcceptanceExamples, FirstExamples, OrderExamples, RefusalExamples};
ghost use Rattle.desk_history.specs.Examples.Sound.{SoundExamples};
ghost use Rattle.desk_history.specs.Examples.Tower.{TowerExamples};

/// Each example holds.
pub fn examples_hold()
    ensures histories { HistoryExamples }
    ensures affected { AffectedExamples }
    ensures limits { LimitExamples }
    ensures table_limits { TableLimitExamples }
    ensures refusals { RefusalExamples }
    ensures firsts { FirstExamples }
    ensures acceptances { AcceptanceExamples }
    ensures orders { OrderExamples }
    ensures sound { SoundExamples }
    ensures tower { TowerExamples }
{}
