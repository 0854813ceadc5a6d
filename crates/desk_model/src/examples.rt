//! Examples of the definitions in `specs/`: small desks beside values that were worked out by hand. The check computes them,
//! as the contract of a function that does nothing.

ghost use Rattle.desk_model.specs.Examples.Effects.{EntryExamples, ReplacementExamples};
ghost use Rattle.desk_model.specs.Examples.Forms.{ContentExamples, EditExamples, RangeExamples, RowExamples};
ghost use Rattle.desk_model.specs.Examples.Texts.{StartExamples, TextExamples};

/// Each example holds.
pub fn examples_hold()
    ensures entries { EntryExamples }
    ensures replacements { ReplacementExamples }
    ensures ranges { RangeExamples }
    ensures contents { ContentExamples }
    ensures rows { RowExamples }
    ensures edits { EditExamples }
    ensures texts { TextExamples }
    ensures starts { StartExamples }
{}
