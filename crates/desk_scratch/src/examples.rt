//! Examples of the definitions in `specs/`: whole answers at small desks beside texts that were written by hand. The check
//! computes them, as the contract of a function that does nothing.

ghost use Rattle.desk_scratch.specs.Examples.Chains.{ChainAnswers};
ghost use Rattle.desk_scratch.specs.Examples.Duties.{DutyAnswers};
ghost use Rattle.desk_scratch.specs.Examples.Gateway.{GatewayAnswers};
ghost use Rattle.desk_scratch.specs.Examples.Notices.{NoticeAnswers};
ghost use Rattle.desk_scratch.specs.Examples.Sums.{SumAnswers};

/// Each example holds.
pub fn examples_hold()
    ensures chains { ChainAnswers }
    ensures duties { DutyAnswers }
    ensures notices { NoticeAnswers }
    ensures gateway { GatewayAnswers }
    ensures sums { SumAnswers }
{}
