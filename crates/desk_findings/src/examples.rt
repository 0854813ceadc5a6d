//! Examples of the definitions in `specs/`: small desks beside values that were worked out by hand. The check computes them,
//! as the contract of a function that does nothing.

ghost use Rattle.desk_findings.specs.Examples.Articles.{CandidateExamples, DutyExamples, NoticeExamples};
ghost use Rattle.desk_findings.specs.Examples.Chains.{ChainExamples};
ghost use Rattle.desk_findings.specs.Examples.Gateway.{GatewayExamples};
ghost use Rattle.desk_findings.specs.Examples.Shares.{ShareExamples};

/// Each example holds.
pub fn examples_hold()
    ensures duties { DutyExamples }
    ensures notices { NoticeExamples }
    ensures candidates { CandidateExamples }
    ensures chains { ChainExamples }
    ensures gateway { GatewayExamples }
    ensures shares { ShareExamples }
{}
