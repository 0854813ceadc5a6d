//! The law on restricted substances in electrical equipment: kinds, rules, limits, first days, exemptions, verdicts.
#![tactic(auto)]

mod annex;
mod claim;
mod exemption;
mod first_days;
mod judgement;
mod kind;
mod kind_on_day;
mod kind_set;
pub mod laws;
mod limit;
mod restriction;
mod rule;
mod terms;
mod verdict;

pub use annex::Annex;
pub use claim::Claim;
pub use exemption::covers;
pub use first_days::in_force;
pub use judgement::{judge, judge_by};
pub use kind::Kind;
pub use kind_on_day::KindOnDay;
pub use kind_set::KindSet;
pub use limit::{limit_ppm, over};
pub use restriction::Restriction;
pub use rule::Rule;
pub use terms::Terms;
pub use verdict::Verdict;
