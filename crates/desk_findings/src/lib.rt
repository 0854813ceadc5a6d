//! What the desk's tables mean: shares and verdicts, what a part reaches, weighs and carries, its findings and duties, and the
//! notices of a year. All of it stands in `specs/`; the functions here carry its laws and examples.
#![tactic(auto)]

pub mod examples;
pub mod laws;
