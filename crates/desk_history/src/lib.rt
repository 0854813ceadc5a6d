//! What edits do: which tables are sound, which edits are refused, what a step and a history are, and what an edit affects.
//! All of it stands in `specs/`; the functions here carry its laws and examples.
#![tactic(auto)]

pub mod examples;
pub mod laws;
