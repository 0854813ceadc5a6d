//! The tests of the model, of what is read into it, and of what a bill comes to: `desk_model`,
//! `desk_fields`, `desk_edits` and `desk_totals`, each through what it gives to others, as far as the
//! program doesn't show it: that stands in `tests/cases`. The files of a crate begin with its name.
#![tactic(auto)]

#[cfg(test)]
mod edits;
#[cfg(test)]
mod fields;
#[cfg(test)]
mod model;
#[cfg(test)]
mod model_copy;
#[cfg(test)]
mod model_helpers;
#[cfg(test)]
mod model_refusal;
#[cfg(test)]
mod totals;
