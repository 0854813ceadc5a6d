//! What goes up a bill of materials and is kept by node: weights, marks with the way to each, and loads.
#![tactic(auto)]

mod changed_marks;
mod entry;
mod examples;
mod fault;
mod gathering;
mod hop;
mod hops;
mod laws;
mod load;
mod mark;
mod mending;
mod merge;
mod own;
mod places;
mod plan;
mod rolled;
mod roller;
mod rollups;
mod sweep;
mod values;
mod weights;

pub use examples::examples_hold;
pub use fault::RollFault;
pub use hop::Hop;
pub use hops::Hops;
pub use laws::{may_prepare_one, stays_lighter, stays_right};
pub use load::Load;
pub use mark::Mark;
pub use own::Own;
pub use plan::RollPlan;
pub use rolled::Rolled;
pub use rollups::Rollups;
