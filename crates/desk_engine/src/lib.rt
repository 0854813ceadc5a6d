//! What answers a desk's edits and questions: the tables, and beside them what is computed of them once, kept, and brought up to date by
//! each edit.
#![tactic(auto)]

mod chained;
mod commit;
mod engine;
mod masses;
mod names;
mod node_values;
mod nodes;
mod plan;
mod planning;
mod shipping;
mod source;
mod start;
mod stored;
mod stored_loads;
mod stored_plan;
mod stored_uses;
mod told;
mod uncounted;
mod years;

pub use engine::Engine;
pub use plan::Plan;
