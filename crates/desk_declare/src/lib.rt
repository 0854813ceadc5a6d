//! Suppliers' declarations, as they come in comma-separated values.
#![tactic(auto)]

mod declare_fault;
pub mod examples;
mod fields;
mod read;
mod row;
mod rows;
mod text;

pub use declare_fault::DeclareFault;
pub use read::read_declaration;
