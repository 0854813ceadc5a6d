//! Edits, as they come in JSON.
#![tactic(auto)]

mod edit_key;
pub mod examples;
mod from_json;
mod json_fault;
mod kinds;
mod ppm;
mod read;
mod rows;
mod shape_key;
mod shapes;
mod value_at;

pub use edit_key::EditKey;
pub use json_fault::JsonFault;
use ppm::Ppm;
pub use read::read_edit;
