//! The texts of edits and of rows, read back.
#![tactic(auto)]

mod declaration;
mod edit_text;
mod edits;
pub mod examples;
mod exemption;
mod field;
mod field_fault;
mod fields;
mod items;
pub mod laws;
mod material;
mod row_fault;
mod row_text;
mod rows;
mod text_fault;

pub use edit_text::{is_edit_text, read_edit_text};
pub use row_fault::RowFault;
pub use row_text::read_row;
pub use text_fault::TextFault;
