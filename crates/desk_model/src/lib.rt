//! The desk's model: the rows of its tables, edits and refusals, and in `specs/` what each question and edit means.
#![tactic(auto)]

mod decl_error;
mod declaration;
mod edit;
mod edit_form;
mod edit_text;
mod edit_word;
mod enter;
pub mod examples;
mod exemption;
pub mod laws;
pub mod limits;
mod list_of;
mod material_decl;
mod part_sort;
mod row;
mod row_code;
mod rows;
mod rule_fault;
mod spaced;
mod substance_mass;
mod table_name;
mod table_row;
pub mod text_laws;
mod within;

pub use decl_error::DeclError;
pub use declaration::Declaration;
pub use edit::Edit;
pub use edit_text::{push_claims, push_substances};
pub use edit_word::EditWord;
pub use exemption::Exemption;
pub use list_of::{Codes, ListOf};
pub use material_decl::MaterialDecl;
pub use part_sort::PartSort;
pub use row::Row;
pub use row_code::{code_bytes, pair_code};
pub use rows::{
    CandidateRow, ExemptionRow, LineRow, MaterialRow, MemberRow, PartRow, ProductRow, ShipmentRow,
    SubstanceRow, TicketRow,
};
pub use rule_fault::RuleFault;
pub use spaced::Spaced;
pub use substance_mass::SubstanceMass;
pub use table_name::TableName;
pub use table_row::TableRow;
pub use within::{Count, Factor, Units, Within, Year, count_of, factor_of, units_of, year_of};
