//! The tables of the desk: every edit is judged by the rules and made, exactly as the model defines.
#![tactic(auto)]

mod accept;
mod at_start;
mod bill_sound;
mod bill_sums;
mod changed_table;
mod changes;
mod content;
mod counts;
mod cycle;
mod declared;
mod edit_fault;
mod few_findings;
mod finding_counts;
mod findings;
mod found_part;
mod gather;
mod heavy_years;
mod judge;
mod limits;
mod lookups;
mod numbers_sound;
mod one_row;
mod plan;
mod plan_rows;
mod refuse;
mod row_change;
mod rows_sound;
mod rules;
mod share;
mod sound;
mod sound_fault;
mod start;
mod sums;
mod sums_sound;
mod table_lists;
mod tables;
mod ten_tables;
mod terms;
mod tested_row;
mod tested_rows;
mod ticket;
mod tickets_sound;

pub use desk_model::{
    CandidateRow, Codes, Count, DeclError, Declaration, Edit, Exemption, ExemptionRow, Factor,
    LineRow, ListOf, MaterialDecl, MaterialRow, MemberRow, PartRow, PartSort, ProductRow, Row,
    RuleFault, ShipmentRow, SubstanceMass, SubstanceRow, TicketRow, Units, Within, Year, count_of,
    factor_of, units_of, year_of,
};
pub use edit_fault::EditFault;
pub use findings::row_of;
pub use gather::Gathering;
pub use plan::TablesPlan;
pub use row_change::RowChange;
pub use sound_fault::SoundFault;
pub use table_lists::TableLists;
pub use tables::Tables;
