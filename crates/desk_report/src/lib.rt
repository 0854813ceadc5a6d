//! The records of a desk as plain lines: the tables written as them, and an empty store filled from them.
#![tactic(auto)]

mod exporting;
mod fields;
mod good_lines;
mod importing;
mod line;
mod lines;
mod next_record;
mod reading;
mod report_fault;
mod table_records;

pub use exporting::export;
pub use importing::import;
pub use report_fault::ReportFault;
