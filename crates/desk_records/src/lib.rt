//! The tables as records that any store can keep: each row is one record, in one spelling.
#![tactic(auto)]

mod gather_fault;
mod gathered_records;
mod gathering;
pub mod laws;
mod new_records;
mod plan_records;
mod record_key;
mod record_limit;
mod row_record;
mod table_records;

pub use desk_fields::RowFault as RecordFault;
pub use gather_fault::GatherFault;
pub use gathered_records::GatheredRecords;
pub use gathering::{put_record, sound_tables};
pub use new_records::puts;
pub use plan_records::changes;
pub use record_key::{copied_key, into_key};
pub use record_limit::RECORD_LIMIT;
pub use row_record::{read_record, record_of_row, write_record};
pub use table_records::records_of;
