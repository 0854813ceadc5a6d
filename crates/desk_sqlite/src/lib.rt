//! Stores of records in SQLite databases, which any tool for SQLite can read.
#![tactic(auto)]

mod ahead;
mod change;
mod commit;
mod file_keeper;
mod find;
mod form;
mod keeper;
mod look;
mod ready;
mod refusal;
mod shelf;

pub use file_keeper::FileKeeper;
pub use keeper::SqlKeeper;
pub use shelf::SqlShelf;
