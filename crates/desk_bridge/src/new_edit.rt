use desk_model::Edit;
use desk_tables::{RowChange, Tables};

/// An edit at tables to which it is new, with what it does to their rows.
#[derive(Clone, Copy)]
pub struct NewEdit<'a> {
    /// The tables, before the edit.
    pub tables: &'a Tables,
    /// The edit.
    pub edit: &'a Edit,
    /// The rows that it puts in or takes out.
    pub change: &'a RowChange,
}
