//! What stands between a desk's tables and what is stored of them: the bridge between codes and nodes, what each edit makes of the bill of
//! the tables, and the laws by which values that are stored by node are those of the tables.
#![tactic(auto)]

mod building;
pub mod examples;
mod holdings;
mod judging;
pub mod laws;
mod lines_after;
mod new_edit;
mod node_index;
mod own;
mod own_after;
mod planning;
mod pushing;
mod rows_after;
mod seed_nodes;
mod seeds;
mod tables_after;

pub use building::{IndexedBill, bill_of};
pub use judging::plan_bill;
pub use new_edit::NewEdit;
pub use node_index::{NodeIndex, NodeRow};
pub use own::own_of;
pub use own_after::{owns_after, owns_of_all};
pub use planning::{BillFault, plan_edit};
pub use tables_after::TablesAfter;
