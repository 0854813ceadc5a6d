//! The bill of materials as a graph of named nodes, which keeps an order of its nodes in which children come first.
#![tactic(auto)]

mod bill;
mod bill_plan;
mod bill_view;
mod chain;
mod fault;
mod label;
mod line;
mod line_list;
mod memory;
mod node_order;
mod order_after;
mod path;
mod plan;
mod planned_bill;
mod planning;
mod steps;
mod sweep;
mod users;

pub use bill::Bill;
pub use bill_plan::BillPlan;
pub use bill_view::BillView;
pub use fault::{LineFault, NodeFault, PlanFault};
pub use line::{BillLine, NodeId};
pub use memory::OutOfMemory;
pub use path::Path;
pub use planned_bill::PlannedBill;
pub use steps::Steps;
