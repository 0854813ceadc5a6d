use crate::years::YearsPlan;
use desk_bridge::NodeRow;
use desk_graph::BillPlan;
use desk_model::{Codes, ListOf};
use desk_rollup::RollPlan;
use desk_rows::Room;

/// What one edit does to what is stored of the tables, made ready so that it needs no memory and isn't refused.
#[derive(Drop)]
pub struct StoredPlan {
    /// What it does to the bill.
    pub(crate) bill: BillPlan,
    /// The nodes that it adds.
    pub(crate) nodes: ListOf<NodeRow>,
    /// Room for them in the index.
    pub(crate) room: Room<NodeRow>,
    /// What it does to the roll-ups.
    pub(crate) rollups: RollPlan,
    /// The names of substances, where one is new.
    pub(crate) names: Option<Codes>,
    /// What it does to the years.
    pub(crate) years: YearsPlan,
}
