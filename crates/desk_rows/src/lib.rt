//! Lists of rows in the order of their keys, each key once.
#![tactic(auto)]

mod keyed;
mod place;
mod room;
mod table;

pub use keyed::{Grouped, Keyed};
pub use place::{place_from_end, place_near, place_of_key, place_of_row, run_of};
pub use room::Room;
pub use table::Table;
