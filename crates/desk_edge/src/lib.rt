//! What isn't the desk's own, as traits whose contracts say what the desk relies on.
#![tactic(auto)]

mod change;
mod doors;
mod failed;
mod keep_fault;
mod keeper;
mod key;
mod laws;
mod lent;
mod link;
mod list_doors;
mod map_keeper;
mod map_shelf;
mod memory_link;
mod named;
mod record;
mod records;
mod shelf;
mod std_link;
mod tcp_doors;
mod tcp_link;
mod transfer;

pub use change::Change;
pub use doors::Doors;
pub use failed::Failed;
pub use keep_fault::KeepFault;
pub use keeper::Keeper;
pub use key::Key;
pub use laws::a_count_rises_up_to_its_last_value;
pub use lent::Lent;
pub use link::Link;
pub use list_doors::ListDoors;
pub use map_keeper::MapKeeper;
pub use map_shelf::MapShelf;
pub use memory_link::MemoryLink;
pub use record::Record;
pub use shelf::Shelf;
pub use std_link::StdLink;
pub use tcp_doors::TcpDoors;
pub use tcp_link::TcpLink;
pub use transfer::{ReadFault, read_up_to, write_all};
