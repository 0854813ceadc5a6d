use crate::board::DeskBoard;
use crate::clerk::Clerk;
use crate::desk_seat::DeskSeat;
use desk_edge::Keeper;
use desk_publish::Naming;

/// A desk that was opened: its one writer, and the seats of its readers.
pub struct Opened<K: Keeper, J: Naming<DeskBoard>> {
    /// The writer.
    pub clerk: Clerk<K, J>,
    /// The seats.
    pub seats: Vec<DeskSeat<J>>,
}
