//! The one writer over a store, and what readers look at meanwhile: an edit is kept in the store before it is published, and published
//! before it is answered.
#![tactic(auto)]

mod accepted;
mod board;
mod clerk;
mod desk_seat;
mod keeping;
pub mod laws;
mod open_fault;
mod open_refused;
mod opened;
mod opening;
mod publishing;
mod reading;
mod stored_desk;
mod submit_fault;

pub use accepted::Accepted;
pub use board::{DeskBoard, DeskState, absorb_into};
pub use clerk::Clerk;
pub use desk_seat::{DeskNews, DeskSeat};
pub use open_fault::OpenFault;
pub use open_refused::OpenRefused;
pub use opened::Opened;
pub use opening::start_engine;
pub use stored_desk::StoredDesk;
pub use submit_fault::SubmitFault;
