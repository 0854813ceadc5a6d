//! One connection served whole: every request of a byte stream is answered from the desk, in order.
#![tactic(auto)]

mod alone;
mod answerer;
mod asking;
mod clerk_book;
mod connection;
mod desk_edit;
mod desk_seat;
mod edited;
mod editor;
mod given;
pub mod laws;
mod link;
mod linked;
mod locked_clerk;
mod outbox;
mod read_buffer;
mod request_outcome;
mod round_outcome;
mod seat;
mod served;
mod stream;
mod wording;
mod working;

pub use alone::serve_alone;
pub use asking::answer_question;
pub use clerk_book::ClerkBook;
pub use desk_edit::answer_edit;
pub use edited::{EditFailed, Edited, QuestionFault};
pub use editor::Editor;
pub use given::Given;
pub use link::serve_link;
pub use locked_clerk::LockedClerk;
pub use seat::Seat;
pub use served::Served;
pub use working::{Worked, work};
