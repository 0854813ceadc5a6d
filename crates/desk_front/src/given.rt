use crate::edited::Edited;
use desk_text::Bytes;

/// What an editor tells of an edit that it has answered.
#[derive(Drop)]
pub struct Given {
    /// The code of its ticket.
    pub code: Bytes,
    /// Its text.
    pub edit: Bytes,
    /// The number of the list that it was answered at.
    pub version: u64,
    /// How it was answered.
    pub answer: Edited,
}
