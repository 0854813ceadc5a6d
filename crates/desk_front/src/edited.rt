use desk_scratch::AskFault;

/// How an edit was answered.
#[derive(Clone, Copy, Debug, PartialEq, Eq)]
pub enum Edited {
    /// It is accepted, now or before.
    Accepted,
    /// A rule refuses it.
    Refused,
}

/// Why an edit has no answer.
#[derive(Clone, Copy, Debug, PartialEq, Eq)]
pub enum EditFailed {
    /// The store failed to keep it; a fault was counted. The edit isn't made.
    KeeperFault,
    /// There was no memory. The edit may have been made.
    OutOfMemory,
}

/// Why a question has no answer.
#[derive(Clone, Copy, Debug, PartialEq, Eq)]
pub enum QuestionFault {
    /// There is none at the tables that were looked at, or there was no memory for it.
    Ask(AskFault),
    /// The seat wasn't let in. It may try again.
    NotEntered,
}
