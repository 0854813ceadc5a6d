/// An edit that was accepted, now or before.
#[derive(Clone, Copy, Debug, PartialEq, Eq)]
pub struct Accepted {
    /// The number of the edit: the kept one where it was accepted before.
    pub number: u64,
    /// The number of the tables that the clerk has now: how many edits it has accepted.
    pub whole: u64,
}
