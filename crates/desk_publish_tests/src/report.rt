/// What a test on threads found.
#[derive(Drop)]
pub struct Report {
    /// How many entries each seat saw at the end, at least.
    pub entries: u64,
    /// How many looks weren't let in.
    pub not_entered: u64,
    /// How many looks saw less than the seat had seen or learnt.
    pub fell: u64,
}
