/// A line of the bill by the places of its two ends among the nodes.
#[derive(Clone, Copy, Debug, PartialEq, Eq)]
pub(crate) struct Link {
    /// The place of the part that the line is of.
    pub(crate) parent: usize,
    /// The place of the material or part that it leads to.
    pub(crate) child: usize,
    /// How many of the child one of the parent holds.
    pub(crate) count: u32,
}
