/// The number of a node of a bill: how many nodes the bill had before it.
pub type NodeId = u32;

/// One end of a line: the node at the other end, and how many of the child the parent takes.
#[derive(Clone, Copy, Debug, PartialEq, Eq)]
pub struct BillLine {
    /// The child of a line of a parent, or the parent of a line of a child.
    pub node: NodeId,
    /// How many of the child the parent takes.
    pub count: u32,
}
