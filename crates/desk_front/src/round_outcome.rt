/// What came of all bytes that are held of a stream.
#[derive(Clone, Copy, Debug, PartialEq, Eq)]
pub(crate) enum RoundOutcome {
    /// So many of them are used, and the stream goes on.
    Open(usize),
    /// The connection is closed.
    Over,
    /// The link refused to take a reply.
    LinkFault,
}
