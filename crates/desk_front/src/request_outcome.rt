/// What came of the request at the front of some bytes.
#[derive(Clone, Copy, Debug, PartialEq, Eq)]
pub(crate) enum RequestOutcome {
    /// It is answered, and takes so many of them.
    Took(usize),
    /// There is no whole request yet.
    NotYet,
    /// The connection is closed: the request has asked for it and is answered, or what stands there is refused.
    Over,
    /// The link refused to take a reply.
    LinkFault,
}
