use crate::method::Method;
use crate::span::Span;

/// Where the parts of a whole request lie in the buffer that it was taken from.
#[derive(Clone, Copy, Debug, PartialEq, Eq)]
pub struct Request {
    /// What the request asks to be done.
    pub method: Method,
    /// The target as it was sent: a path, and a query where there is one.
    pub target: Span,
    /// The body, which may be empty and has at most 65,536 bytes. The request ends with it.
    pub body: Span,
    /// The connection ends after the answer: the version is HTTP/1.0, or a `Connection` line lists `close`.
    pub close: bool,
    /// How many bytes the request takes. The next one begins there.
    pub used: usize,
}
