/// How the serving of a stream ended.
#[derive(Clone, Copy, Debug, PartialEq, Eq)]
pub enum Served {
    /// The input ended between two requests, or a reply has closed the connection.
    Ended,
    /// The input ended inside a request.
    Cut,
    /// 1,099,511,627,776 bytes were read, and no reply has closed the connection. The requests in them are answered, and no more is
    /// read.
    TooLong,
    /// The link refused a call; it counted a fault. What was written is a beginning of the replies.
    LinkFault,
    /// There was no memory to begin with. Nothing was read or written.
    OutOfMemory,
}
