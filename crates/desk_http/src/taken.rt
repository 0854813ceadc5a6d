ghost use Rattle.std.specs.Prelude.{◌≡◌};
ghost use Rattle.desk_http.specs.Front.{refusal_of};

use crate::fixed::Fixed;
use crate::request::Request;

/// What the front of a buffer is.
#[derive(Clone, Copy, Debug, PartialEq, Eq)]
pub enum Taken {
    /// A whole request, head and body.
    Whole(Request),
    /// Less than a request. More bytes may make it one. A target's text is tested at the target's end:
    /// a buffer that ends inside its target counts as less than a request whatever the target holds.
    NotYet,
    /// No bytes can follow that make it a request's head.
    BadHead,
    /// The head isn't finished within 8,192 bytes, or is finished and has more than 64 header lines.
    HeadTooLong,
    /// The head gives no length of its body: it has a `Transfer-Encoding` line, more than one
    /// `Content-Length` line or one whose value isn't digits alone, or is a POST with none.
    NoLength,
    /// The head gives its body a length over 65,536 bytes.
    BodyTooLong,
}

impl Taken {
    /// The refusal of a front that is no request and never will be, if it is one. Its reply closes the connection.
    pub fn refusal(&self) -> Option<Fixed>
        ensures { result ≡ refusal_of self.now }
    {
        match self {
            Taken::Whole(_) | Taken::NotYet => None,
            Taken::BadHead => Some(Fixed::BadHead),
            Taken::HeadTooLong => Some(Fixed::HeadTooLong),
            Taken::NoLength => Some(Fixed::LengthRequired),
            Taken::BodyTooLong => Some(Fixed::BodyTooLong),
        }
    }
}
