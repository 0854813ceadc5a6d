ghost use Rattle.std.specs.Prelude.{◌≡◌, ℕ, ◌≤◌, List, length};
ghost use Rattle.httparse.specs.Grammar.{RequestHead, ReadsRequest};
ghost use Rattle.desk_http.specs.Limits.{head_limit, line_limit};
ghost use Rattle.desk_http.specs.Head.{IsHeadAt};
ghost use Rattle.desk_http.specs.Rest.{front};
ghost use Rattle.desk_http.specs.Taken.{Takes};

use crate::head::{Found, Head, find_head};
use crate::limits::HEAD_BYTES;
use crate::lines::BodyLength;
use crate::request::Request;
use crate::span::Span;
use crate::taken::Taken;

/// Takes the request at the front of a buffer, or says why there is none.
///
/// It takes no memory. What it says of a buffer it says of every longer one that begins so, but for
/// `NotYet`: then the caller reads more and asks again. Each call reads the head anew, so a caller does
/// well to read all that has come before it asks.
pub fn take_request(buffer: &[u8]) -> Taken
    ensures { Takes buffer.now result }
{
    match find_head(front_of(buffer)) {
        Found::Whole(head) => take_body(buffer, head),
        Found::TooManyLines => Taken::HeadTooLong,
        Found::Unfinished if buffer.len() < HEAD_BYTES => Taken::NotYet,
        Found::Unfinished => Taken::HeadTooLong,
        Found::Hopeless => Taken::BadHead,
    }
}

/// The bytes that a head has to lie in.
fn front_of(buffer: &[u8]) -> &[u8]
    ensures front { result.now ≡ front buffer.now }
    ensures bound { length result.now ≤ head_limit }
{
    &buffer[..HEAD_BYTES.min(buffer.len())]
}

/// The request that a head at the front of the buffer begins, or what it lacks.
fn take_body(buffer: &[u8], head: Head) -> Taken
    requires { (h : RequestHead) × (after : List ℕ) × ReadsRequest (front buffer.now) h after
        × (length h.fields ≤ line_limit) × IsHeadAt (front buffer.now) head h }
    ensures { Takes buffer.now result }
{
    let length = match head.body {
        BodyLength::Missing => return Taken::NoLength,
        BodyLength::TooLong => return Taken::BodyTooLong,
        BodyLength::Known(length) => length,
    };
    if buffer.len() - head.len < length {
        return Taken::NotYet;
    }
    let used = head.len + length;
    Taken::Whole(Request {
        method: head.method,
        target: head.target,
        body: Span {
            from: head.len,
            to: used,
        },
        close: head.close,
        used,
    })
}
