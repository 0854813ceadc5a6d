ghost use Rattle.std.specs.Prelude.{◌≡◌, ◌++◌, codes, IsTrue, OnOk, OnErr};
ghost use Rattle.httparse.specs.Ascii.{crlf_bytes};
ghost use Rattle.desk_http.specs.Reply.{GrewTo, is_reply_status, fits_status, status_line, allow_line, close_line, reply};

use crate::method::Method;
use desk_text::{Bytes, OutOfMemory, push_u128};
use http::StatusCode;

/// Appends a reply to `out`, or leaves it as it was where memory runs out.
///
/// The status is one of the ten that the desk answers. 405 allows one of the two methods that the desk
/// knows, and no other status allows one. Where `close` is set, the reply says that the connection ends.
pub fn write_reply(
    status: StatusCode,
    body: &[u8],
    allow: Option<Method>,
    close: bool,
    out: &mut Bytes,
) -> Result<(), OutOfMemory>
    requires status { IsTrue (is_reply_status status) }
    requires allow { IsTrue (fits_status status allow) }
    ensures ok { OnOk result (out.new ≡ out.old ++ reply status body.now allow close) }
    ensures err { OnErr result (out.new ≡ out.old) }
{
    let len = out.len();
    match push_reply(status, body, allow, close, out) {
        Ok(()) => Ok(()),
        Err(fault) => {
            out.truncate(len);
            Err(fault)
        }
    }
}

/// Appends a reply, or a beginning of it where memory runs out.
#[tactic(auto, unfolding(crate::specs::Reply::reply, crate::specs::Reply::body_lines))]
fn push_reply(
    status: StatusCode,
    body: &[u8],
    allow: Option<Method>,
    close: bool,
    out: &mut Bytes,
) -> Result<(), OutOfMemory>
    requires status { IsTrue (is_reply_status status) }
    requires allow { IsTrue (fits_status status allow) }
    ensures ok { OnOk result (out.new ≡ out.old ++ reply status body.now allow close) }
    ensures err { OnErr result (GrewTo out.old out.new) }
{
    out.push_all(head_start(status).as_bytes())?;
    push_u128(out, body.len() as u128)?;
    out.push_all(head_rest(allow, close).as_bytes())?;
    out.push_all(body)
}

/// The text of a reply up to the length of its body.
macro_rules! head_start {
    ($status:literal) => {
        concat!(
            "HTTP/1.1 ", $status, "\r\n",
            "Content-Type: text/plain; charset=utf-8\r\n",
            "Content-Length: "
        )
    };
}

/// What a reply begins with, up to the length of its body. It is one text, as to write its pieces takes longer.
fn head_start(status: StatusCode) -> &'static str
    requires { IsTrue (is_reply_status status) }
    ensures { result.now ≡ status_line status ++ codes "Content-Type: text/plain; charset=utf-8" ++ crlf_bytes ++ codes "Content-Length: " }
{
    match status.as_u16() {
        200 => head_start!("200 OK"),
        400 => head_start!("400 Bad Request"),
        404 => head_start!("404 Not Found"),
        405 => head_start!("405 Method Not Allowed"),
        409 => head_start!("409 Conflict"),
        411 => head_start!("411 Length Required"),
        413 => head_start!("413 Payload Too Large"),
        431 => head_start!("431 Request Header Fields Too Large"),
        503 => head_start!("503 Service Unavailable"),
        507 => head_start!("507 Insufficient Storage"),
        _ => unreachable!(),
    }
}

/// What stands between the length of a reply's body and the body: the end of that line, the line that names the method allowed, the
/// line that says that the connection ends, and the empty line.
fn head_rest(allow: Option<Method>, close: bool) -> &'static str
    ensures { result.now ≡ crlf_bytes ++ allow_line allow ++ close_line close ++ crlf_bytes }
{
    match (allow, close) {
        (Some(Method::Get), false) => "\r\nAllow: GET\r\n\r\n",
        (Some(Method::Get), true) => "\r\nAllow: GET\r\nConnection: close\r\n\r\n",
        (Some(Method::Post), false) => "\r\nAllow: POST\r\n\r\n",
        (Some(Method::Post), true) => "\r\nAllow: POST\r\nConnection: close\r\n\r\n",
        (_, false) => "\r\n\r\n",
        (_, true) => "\r\nConnection: close\r\n\r\n",
    }
}
