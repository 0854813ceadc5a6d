ghost use Rattle.std.specs.Prelude.{◌≡◌, ◌≢◌};
ghost use Rattle.desk_http.specs.Reply.{allow_of, fixed_reply};

use crate::method::Method;

/// A refusal whose body is one fixed word.
#[derive(Clone, Copy, Debug, PartialEq, Eq)]
pub enum Fixed {
    /// 400: no bytes can follow that make a head.
    BadHead,
    /// 411: the head gives no length of its body.
    LengthRequired,
    /// 413: the body is longer than 65,536 bytes.
    BodyTooLong,
    /// 431: the head isn't finished within 8,192 bytes, or has more than 64 header lines.
    HeadTooLong,
    /// 404: there is no such path.
    NoRoute,
    /// 405: the path takes another method.
    WrongMethod {
        /// The method that it takes.
        allow: Method,
    },
    /// 503: the store failed.
    StoreFault,
    /// 507: memory ran out.
    Memory,
}

/// The text of a reply, with and without the line that closes the connection.
macro_rules! reply_text {
    ($close:expr, $status:literal, $length:literal, $allow:literal, $body:literal) => {
        if $close {
            concat!(
                "HTTP/1.1 ", $status, "\r\n",
                "Content-Type: text/plain; charset=utf-8\r\n",
                "Content-Length: ", $length, "\r\n",
                $allow,
                "Connection: close\r\n",
                "\r\n",
                $body
            )
            .as_bytes()
        } else {
            concat!(
                "HTTP/1.1 ", $status, "\r\n",
                "Content-Type: text/plain; charset=utf-8\r\n",
                "Content-Length: ", $length, "\r\n",
                $allow,
                "\r\n",
                $body
            )
            .as_bytes()
        }
    };
}

/// The bytes of a refusal's reply, without memory: those that `write_reply` writes for its status,
/// its body and the method that it allows, which is one of the two that the desk knows.
pub fn fixed_reply(reply: Fixed, close: bool) -> &'static [u8]
    requires { allow_of reply ≢ Some Method.Other }
    ensures { result.now ≡ fixed_reply reply close }
{
    match reply {
        Fixed::BadHead => reply_text!(close, "400 Bad Request", "9", "", "bad-head\n"),
        Fixed::LengthRequired => {
            reply_text!(close, "411 Length Required", "16", "", "length-required\n")
        }
        Fixed::BodyTooLong => {
            reply_text!(close, "413 Payload Too Large", "14", "", "body-too-long\n")
        }
        Fixed::HeadTooLong => reply_text!(
            close,
            "431 Request Header Fields Too Large",
            "14",
            "",
            "head-too-long\n"
        ),
        Fixed::NoRoute => reply_text!(close, "404 Not Found", "9", "", "no-route\n"),
        Fixed::WrongMethod { allow: Method::Get } => reply_text!(
            close,
            "405 Method Not Allowed",
            "13",
            "Allow: GET\r\n",
            "wrong-method\n"
        ),
        Fixed::WrongMethod {
            allow: Method::Post,
        } => reply_text!(
            close,
            "405 Method Not Allowed",
            "13",
            "Allow: POST\r\n",
            "wrong-method\n"
        ),
        Fixed::WrongMethod {
            allow: Method::Other,
        } => unreachable!(),
        Fixed::StoreFault => {
            reply_text!(close, "503 Service Unavailable", "12", "", "store-fault\n")
        }
        Fixed::Memory => reply_text!(close, "507 Insufficient Storage", "7", "", "memory\n"),
    }
}
