ghost use Rattle.std.specs.Prelude.{◌≢◌};
ghost use Rattle.desk_http.specs.Reply.{allow_of};

use desk_http::{Fixed, Method, fixed_reply};
use desk_testing::expect_eq;
use desk_text::{Bytes, OutOfMemory};
use std::test::Fail;

/// The replies to a failing store and to want of memory, each once as it stays and once as it closes.
const FIXED: &str = "\
    HTTP/1.1 503 Service Unavailable\r\nContent-Type: text/plain; charset=utf-8\r\nContent-Length: 12\r\n\r\nstore-fault\n\
    HTTP/1.1 503 Service Unavailable\r\nContent-Type: text/plain; charset=utf-8\r\nContent-Length: 12\r\n\
    Connection: close\r\n\r\nstore-fault\n\
    HTTP/1.1 507 Insufficient Storage\r\nContent-Type: text/plain; charset=utf-8\r\nContent-Length: 7\r\n\r\nmemory\n\
    HTTP/1.1 507 Insufficient Storage\r\nContent-Type: text/plain; charset=utf-8\r\nContent-Length: 7\r\n\
    Connection: close\r\n\r\nmemory\n";

/// Appends the fixed reply that stays, and the one that closes.
fn append_fixed(reply: Fixed, out: &mut Bytes) -> Result<(), OutOfMemory>
    requires { allow_of reply ≢ Some Method.Other }
{
    out.push_all(fixed_reply(reply, false))?;
    out.push_all(fixed_reply(reply, true))
}

#[test]
fn replies_that_no_stream_can_ask_for_are_so(rt: HostRuntime) -> Result<(), Fail> {
    let mut written = Bytes::start(rt.alloc());
    append_fixed(Fixed::StoreFault, &mut written)?;
    append_fixed(Fixed::Memory, &mut written)?;
    expect_eq(&written.as_slice(), &FIXED.as_bytes())
}
