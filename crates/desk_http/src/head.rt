//! The head of a request, as the parser reads it.

ghost use Rattle.std.specs.Prelude.{◌≤◌, length};
ghost use Rattle.httparse.specs.Grammar.{RequestHead};
ghost use Rattle.httparse.specs.Spans.{IsRequestWithin, IsRequestAt, RequestOverflows};
ghost use Rattle.desk_http.specs.Limits.{head_limit, line_limit};
ghost use Rattle.desk_http.specs.Head.{Finds, IsHeadAt};

use crate::limits::{HEAD_BYTES, HEAD_LINES};
use crate::lines::{BodyLength, HeadLines};
use crate::method::{Method, method_named};
use crate::span::Span;
use httparse::spans::{EMPTY_HEADER_SPAN, HeaderSpan, RequestSpans, parse_request};
use httparse::{Error, Status};

/// As many lines as most heads have at most.
const USUAL_LINES: usize = 16;

/// More lines than a head within its bound can have: each takes three bytes or more.
const MOST_LINES: usize = HEAD_BYTES / 3;

/// What the desk reads of a head.
#[derive(Clone, Copy, Debug)]
pub(crate) struct Head {
    pub(crate) method: Method,
    pub(crate) target: Span,
    pub(crate) body: BodyLength,
    pub(crate) close: bool,
    /// How many bytes the head takes.
    pub(crate) len: usize,
}

/// What is found of a head at the front of some bytes.
#[derive(Clone, Copy, Debug)]
pub(crate) enum Found {
    Whole(Head),
    TooManyLines,
    Unfinished,
    Hopeless,
}

/// Looks for a head at the front of some bytes.
pub(crate) fn find_head(bytes: &[u8]) -> Found
    requires { length bytes.now ≤ head_limit }
    ensures { Finds bytes.now result }
{
    let mut lines = [EMPTY_HEADER_SPAN; USUAL_LINES];
    match parse_request(bytes, &mut lines) {
        Ok(Status::Complete(spans)) => Found::Whole(head_of(bytes, spans, &lines)),
        Ok(Status::Partial) => Found::Unfinished,
        Err(Error::TooManyHeaders) => find_long_head(bytes),
        Err(_) => Found::Hopeless,
    }
}

/// The same for a head with more lines than most have. Only here is there room for all lines that are allowed.
fn find_long_head(bytes: &[u8]) -> Found
    requires { length bytes.now ≤ head_limit }
    ensures { Finds bytes.now result }
{
    let mut lines = [EMPTY_HEADER_SPAN; HEAD_LINES];
    match parse_request(bytes, &mut lines) {
        Ok(Status::Complete(spans)) => Found::Whole(head_of(bytes, spans, &lines)),
        Ok(Status::Partial) => Found::Unfinished,
        Err(Error::TooManyHeaders) => find_crowded_head(bytes),
        Err(_) => Found::Hopeless,
    }
}

/// The same where a head has more lines than are allowed. To tell whether it is whole, unfinished or
/// hopeless takes room for all its lines, which is taken here alone.
#[cold]
#[inline(never)]
fn find_crowded_head(bytes: &[u8]) -> Found
    requires fits { length bytes.now ≤ head_limit }
    requires crowded { RequestOverflows line_limit bytes.now }
    ensures { Finds bytes.now result }
{
    let mut lines = [EMPTY_HEADER_SPAN; MOST_LINES];
    match parse_request(bytes, &mut lines) {
        Ok(Status::Complete(_)) => Found::TooManyLines,
        Ok(Status::Partial) => Found::Unfinished,
        Err(Error::TooManyHeaders) => unreachable!(),
        Err(_) => Found::Hopeless,
    }
}

/// What the desk reads of the head that the parser found.
fn head_of(bytes: &[u8], spans: RequestSpans, lines: &[HeaderSpan]) -> Head
    requires { IsRequestWithin bytes.now lines.now spans }
    ensures { (h : RequestHead) → IsRequestAt bytes.now lines.now spans h → IsHeadAt bytes.now result h }
{
    let lines = HeadLines::new(bytes, &lines[..spans.headers]);
    let method = method_named(spans.method.of(bytes));
    Head {
        method,
        target: Span {
            from: spans.path.start,
            to: spans.path.end,
        },
        body: lines.body_length(method),
        close: spans.version == 0 || lines.lists_close(),
        len: spans.len,
    }
}
