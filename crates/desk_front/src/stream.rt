ghost use Rattle.std.specs.Prelude.{◌≡◌, ◌≢◌, ◌≤◌, ℕ, List, [], length, OnErr, OnOk};
ghost use Rattle.std.specs.Io.KnownBytes.{Consumes};
ghost use Rattle.desk_edge.specs.Faults.{CountsFaults};
ghost use Rattle.desk_http.specs.Taken.{IsTakenFrom, message_of};
ghost use Rattle.desk_front.specs.Served.{Serves, end_served, stream_limit};
ghost use Rattle.desk_front.specs.Service.{BeginsSo, BreaksOff, GoesSo, LeavesSo, Replies, Sends, service};

use crate::answerer::Answerer;
use crate::outbox::{flush, flush_if_many, say, say_now};
use crate::read_buffer::ReadBuffer;
use crate::request_outcome::RequestOutcome;
use crate::round_outcome::RoundOutcome;
use crate::served::Served;
use desk_edge::{Failed, Link};
use desk_http::{Request, Taken, fixed_reply, take_request};
use desk_text::Bytes;
use std::alloc::Global;
use std::sync::Wait;

/// The most bytes that are read of a stream.
const STREAM_BYTES: usize = 1_099_511_627_776;

/// Serves a stream: each of its requests is answered, in order, as soon as it is whole. Replies that are ready are written together,
/// and before the link is asked for more.
pub(crate) fn serve<R: Wait + Sync, L: Link, A: Answerer>(
    rt: &R,
    alloc: Global,
    link: &mut L,
    answerer: &mut A,
) -> Served
    ensures served { result ≢ Served.OutOfMemory → (bytes : List ℕ) × Consumes (L.unread link.old) (L.unread link.new) bytes × (length bytes ≤ stream_limit)
        × Serves (λ requests said. Replies A.replies answerer.old requests said answerer.new) result bytes
        (L.unread link.new) (L.written link.old) (L.written link.new) }
    ensures nothing { result ≡ Served.OutOfMemory → (answerer.new ≡ answerer.old) × (link.new ≡ link.old) }
    ensures faults { CountsFaults (result ≡ Served.LinkFault) (L.faults link.old) (L.faults link.new) }
{
    match ReadBuffer::new(alloc) {
        Ok(held) => serve_held(rt, alloc, link, answerer, held),
        Err(_) => Served::OutOfMemory,
    }
}

/// Serves a stream of which nothing was read.
fn serve_held<R: Wait + Sync, L: Link, A: Answerer>(
    rt: &R,
    alloc: Global,
    link: &mut L,
    answerer: &mut A,
    held: ReadBuffer,
) -> Served
    requires { held ≡ [] }
    ensures memory { result ≢ Served.OutOfMemory }
    ensures served { (bytes : List ℕ) × Consumes (L.unread link.old) (L.unread link.new) bytes × (length bytes ≤ stream_limit)
        × Serves (λ requests said. Replies A.replies answerer.old requests said answerer.new) result bytes
        (L.unread link.new) (L.written link.old) (L.written link.new) }
    ensures faults { CountsFaults (result ≡ Served.LinkFault) (L.faults link.old) (L.faults link.new) }
{
    let mut held = held;
    let mut waiting = Bytes::start(alloc);
    let mut left = STREAM_BYTES;
    'reads: while left > 0 {
        let most = held.room().min(left);
        let count = match held.read_from(link, most) {
            Ok(count) => count,
            Err(_) => return Served::LinkFault,
        };
        if count == 0 {
            return end_of(&held);
        }
        left -= count;
        match answer_held(rt, alloc, link, answerer, &mut held, &mut waiting) {
            RoundOutcome::Open(_) => {}
            RoundOutcome::Over => return Served::Ended,
            RoundOutcome::LinkFault => return Served::LinkFault,
        }
    }
    Served::TooLong
}

/// How a stream ends whose input is at its end, where these bytes are left of it.
fn end_of(held: &ReadBuffer) -> Served
    ensures { result ≡ end_served held.now }
{
    if held.as_slice().is_empty() {
        Served::Ended
    } else {
        Served::Cut
    }
}

/// Answers all whole requests that are held, writes the replies, and takes the requests out.
fn answer_held<R: Wait + Sync, L: Link, A: Answerer>(
    rt: &R,
    alloc: Global,
    link: &mut L,
    answerer: &mut A,
    held: &mut ReadBuffer,
    waiting: &mut Bytes,
) -> RoundOutcome
    ensures goes { LeavesSo A.replies held.old held.new (service answerer.old waiting.old (L.written link.old) (L.faults link.old))
        (service answerer.new waiting.new (L.written link.new) (L.faults link.new)) result }
    ensures input_stays { L.unread link.new ≡ L.unread link.old }
{
    match answer_all(rt, alloc, link, answerer, held.as_slice(), waiting) {
        RoundOutcome::Open(used) => match flush(link, waiting) {
            Ok(()) => {
                held.drop_front(used);
                RoundOutcome::Open(used)
            }
            Err(_) => RoundOutcome::LinkFault,
        },
        RoundOutcome::Over => match flush(link, waiting) {
            Ok(()) => RoundOutcome::Over,
            Err(_) => RoundOutcome::LinkFault,
        },
        RoundOutcome::LinkFault => RoundOutcome::LinkFault,
    }
}

/// Answers all whole requests at the front of the bytes.
fn answer_all<R: Wait + Sync, L: Link, A: Answerer>(
    rt: &R,
    alloc: Global,
    link: &mut L,
    answerer: &mut A,
    bytes: &[u8],
    waiting: &mut Bytes,
) -> RoundOutcome
    ensures goes { GoesSo A.replies bytes.now (service answerer.old waiting.old (L.written link.old) (L.faults link.old))
        (service answerer.new waiting.new (L.written link.new) (L.faults link.new)) result }
    ensures input_stays { L.unread link.new ≡ L.unread link.old }
{
    let mut used = 0;
    'requests: loop {
        match answer_first(rt, alloc, link, answerer, bytes.split_at(used).1, waiting) {
            RequestOutcome::Took(count) => used += count,
            RequestOutcome::NotYet => return RoundOutcome::Open(used),
            RequestOutcome::Over => return RoundOutcome::Over,
            RequestOutcome::LinkFault => return RoundOutcome::LinkFault,
        }
    }
}

/// Answers the request at the front of the bytes, or says why there is none.
fn answer_first<R: Wait + Sync, L: Link, A: Answerer>(
    rt: &R,
    alloc: Global,
    link: &mut L,
    answerer: &mut A,
    bytes: &[u8],
    waiting: &mut Bytes,
) -> RequestOutcome
    ensures begins { BeginsSo A.replies bytes.now (service answerer.old waiting.old (L.written link.old) (L.faults link.old))
        (service answerer.new waiting.new (L.written link.new) (L.faults link.new)) result }
    ensures input_stays { L.unread link.new ≡ L.unread link.old }
{
    let taken = take_request(bytes);
    if let Taken::Whole(request) = &taken {
        return answer_whole(rt, alloc, link, answerer, bytes, request, waiting);
    }
    let Some(refusal) = taken.refusal() else {
        return RequestOutcome::NotYet;
    };
    match say_now(link, waiting, fixed_reply(refusal, true)) {
        Ok(()) => RequestOutcome::Over,
        Err(_) => RequestOutcome::LinkFault,
    }
}

/// Answers a whole request that was taken from the front of the bytes.
fn answer_whole<R: Wait + Sync, L: Link, A: Answerer>(
    rt: &R,
    alloc: Global,
    link: &mut L,
    answerer: &mut A,
    bytes: &[u8],
    request: &Request,
    waiting: &mut Bytes,
) -> RequestOutcome
    requires { IsTakenFrom bytes.now request.now }
    ensures begins { BeginsSo A.replies bytes.now (service answerer.old waiting.old (L.written link.old) (L.faults link.old))
        (service answerer.new waiting.new (L.written link.new) (L.faults link.new)) result }
    ensures input_stays { L.unread link.new ≡ L.unread link.old }
{
    match answer_request(rt, alloc, link, answerer, bytes, request, waiting) {
        Ok(()) if request.close => RequestOutcome::Over,
        Ok(()) => RequestOutcome::Took(request.used),
        Err(_) => RequestOutcome::LinkFault,
    }
}

/// Answers a request. The reply may wait.
fn answer_request<R: Wait + Sync, L: Link, A: Answerer>(
    rt: &R,
    alloc: Global,
    link: &mut L,
    answerer: &mut A,
    bytes: &[u8],
    request: &Request,
    waiting: &mut Bytes,
) -> Result<(), Failed>
    requires { IsTakenFrom bytes.now request.now }
    ensures ok { OnOk result ((said : List ℕ) × A.replies answerer.old (message_of bytes.now request.now) said answerer.new
        × Sends (record { waiting = waiting.old; written = L.written link.old; faults = L.faults link.old }) said
        (record { waiting = waiting.new; written = L.written link.new; faults = L.faults link.new })) }
    ensures err { OnErr result ((said : List ℕ) × A.replies answerer.old (message_of bytes.now request.now) said answerer.new
        × BreaksOff (record { waiting = waiting.old; written = L.written link.old; faults = L.faults link.old }) said
        (record { waiting = waiting.new; written = L.written link.new; faults = L.faults link.new })) }
    ensures input_stays { L.unread link.new ≡ L.unread link.old }
{
    match answerer.reply(rt, alloc, bytes, request, waiting) {
        Ok(()) => flush_if_many(link, waiting),
        Err(fixed) => say(link, waiting, fixed_reply(fixed, request.close)),
    }
}
