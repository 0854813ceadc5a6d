//! What a connection hears whose calls fail, or whose edits the store doesn't keep: each of them in turn.

use crate::connections_tests::{DECLARED, served_by_book};
use crate::gateway_turns::{entered_count, entered_twice, first_entered};
use crate::session_steps::{console_of, outcome, push_reply, stream_of};
use crate::store_tests::shelf_of;
use desk_edge::{Link, MapKeeper};
use desk_front::Served;
use desk_testing::{check, expect_eq};
use std::alloc::Global;
use std::sync::Wait;
use std::test::Fail;
use std::thread::Threads;

/// More bytes than the replies of a connection have.
const ROOM: usize = 1_000_000;

/// More calls than a connection makes.
const CALLS: u64 = 10_000;

/// How many calls open a store: one that reads its records, and one that keeps the start tables.
const OPENING: u64 = 2;

const SESSION: [&str; 3] = ["session", "--store", "desk"];

/// How a new desk serves a connection that sends this stream by pieces of this length and fails at the call of this number, and what is
/// written on it.
fn served_at<R: Wait + Sync>(
    rt: &R,
    alloc: Global,
    stream: &str,
    piece: usize,
    call: u64,
) -> Result<(Served, Vec<u8>), Fail> {
    let mut link = console_of(alloc, stream.as_bytes(), piece, ROOM, &[call])?;
    let keeper = MapKeeper::new(Vec::new(alloc), Vec::new(alloc));
    let served = served_by_book(rt, alloc, keeper, &mut link)?;
    Ok((served, link.written().to_vec(alloc)?))
}

/// Whether the call of this number fails, and leaves a beginning of the replies; else the stream ends with all of them.
fn is_told_at<R: Wait + Sync>(
    rt: &R,
    alloc: Global,
    turns: &(String, String),
    piece: usize,
    call: u64,
) -> Result<bool, Fail> {
    let (stream, replies) = turns;
    let (served, written) = served_at(rt, alloc, stream, piece, call)?;
    let begins = replies.as_bytes().starts_with(written.as_slice());
    check(begins, "other replies")?;
    if served == Served::LinkFault {
        return Ok(true);
    }
    check(served == Served::Ended, "the stream did not end")?;
    check(written.len() == replies.len(), "too few replies")?;
    Ok(false)
}

/// How many calls of a connection that sends by pieces of this length fail in turn until one isn't made any more.
fn calls_that_fail<R: Wait + Sync>(rt: &R, alloc: Global, piece: usize) -> Result<u64, Fail> {
    let turns = stream_of(alloc, &DECLARED)?;
    for call in 1..CALLS {
        if !is_told_at(rt, alloc, &turns, piece, call)? {
            return Ok(call);
        }
    }
    Err(Fail::new("more calls than there are"))
}

/// Fails unless each call of a connection may fail, where it sends byte by byte and where it sends all at once.
fn may_each_fail<R: Wait + Sync>(rt: &R, alloc: Global) -> Result<(), Fail> {
    let (stream, _) = stream_of(alloc, &DECLARED)?;
    let calls = calls_that_fail(rt, alloc, 1)?;
    check(calls > stream.len() as u64, "fewer calls than bytes")?;
    // A read with all, a write of all replies, and a read that finds no more; a fourth call isn't made.
    expect_eq(&calls_that_fail(rt, alloc, 100_000)?, &4)
}

#[test]
fn each_call_of_a_connection_may_fail(rt: HostRuntime) -> Result<(), Fail> {
    may_each_fail(&rt, rt.alloc())
}

/// What a new desk replies to a connection that sends this stream, where its keeper fails at the calls of these numbers.
fn replies_to<R: Wait + Sync>(
    rt: &R,
    alloc: Global,
    stream: &str,
    failing: &[u64],
) -> Result<Vec<u8>, Fail> {
    let mut link = console_of(alloc, stream.as_bytes(), 100_000, ROOM, &[])?;
    let keeper = MapKeeper::new(Vec::new(alloc), failing.to_vec(alloc)?);
    let served = served_by_book(rt, alloc, keeper, &mut link)?;
    check(served == Served::Ended, "the stream did not end")?;
    Ok(link.written().to_vec(alloc)?)
}

/// What has to be replied where the edit of this place isn't kept: at its place that the store failed, and else what a desk replies to
/// which it isn't sent there.
fn replies_without<R: Wait + Sync>(rt: &R, alloc: Global, place: usize) -> Result<Vec<u8>, Fail> {
    let head = replies_to(rt, alloc, &first_entered(alloc, place)?, &[])?;
    let whole = replies_to(rt, alloc, &entered_twice(alloc, place)?, &[])?;
    let behind = whole.as_slice().strip_prefix(head.as_slice());
    let behind = behind.ok_or("other replies to the first requests")?;
    let mut fault = String::new(alloc);
    push_reply(&mut fault, "503 Service Unavailable", "store-fault\n")?;
    let mut wanted = head.as_slice().to_vec(alloc)?;
    wanted.extend_from_slice(fault.as_bytes())?;
    wanted.extend_from_slice(behind)?;
    Ok(wanted)
}

/// Fails unless the edit of this place, where its commit fails, leaves no trace, by a connection and by a session.
fn leaves_no_trace<R: Wait + Sync + Threads>(
    rt: &R,
    alloc: Global,
    place: usize,
) -> Result<(), Fail> {
    let wanted = replies_without(rt, alloc, place)?;
    let stream = entered_twice(alloc, entered_count())?;
    let call = OPENING.saturating_add(1).saturating_add(place as u64);
    let replied = replies_to(rt, alloc, &stream, &[call])?;
    check(replied.as_slice() == wanted.as_slice(), "a connection")?;
    let mut shelf = shelf_of(alloc, &[call])?;
    let session = outcome(rt, alloc, &SESSION, stream.as_bytes(), 100_000, &mut shelf)?;
    check(session.0 == 0, "the status of a session")?;
    check(session.1.as_slice() == wanted.as_slice(), "a session")
}

/// Fails unless each edit that enters the gateway may fail to be kept.
fn leave_no_trace<R: Wait + Sync + Threads>(rt: &R, alloc: Global) -> Result<(), Fail> {
    for place in 0..entered_count() {
        leaves_no_trace(rt, alloc, place)?;
    }
    Ok(())
}

#[test]
fn each_edit_that_is_not_kept_leaves_no_trace(rt: HostRuntime) -> Result<(), Fail> {
    leave_no_trace(&rt, rt.alloc())
}
