//! Sessions over a console that fails.

use crate::session_steps::{outcome_with_faults, push_reply};
use desk_testing::expect_eq;
use std::alloc::Global;
use std::sync::Wait;
use std::test::Fail;
use std::thread::Threads;

const SESSION: &[&str] = &["session"];

/// Appends so many requests for the version, and their replies.
fn push_versions(stream: &mut String, replies: &mut String, count: u16) -> Result<(), Fail> {
    for _ in 0..count {
        stream.push_str("GET /version HTTP/1.1\r\n\r\n")?;
        push_reply(replies, "200 OK", "version 0\n")?;
    }
    Ok(())
}

/// So many requests for the version, and their replies.
fn versions(alloc: Global, count: u16) -> Result<(String, String), Fail> {
    let mut stream = String::new(alloc);
    let mut replies = String::new(alloc);
    push_versions(&mut stream, &mut replies, count)?;
    Ok((stream, replies))
}

/// Whether a session for two versions ends with this status where its console fails at a call, and wrote a beginning of the replies.
fn is_unheard<R: Wait + Sync + Threads>(
    rt: &R,
    alloc: Global,
    piece: usize,
    call: u64,
    ended: u8,
) -> Result<bool, Fail> {
    let (stream, replies) = versions(alloc, 2)?;
    let (status, written) = outcome_with_faults(
        rt,
        alloc,
        SESSION,
        stream.as_bytes(),
        piece,
        &[call],
    )?;
    Ok(status == ended && replies.as_bytes().starts_with(written.as_slice()))
}

/// The first call up to one past so many whose failure ends a session otherwise: with status 3 and a beginning of the replies, and
/// with 0 past them.
fn first_unheard<R: Wait + Sync + Threads>(
    rt: &R,
    alloc: Global,
    piece: usize,
    calls: u64,
) -> Result<Option<u64>, Fail> {
    for call in 1..=calls.saturating_add(1) {
        let status = if call <= calls { 3 } else { 0 };
        if !is_unheard(rt, alloc, piece, call, status)? {
            return Ok(Some(call));
        }
    }
    Ok(None)
}

#[test]
fn a_failing_call_of_the_console_ends_with_status_3(rt: HostRuntime) -> Result<(), Fail> {
    // One read, one write, and the read that finds the end; by single bytes, 50 reads and two writes before it.
    let at_once = first_unheard(&rt, rt.alloc(), 100_000, 3)?;
    let by_bytes = first_unheard(&rt, rt.alloc(), 1, 53)?;
    expect_eq(&(at_once, by_bytes), &(None, None))
}
