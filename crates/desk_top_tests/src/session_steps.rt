//! Steps of the tests of sessions.

use desk_edge::{Doors, Link, ListDoors, MapShelf, MemoryLink, Shelf};
use desk_text::Bytes;
use desk_top::run;
use std::alloc::Global;
use std::fmt::Write;
use std::sync::Wait;
use std::test::Fail;
use std::thread::Threads;

/// More bytes than the replies of a test have.
const ROOM: usize = 1_000_000;

/// A request and its reply.
#[derive(Clone, Copy)]
pub(crate) struct Turn {
    /// The method, the target and, behind a space, the body.
    pub ask: &'static str,
    /// The status and its phrase.
    pub status: &'static str,
    /// The body of the reply.
    pub said: &'static str,
}

/// Appends a request of a method, a target and, behind a space, a body, as it stands in a stream.
pub(crate) fn push_request(stream: &mut String, ask: &str) -> Result<(), Fail> {
    let mut words = ask.splitn(3, ' ');
    let method = words.next().unwrap_or("");
    let target = words.next().unwrap_or("");
    let body = words.next().unwrap_or("");
    let length = body.len();
    write!(
        stream,
        "{method} {target} HTTP/1.1\r\nContent-Length: {length}\r\n\r\n{body}"
    )?;
    Ok(())
}

/// Appends a reply, as it stands in what is written.
pub(crate) fn push_reply(written: &mut String, status: &str, said: &str) -> Result<(), Fail> {
    let length = said.len();
    write!(
        written,
        "HTTP/1.1 {status}\r\nContent-Type: text/plain; charset=utf-8\r\nContent-Length: {length}\r\n\r\n{said}"
    )?;
    Ok(())
}

/// Appends the requests of these turns, and their replies.
fn push_turns(stream: &mut String, replies: &mut String, turns: &[Turn]) -> Result<(), Fail> {
    for turn in turns {
        push_request(stream, turn.ask)?;
        push_reply(replies, turn.status, turn.said)?;
    }
    Ok(())
}

/// The requests of these turns, and their replies.
pub(crate) fn stream_of(alloc: Global, turns: &[Turn]) -> Result<(String, String), Fail> {
    let mut stream = String::new(alloc);
    let mut replies = String::new(alloc);
    push_turns(&mut stream, &mut replies, turns)?;
    Ok((stream, replies))
}

/// A shelf without a store, which opens each that is asked for.
pub(crate) fn empty_shelf(alloc: Global) -> MapShelf {
    MapShelf::new(alloc, Vec::new(alloc), Vec::new(alloc))
}

/// A console that gives this input by pieces of this length, or of one byte for 0, has room for so many bytes, and fails at the calls
/// of these numbers.
pub(crate) fn console_of(
    alloc: Global,
    input: &[u8],
    piece: usize,
    room: usize,
    failing: &[u64],
) -> Result<MemoryLink, Fail> {
    let failing = failing.to_vec(alloc)?;
    let input = Bytes::from(input.to_vec(alloc)?);
    Ok(MemoryLink::new(alloc, input, piece.max(1), room, failing)?)
}

/// The status of a command, and what it writes, where the input comes by pieces of this length, or of one byte for 0.
pub(crate) fn outcome<R: Wait + Sync + Threads>(
    rt: &R,
    alloc: Global,
    words: &[&str],
    stream: &[u8],
    piece: usize,
    shelf: &mut MapShelf,
) -> Result<(u8, Vec<u8>), Fail> {
    let console = console_of(alloc, stream, piece, ROOM, &[])?;
    outcome_over(rt, alloc, words, console, shelf)
}

/// The same over a shelf without a store, where the console fails at the calls of these numbers.
pub(crate) fn outcome_with_faults<R: Wait + Sync + Threads>(
    rt: &R,
    alloc: Global,
    words: &[&str],
    stream: &[u8],
    piece: usize,
    failing: &[u64],
) -> Result<(u8, Vec<u8>), Fail> {
    let console = console_of(alloc, stream, piece, ROOM, failing)?;
    let mut shelf = empty_shelf(alloc);
    outcome_over(rt, alloc, words, console, &mut shelf)
}

/// Whether the command ends with the status and writes just this text, where the input comes by pieces of this length.
pub(crate) fn is_told<R: Wait + Sync + Threads>(
    rt: &R,
    alloc: Global,
    words: &[&str],
    stream: &[u8],
    piece: usize,
    shelf: &mut MapShelf,
    told: (u8, &[u8]),
) -> Result<bool, Fail> {
    let (status, written) = outcome(rt, alloc, words, stream, piece, shelf)?;
    Ok(status == told.0 && written.as_slice() == told.1)
}

/// The status with which these words end over doors. It has no clause, as the next has none.
pub(crate) fn status_over<R: Wait + Sync + Threads, L: Link, S: Shelf, D: Doors + Send>(
    rt: &R,
    alloc: Global,
    words: &[&str],
    console: &mut L,
    shelf: &mut S,
    doors: &mut D,
) -> Result<u8, Fail> {
    let words = words_of(alloc, words)?;
    Ok(run(rt, alloc, &words, console, shelf, doors))
}

/// The status of a command. It has no clause, and is written for any console and shelf, so that the proof of a test doesn't
/// carry what a command does.
pub(crate) fn exit_status_of<R: Wait + Sync + Threads, L: Link, S: Shelf>(
    rt: &R,
    alloc: Global,
    words: &Vec<String>,
    console: &mut L,
    shelf: &mut S,
) -> u8 {
    let mut doors = ListDoors::new(Vec::new(alloc), Vec::new(alloc));
    run(rt, alloc, words, console, shelf, &mut doors)
}

/// The words of a command line.
fn words_of(alloc: Global, words: &[&str]) -> Result<Vec<String>, Fail> {
    let mut list = Vec::new(alloc);
    for word in words {
        list.push(word.to_string(alloc)?)?;
    }
    Ok(list)
}

/// The status of a command over this console, and what it writes.
pub(crate) fn outcome_over<R: Wait + Sync + Threads>(
    rt: &R,
    alloc: Global,
    words: &[&str],
    mut console: MemoryLink,
    shelf: &mut MapShelf,
) -> Result<(u8, Vec<u8>), Fail> {
    let list = words_of(alloc, words)?;
    let status = exit_status_of(rt, alloc, &list, &mut console, shelf);
    Ok((status, console.written().to_vec(alloc)?))
}
