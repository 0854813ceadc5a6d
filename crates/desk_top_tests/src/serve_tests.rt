//! Connections that doors in memory give.

use crate::notes::{Notes, Sign};
use crate::session_steps::{Turn, console_of, empty_shelf, outcome, status_over, stream_of};
use crate::watched_doors::WatchedDoors;
use desk_edge::{Doors, ListDoors, MapShelf, MemoryLink};
use desk_testing::check;
use desk_text::Bytes;
use std::alloc::Global;
use std::sync::Wait;
use std::test::Fail;
use std::thread::Threads;

/// An edit that a connection enters.
const ENTERS: Turn = Turn {
    ask: r#"POST /edit {"edit":"part","ticket":"t1","code":"A","kind":"assembly","name":"Frame"}"#,
    status: "200 OK",
    said: "version 1\nseen 0\naccepted 1\n",
};

/// A question for the version after it.
const ASKS: Turn = Turn {
    ask: "GET /version",
    status: "200 OK",
    said: "version 1\n",
};

/// A connection that sends this, and has room for its replies.
fn line(alloc: Global, stream: &[u8]) -> Result<MemoryLink, Fail> {
    let input = Bytes::from(stream.to_vec(alloc)?);
    Ok(MemoryLink::new(alloc, input, 40, 10_000, Vec::new(alloc))?)
}

/// Doors that give so many connections, each of which asks for the version, and whose calls of these numbers fail.
fn doors(alloc: Global, count: usize, failing: &[u64]) -> Result<ListDoors, Fail> {
    let (stream, _) = stream_of(alloc, &[ASKS])?;
    let mut lines = Vec::new(alloc);
    for _ in 0..count {
        lines.push(line(alloc, stream.as_bytes())?)?;
    }
    Ok(ListDoors::new(lines, failing.to_vec(alloc)?))
}

/// The status with which these words serve the doors over a shelf, and what is written on the console.
fn served<R: Wait + Sync + Threads, D: Doors + Send>(
    rt: &R,
    alloc: Global,
    words: &[&str],
    shelf: &mut MapShelf,
    doors: &mut D,
) -> Result<(u8, Vec<u8>), Fail> {
    let mut console = console_of(alloc, b"", 0, 1_000, &[])?;
    let status = status_over(rt, alloc, words, &mut console, shelf, doors)?;
    Ok((status, console.written().to_vec(alloc)?))
}

/// Fails unless these words serve doors to an end with this status and just this line.
fn ends_with<R: Wait + Sync + Threads>(
    rt: &R,
    alloc: Global,
    words: &[&str],
    mut doors: ListDoors,
    told: (u8, &[u8]),
) -> Result<(), Fail> {
    let mut shelf = empty_shelf(alloc);
    let (status, written) = served(rt, alloc, words, &mut shelf, &mut doors)?;
    check(status == told.0, "another status")?;
    check(written.as_slice() == told.1, "another line")
}

fn ends_where_doors_are_closed<R: Wait + Sync + Threads>(
    rt: &R,
    alloc: Global,
) -> Result<(), Fail> {
    let words = ["serve", "--port", "7000"];
    ends_with(rt, alloc, &words, doors(alloc, 0, &[])?, (0, b""))?;
    ends_with(rt, alloc, &words, doors(alloc, 20, &[])?, (0, b""))
}

#[test]
fn serving_ends_where_the_doors_are_closed(rt: HostRuntime) -> Result<(), Fail> {
    ends_where_doors_are_closed(&rt, rt.alloc())
}

/// The first call opens the doors, and the second asks for a connection.
fn tells_failing_doors<R: Wait + Sync + Threads>(rt: &R, alloc: Global) -> Result<(), Fail> {
    let words = ["serve", "--port", "7000", "--seats", "1"];
    let told: (u8, &[u8]) = (7, b"desk: doors\n");
    ends_with(rt, alloc, &words, doors(alloc, 2, &[1])?, told)?;
    ends_with(rt, alloc, &words, doors(alloc, 2, &[2])?, told)
}

#[test]
fn doors_that_fail_are_told(rt: HostRuntime) -> Result<(), Fail> {
    tells_failing_doors(&rt, rt.alloc())
}

/// How many connections doors of five have given once two were asked for.
fn taken<R: Wait + Sync + Threads>(rt: &R, alloc: Global) -> Result<(u8, u64), Fail> {
    let words = ["serve", "--port", "7000", "--connections", "2"];
    let mut shelf = empty_shelf(alloc);
    let mut doors = doors(alloc, 5, &[])?;
    let (status, _) = served(rt, alloc, &words, &mut shelf, &mut doors)?;
    Ok((status, doors.taken()))
}

#[test]
fn no_more_connections_are_taken_than_are_asked_for(rt: HostRuntime) -> Result<(), Fail> {
    assert_eq!(rt; taken(&rt, rt.alloc())?, (0, 2));
    Ok(())
}

/// Whether a session finds in a store what a connection has entered there.
fn is_found<R: Wait + Sync + Threads>(rt: &R, alloc: Global) -> Result<bool, Fail> {
    let (stream, _) = stream_of(alloc, &[ENTERS])?;
    let lines = Vec::from_array(alloc, [line(alloc, stream.as_bytes())?])?;
    let mut doors = ListDoors::new(lines, Vec::new(alloc));
    let mut shelf = empty_shelf(alloc);
    let words = ["serve", "--port", "7000", "--store", "x"];
    let (status, _) = served(rt, alloc, &words, &mut shelf, &mut doors)?;
    let (stream, replies) = stream_of(alloc, &[ASKS])?;
    let words = ["session", "--store", "x"];
    let (again, written) = outcome(rt, alloc, &words, stream.as_bytes(), 0, &mut shelf)?;
    Ok(status == 0 && again == 0 && written.as_slice() == replies.as_bytes())
}

#[test]
fn what_a_connection_enters_is_found_by_a_session(rt: HostRuntime) -> Result<(), Fail> {
    assert!(rt; is_found(&rt, rt.alloc())?);
    Ok(())
}

/// Whether two connections of doors that count what they write are answered whole.
fn are_counted<R: Wait + Sync + Threads>(rt: &R, alloc: Global) -> Result<bool, Fail> {
    let words = [
        "serve",
        "--port",
        "7000",
        "--seats",
        "2",
        "--connections",
        "2",
    ];
    let turns = [ENTERS, ASKS];
    let (stream, replies) = stream_of(alloc, &turns)?;
    let (question, answer) = stream_of(alloc, &[ASKS])?;
    let lines = Vec::from_array(
        alloc,
        [
            line(alloc, stream.as_bytes())?,
            line(alloc, question.as_bytes())?,
        ],
    )?;
    let notes = Notes::new();
    let doors = ListDoors::new(lines, Vec::new(alloc));
    let mut doors = WatchedDoors::new(doors, &notes, Sign::Start, Sign::Start);
    let mut shelf = empty_shelf(alloc);
    let (status, _) = served(rt, alloc, &words, &mut shelf, &mut doors)?;
    let bytes = replies.len().saturating_add(answer.len());
    Ok(status == 0 && notes.written() == bytes as u64)
}

#[test]
fn each_connection_of_the_doors_is_answered(rt: HostRuntime) -> Result<(), Fail> {
    assert!(rt; are_counted(&rt, rt.alloc())?);
    Ok(())
}
