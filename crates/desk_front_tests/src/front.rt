ghost use Rattle.std.specs.Prelude.{◌≡◌};
ghost use Rattle.desk_clerk.specs.Clerk.{tables_of};
ghost use Rattle.desk_engine.specs.Engine.{lists_of};

use desk_clerk::{Clerk, DeskBoard, Opened, StoredDesk};
use desk_edge::{Keeper, Link, MapKeeper, MemoryLink};
use desk_front::{Served, serve_alone};
use desk_publish::{BlankBook, Naming};
use desk_text::Bytes;
use std::alloc::Global;
use std::fmt::Write;
use std::marker::Brand;
use std::sync::Wait;
use std::test::Fail;

/// What is sent, its body, the status that is answered, and the reply's body.
type Row = (&'static str, &'static str, &'static str, &'static str);

const PART: &str = r#"{"edit":"part","ticket":"t1","code":"A","kind":"assembly","name":"Frame"}"#;

/// A talk over an empty desk. Its requests have 44, 116, 44 and 44 bytes.
const MIXED: &[Row] = &[
    ("GET /version", "", "200 OK", "version 0\n"),
    (
        "POST /edit",
        PART,
        "200 OK",
        "version 1\nseen 0\naccepted 1\n",
    ),
    ("GET /nothing", "", "404 Not Found", "no-route\n"),
    ("GET /version", "", "200 OK", "version 1\n"),
];

/// The requests of the rows, and their replies.
fn talk(alloc: Global, rows: &[Row]) -> Result<(String, String), Fail> {
    let mut stream = String::new(alloc);
    let mut replies = String::new(alloc);
    for &(line, body, status, reply) in rows {
        let (sent, said) = (body.len(), reply.len());
        write!(
            &mut stream,
            "{line} HTTP/1.1\r\nContent-Length: {sent}\r\n\r\n{body}"
        )?;
        write!(
            &mut replies,
            "HTTP/1.1 {status}\r\nContent-Type: text/plain; charset=utf-8\r\nContent-Length: {said}\r\n\r\n{reply}"
        )?;
    }
    Ok((stream, replies))
}

/// How a desk over the keeper serves the link.
fn served<R: Wait + Sync, K: Keeper + Drop, L: Link>(
    rt: &R,
    alloc: Global,
    keeper: K,
    link: &mut L,
) -> Result<Served, Fail> {
    match StoredDesk::open(alloc, keeper) {
        Ok(desk) => served_by::<R, K, L, Brand>(rt, alloc, BlankBook::new(), desk, link),
        Err(_) => Err(Fail::new("not opened")),
    }
}

/// The same under a name that is picked for the desk's tables.
fn served_by<R: Wait + Sync, K: Keeper + Drop, L: Link, J: Naming<DeskBoard>>(
    rt: &R,
    alloc: Global,
    blank: BlankBook<DeskBoard>,
    desk: StoredDesk<K>,
    link: &mut L,
) -> Result<Served, Fail>
    requires book { blank ≡ J.book }
    requires opening { lists_of J.opening.engine ≡ tables_of desk }
{
    match Clerk::<K, J>::open(rt, alloc, blank, desk, 1) {
        Ok(
            Opened {
                mut clerk,
                seats: _,
            },
        ) => {
            let served = serve_alone(rt, alloc, &mut clerk, link);
            clerk.close(rt);
            Ok(served)
        }
        Err(_) => Err(Fail::new("no memory")),
    }
}

/// How many calls of its link the mixed stream takes in pieces of 40 bytes: seven reads of 248 bytes and one that finds no more, and a
/// write for each request.
const CALLS: u64 = 12;

/// How the mixed stream is served where the link's call of this number fails, what is written then, and the replies.
fn failing_at<R: Wait + Sync>(
    rt: &R,
    alloc: Global,
    call: u64,
) -> Result<(Served, Bytes, String), Fail> {
    let (stream, replies) = talk(alloc, MIXED)?;
    let keeper = MapKeeper::new(Vec::new(alloc), Vec::new(alloc));
    let failing = Vec::from_array(alloc, [call])?;
    let input = Bytes::from(stream.as_bytes().to_vec(alloc)?);
    let mut link = MemoryLink::new(alloc, input, 40, 100_000, failing)?;
    let served = served(rt, alloc, keeper, &mut link)?;
    let written = Bytes::from(link.written().to_vec(alloc)?);
    Ok((served, written, replies))
}

/// A failure that says what is wrong, unless it holds.
fn check(holds: bool, what: &'static str) -> Result<(), Fail> {
    if holds { Ok(()) } else { Err(Fail::new(what)) }
}

/// Fails unless the stream ends where the call past the last would fail, and just the replies are written.
fn are_answered<R: Wait + Sync>(rt: &R, alloc: Global) -> Result<(), Fail> {
    let (served, written, replies) = failing_at(rt, alloc, CALLS + 1)?;
    check(served == Served::Ended, "the stream did not end")?;
    let same = written.as_slice() == replies.as_bytes();
    check(same, "other replies")
}

/// Whether a failure of the link's call of this number is told, and leaves a beginning of the replies.
fn is_begun<R: Wait + Sync>(rt: &R, alloc: Global, call: u64) -> Result<bool, Fail> {
    let (served, written, replies) = failing_at(rt, alloc, call)?;
    let begins = replies.as_bytes().starts_with(written.as_slice());
    Ok(served == Served::LinkFault && begins)
}

/// The first call whose failure isn't told, or leaves something else.
fn first_wrong_call<R: Wait + Sync>(rt: &R, alloc: Global) -> Result<Option<u64>, Fail> {
    for call in 1..=CALLS {
        if !is_begun(rt, alloc, call)? {
            return Ok(Some(call));
        }
    }
    Ok(None)
}

#[test]
fn a_failing_call_leaves_a_beginning_of_the_replies(rt: HostRuntime) -> Result<(), Fail> {
    assert_eq!(rt; first_wrong_call(&rt, rt.alloc())?, None);
    are_answered(&rt, rt.alloc())
}
