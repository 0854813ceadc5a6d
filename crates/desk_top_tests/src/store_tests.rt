//! Sessions over a store whose calls fail.

use crate::session_steps::{Turn, is_told, stream_of};
use desk_edge::{MapKeeper, MapShelf};
use desk_testing::{bytes, check};
use std::alloc::Global;
use std::sync::Wait;
use std::test::Fail;
use std::thread::Threads;

const WORDS: [&str; 3] = ["session", "--store", "desk"];

const PART: &str =
    r#"POST /edit {"edit":"part","ticket":"s1","code":"P","kind":"assembly","name":"Pump"}"#;

const PRODUCT: &str = r#"POST /edit {"edit":"product","ticket":"s2","part":"P","kind":"3"}"#;

/// The same edits once more, over the store that has taken them.
const AGAIN: &[Turn] = &[
    Turn {
        ask: PART,
        status: "200 OK",
        said: "version 2\nseen 2\naccepted 1\n",
    },
    Turn {
        ask: PRODUCT,
        status: "200 OK",
        said: "version 2\nseen 2\naccepted 2\n",
    },
    Turn {
        ask: "GET /rohs/P?day=2024-01-23",
        status: "200 OK",
        said: "version 2\nproduct P kind 3 day 2024-01-23 mass 0\ncompliant\n",
    },
];

/// Fails unless a session over the shelf's store ends with status 0 and writes just the replies of these turns.
fn is_served<R: Wait + Sync + Threads>(
    rt: &R,
    alloc: Global,
    turns: &[Turn],
    shelf: &mut MapShelf,
    what: &'static str,
) -> Result<(), Fail> {
    let (stream, replies) = stream_of(alloc, turns)?;
    let told = (0, replies.as_bytes());
    let is_right = is_told(rt, alloc, &WORDS, stream.as_bytes(), 7, shelf, told)?;
    check(is_right, what)
}

/// A shelf with one store, which is empty, and whose calls of these numbers fail.
pub(crate) fn shelf_of(alloc: Global, failing: &[u64]) -> Result<MapShelf, Fail> {
    let name = bytes(alloc, "desk")?;
    let keeper = MapKeeper::new(Vec::new(alloc), failing.to_vec(alloc)?);
    let stores = Vec::from_array(alloc, [(name, keeper)])?;
    Ok(MapShelf::new(alloc, stores, Vec::new(alloc)))
}

/// Fails unless a session, where a part is to be entered, ends with status 4 where its store fails at the call of this number.
fn fails_at<R: Wait + Sync + Threads>(
    rt: &R,
    alloc: Global,
    call: u64,
    what: &'static str,
) -> Result<(), Fail> {
    let (stream, _) = stream_of(alloc, AGAIN)?;
    let mut shelf = shelf_of(alloc, &[call])?;
    let told: (u8, &[u8]) = (4, b"desk: store\n");
    let is_right = is_told(
        rt,
        alloc,
        &WORDS,
        stream.as_bytes(),
        100_000,
        &mut shelf,
        told,
    )?;
    check(is_right, what)
}

#[test]
fn a_store_that_cannot_be_opened_ends_with_status_4(rt: HostRuntime) -> Result<(), Fail> {
    fails_at(&rt, rt.alloc(), 1, "reading the records fails")?;
    fails_at(&rt, rt.alloc(), 2, "the commit of the start tables fails")
}

/// The second edit isn't kept, and then it is sent again.
const UNKEPT: &[Turn] = &[
    Turn {
        ask: PART,
        status: "200 OK",
        said: "version 1\nseen 0\naccepted 1\n",
    },
    Turn {
        ask: PRODUCT,
        status: "503 Service Unavailable",
        said: "store-fault\n",
    },
    Turn {
        ask: PRODUCT,
        status: "200 OK",
        said: "version 2\nseen 1\naccepted 2\n",
    },
];

/// Fails unless an edit that the store refuses is told, isn't made, and can be sent again.
fn is_sent_again<R: Wait + Sync + Threads>(rt: &R, alloc: Global) -> Result<(), Fail> {
    // Two calls open the store, the third keeps the part.
    let mut shelf = shelf_of(alloc, &[4])?;
    is_served(rt, alloc, UNKEPT, &mut shelf, "the session with a fault")?;
    is_served(rt, alloc, AGAIN, &mut shelf, "the session behind it")?;
    check(shelf.faults() == 1, "not one fault")
}

#[test]
fn an_edit_that_the_store_refuses_can_be_sent_again(rt: HostRuntime) -> Result<(), Fail> {
    is_sent_again(&rt, rt.alloc())
}
