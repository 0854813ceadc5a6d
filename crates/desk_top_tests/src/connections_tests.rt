//! Connections that are served by the parts of a server: several at once from seats of one desk, and each from a seat and an editor.

ghost use Rattle.std.specs.Prelude.{◌≡◌, ◌≤◌, length};
ghost use Rattle.desk_clerk.specs.Clerk.{tables_of};
ghost use Rattle.desk_engine.specs.Engine.{lists_of};

use crate::gateway_turns::gateway;
use crate::notes::{Notes, Sign};
use crate::session_steps::{Turn, console_of, stream_of};
use crate::waiting_keeper::WaitingKeeper;
use crate::watched_doors::WatchedDoors;
use desk_clerk::{Clerk, DeskBoard, DeskSeat, Opened, StoredDesk};
use desk_edge::{Doors, Keeper, ListDoors, MapKeeper, MemoryLink};
use desk_front::{ClerkBook, LockedClerk, Served, serve_link, work};
use desk_publish::{BlankBook, Naming};
use desk_testing::check;
use std::alloc::Global;
use std::marker::Brand;
use std::sync::{Mutex, Wait};
use std::test::Fail;
use std::thread::{Threads, for_each_mut};

/// More bytes than the replies of a connection have.
const ROOM: usize = 100_000;

/// A supplier's declaration is entered, sent again, and sent with another mass.
pub(crate) const DECLARED: [Turn; 4] = [
    Turn {
        ask: "POST /declare D,1,ACME,7,2024-01-23\nM,SOLDER,Solder paste,1000000\nS,SOLDER,lead,1000\n",
        status: "200 OK",
        said: "version 1\nseen 0\naccepted 1\n",
    },
    Turn {
        ask: "POST /declare D,1,ACME,7,2024-01-23\nM,SOLDER,Solder paste,1000000\nS,SOLDER,lead,1000\n",
        status: "200 OK",
        said: "version 1\nseen 1\naccepted 1\n",
    },
    Turn {
        ask: "POST /declare D,1,ACME,7,2024-01-23\nM,SOLDER,Solder paste,1000000\nS,SOLDER,lead,999\n",
        status: "409 Conflict",
        said: "version 1\nseen 1\nrefused ticket-reused\n",
    },
    Turn {
        ask: "GET /version",
        status: "200 OK",
        said: "version 1\n",
    },
];

/// A part is entered, and the version asked for.
const PART: [Turn; 2] = [
    Turn {
        ask: r#"POST /edit {"edit":"part","ticket":"t1","code":"A","kind":"assembly","name":"Frame"}"#,
        status: "200 OK",
        said: "version 1\nseen 0\naccepted 1\n",
    },
    Turn {
        ask: "GET /version",
        status: "200 OK",
        said: "version 1\n",
    },
];

/// The part is named a product by one who has asked nothing.
const PRODUCT: [Turn; 1] = [Turn {
    ask: r#"POST /edit {"edit":"product","ticket":"t2","part":"A","kind":"3"}"#,
    status: "200 OK",
    said: "version 2\nseen 0\naccepted 2\n",
}];

/// The version of a desk into which nothing was entered.
const EMPTY: [Turn; 1] = [Turn {
    ask: "GET /version",
    status: "200 OK",
    said: "version 0\n",
}];

/// A keeper in memory that keeps nothing yet.
fn keeper(alloc: Global) -> MapKeeper {
    MapKeeper::new(Vec::new(alloc), Vec::new(alloc))
}

/// A connection in memory that sends this stream.
fn line(alloc: Global, stream: &str) -> Result<MemoryLink, Fail> {
    console_of(alloc, stream.as_bytes(), 40, ROOM, &[])
}

/// Doors of two connections that send these turns, and how many bytes the replies to both have.
fn two_lines(alloc: Global, first: &[Turn], second: &[Turn]) -> Result<(ListDoors, usize), Fail> {
    let (stream, replies) = stream_of(alloc, first)?;
    let (other, others) = stream_of(alloc, second)?;
    let lines = Vec::from_array(alloc, [line(alloc, &stream)?, line(alloc, &other)?])?;
    let bytes = replies.len().saturating_add(others.len());
    Ok((ListDoors::new(lines, Vec::new(alloc)), bytes))
}

/// Serves the connections of the doors from two seats at once, over a new desk that the keeper keeps.
fn serve_from_two<R: Wait + Sync + Threads, D: Doors + Send + Drop, K: Keeper + Send + Drop>(
    rt: &R,
    alloc: Global,
    keeper: K,
    doors: D,
) -> Result<(), Fail> {
    match StoredDesk::open(alloc, keeper) {
        Ok(desk) => serve_named::<R, D, K, Brand>(rt, alloc, BlankBook::new(), desk, doors),
        Err(_) => Err(Fail::new("not opened")),
    }
}

/// The same under a name that is picked for the desk's tables.
fn serve_named<
    R: Wait + Sync + Threads,
    D: Doors + Send + Drop,
    K: Keeper + Send + Drop,
    J: Naming<DeskBoard> + Send + Sync,
>(
    rt: &R,
    alloc: Global,
    blank: BlankBook<DeskBoard>,
    desk: StoredDesk<K>,
    doors: D,
) -> Result<(), Fail>
    requires book { blank ≡ J.book }
    requires opening { lists_of J.opening.engine ≡ tables_of desk }
{
    match Clerk::<K, J>::open(rt, alloc, blank, desk, 2) {
        Ok(
            Opened {
                mut clerk,
                mut seats,
            },
        ) => {
            serve_seats(rt, alloc, &mut clerk, seats.as_mut_slice(), doors);
            clerk.close(rt);
            Ok(())
        }
        Err(_) => Err(Fail::new("no memory")),
    }
}

/// Works at each of the seats in a thread of its own.
fn serve_seats<
    R: Wait + Sync + Threads,
    D: Doors + Send + Drop,
    K: Keeper + Send,
    J: Naming<DeskBoard> + Send + Sync,
>(rt: &R, alloc: Global, clerk: &mut Clerk<K, J>, seats: &mut [DeskSeat<J>], doors: D)
    requires { 1 ≤ length seats.old }
{
    let threads = seats.len();
    let doors = Mutex::new(doors);
    let clerk = Mutex::new(clerk);
    for_each_mut(
        rt,
        seats,
        threads,
        &|_, seat| {
            work(rt, alloc, &doors, &clerk, seat);
        },
    );
}

/// Whether two connections, of which each waits until the other has begun, are both answered whole.
fn are_both_answered<R: Wait + Sync + Threads>(rt: &R, alloc: Global) -> Result<bool, Fail> {
    let notes = Notes::new();
    let (doors, bytes) = two_lines(alloc, &EMPTY, &EMPTY)?;
    let doors = WatchedDoors::new(doors, &notes, Sign::BothBegun, Sign::BothBegun);
    serve_from_two(rt, alloc, keeper(alloc), doors)?;
    Ok(notes.written() == bytes as u64)
}

#[test]
fn two_links_at_once(rt: HostRuntime) -> Result<(), Fail> {
    check(are_both_answered(&rt, rt.alloc())?, "one waits in vain")
}

/// Whether a question is answered while an edit waits for its store, and then the edit.
fn is_answered_meanwhile<R: Wait + Sync + Threads>(rt: &R, alloc: Global) -> Result<bool, Fail> {
    let notes = Notes::new();
    let (doors, bytes) = two_lines(alloc, &PART, &EMPTY)?;
    let doors = WatchedDoors::new(doors, &notes, Sign::Start, Sign::CommitBegun);
    serve_from_two(rt, alloc, WaitingKeeper::new(keeper(alloc), &notes), doors)?;
    Ok(notes.written() == bytes as u64)
}

#[test]
fn question_while_edit_waits(rt: HostRuntime) -> Result<(), Fail> {
    check(is_answered_meanwhile(&rt, rt.alloc())?, "a question waits")
}

/// How a new desk that the keeper keeps is served by an editor over one clerk.
pub(crate) fn served_by_book<R: Wait + Sync>(
    rt: &R,
    alloc: Global,
    keeper: MapKeeper,
    link: &mut MemoryLink,
) -> Result<Served, Fail> {
    match StoredDesk::open(alloc, keeper) {
        Ok(desk) => served_by_named::<R, Brand>(rt, alloc, BlankBook::new(), desk, link),
        Err(_) => Err(Fail::new("not opened")),
    }
}

/// The same under a name that is picked for the desk's tables.
fn served_by_named<R: Wait + Sync, J: Naming<DeskBoard>>(
    rt: &R,
    alloc: Global,
    blank: BlankBook<DeskBoard>,
    desk: StoredDesk<MapKeeper>,
    link: &mut MemoryLink,
) -> Result<Served, Fail>
    requires book { blank ≡ J.book }
    requires opening { lists_of J.opening.engine ≡ tables_of desk }
{
    match Clerk::<MapKeeper, J>::open(rt, alloc, blank, desk, 1) {
        Ok(Opened { clerk, mut seats }) => {
            let mut book = ClerkBook::new(rt, alloc, clerk);
            let served = served_from(rt, alloc, &mut book, seats.as_mut_slice(), link);
            book.into_clerk().close(rt);
            served
        }
        Err(_) => Err(Fail::new("no memory")),
    }
}

/// How the connection is served by the editor from the first of the seats.
fn served_from<R: Wait + Sync, K: Keeper, J: Naming<DeskBoard>>(
    rt: &R,
    alloc: Global,
    book: &mut ClerkBook<'_, R, K, J>,
    seats: &mut [DeskSeat<J>],
    link: &mut MemoryLink,
) -> Result<Served, Fail> {
    match seats.first_mut() {
        Some(seat) => Ok(serve_link(rt, alloc, book, seat, link)),
        None => Err(Fail::new("no seat")),
    }
}

/// Fails unless these requests get just these replies over a new desk.
fn is_replied<R: Wait + Sync>(rt: &R, alloc: Global, turns: (String, String)) -> Result<(), Fail> {
    let (stream, replies) = turns;
    let mut link = line(alloc, &stream)?;
    let served = served_by_book(rt, alloc, keeper(alloc), &mut link)?;
    check(served == Served::Ended, "the stream did not end")?;
    check(link.written() == replies.as_bytes(), "other replies")
}

fn are_replied<R: Wait + Sync>(rt: &R, alloc: Global) -> Result<(), Fail> {
    is_replied(rt, alloc, stream_of(alloc, &EMPTY)?)?;
    is_replied(rt, alloc, stream_of(alloc, &DECLARED)?)?;
    is_replied(rt, alloc, stream_of(alloc, &PART)?)?;
    is_replied(rt, alloc, gateway(alloc)?)
}

#[test]
fn one_seat_and_one_clerk_answer_as_a_session(rt: HostRuntime) -> Result<(), Fail> {
    are_replied(&rt, rt.alloc())
}

/// Fails unless what a connection has entered is met by the edit of another, which has asked nothing.
fn is_met<R: Wait + Sync>(rt: &R, alloc: Global) -> Result<(), Fail> {
    match StoredDesk::open(alloc, keeper(alloc)) {
        Ok(desk) => is_met_named::<R, Brand>(rt, alloc, BlankBook::new(), desk),
        Err(_) => Err(Fail::new("not opened")),
    }
}

/// The same under a name that is picked for the desk's tables.
fn is_met_named<R: Wait + Sync, J: Naming<DeskBoard>>(
    rt: &R,
    alloc: Global,
    blank: BlankBook<DeskBoard>,
    desk: StoredDesk<MapKeeper>,
) -> Result<(), Fail>
    requires book { blank ≡ J.book }
    requires opening { lists_of J.opening.engine ≡ tables_of desk }
{
    match Clerk::<MapKeeper, J>::open(rt, alloc, blank, desk, 2) {
        Ok(
            Opened {
                mut clerk,
                mut seats,
            },
        ) => {
            let met = are_served_in_turn(rt, alloc, &mut clerk, seats.as_mut_slice());
            clerk.close(rt);
            met
        }
        Err(_) => Err(Fail::new("no memory")),
    }
}

/// Serves two connections, each from a seat and by an editor of its own over the clerk behind one lock.
fn are_served_in_turn<R: Wait + Sync, K: Keeper, J: Naming<DeskBoard>>(
    rt: &R,
    alloc: Global,
    clerk: &mut Clerk<K, J>,
    seats: &mut [DeskSeat<J>],
) -> Result<(), Fail> {
    let clerk = Mutex::new(clerk);
    let [first, second] = seats else {
        return Err(Fail::new("not two seats"));
    };
    is_served(rt, alloc, &clerk, first, &PART)?;
    is_served(rt, alloc, &clerk, second, &PRODUCT)
}

/// Fails unless a connection that sends these turns gets just their replies from the seat.
fn is_served<R: Wait + Sync, K: Keeper, J: Naming<DeskBoard>>(
    rt: &R,
    alloc: Global,
    clerk: &Mutex<&mut Clerk<K, J>>,
    seat: &mut DeskSeat<J>,
    turns: &[Turn],
) -> Result<(), Fail> {
    let (stream, replies) = stream_of(alloc, turns)?;
    let mut link = line(alloc, &stream)?;
    let mut editor = LockedClerk::new(rt, clerk);
    serve_link(rt, alloc, &mut editor, seat, &mut link);
    check(link.written() == replies.as_bytes(), "other replies")
}

#[test]
fn edit_sees_other_seat(rt: HostRuntime) -> Result<(), Fail> {
    is_met(&rt, rt.alloc())
}
