use crate::exchange::reply;
use crate::opening::told;
use desk_edge::{Doors, Failed, Link, TcpDoors};
use std::io;
use std::io::Write;
use std::net::{Ipv4Addr, Net, TcpListener, TcpStream};

/// So often a line is written to that nobody reads any more.
const WRITES: u32 = 100_000;

/// What a line has to do.
#[derive(Clone, Copy)]
enum Wanted {
    /// Give no byte, which is no fault.
    End,
    /// Refuse a write, sooner or later.
    RefuseWrites,
    /// Refuse a read.
    RefuseReads,
    /// Give a request, and take its reply.
    Serve,
}

fn does<L: Link>(line: &mut L, wanted: Wanted) -> bool {
    match wanted {
        Wanted::End => line.read(&mut [0; 1]) == Ok(0),
        Wanted::RefuseWrites => refuses_a_write(line),
        Wanted::RefuseReads => line.read(&mut [0; 1]) == Err(Failed),
        Wanted::Serve => reply(line) == Ok(*b"ping"),
    }
}

fn refuses_a_write<L: Link>(line: &mut L) -> bool {
    for _ in 0..WRITES {
        if line.write(b"to nobody").is_err() {
            return true;
        }
    }
    false
}

/// Whether the next line does it.
fn next_does<D: Doors>(doors: &mut D, wanted: Wanted) -> bool {
    match doors.next() {
        Ok(Some(line)) => {
            let mut line = line;
            does(&mut line, wanted)
        }
        _ => false,
    }
}

fn meet<R: Net<Listener = TcpListener, Stream = TcpStream>>(
    rt: &R,
    port: u16,
) -> io::Result<TcpStream> {
    TcpStream::connect(rt, (Ipv4Addr::LOCALHOST, port))
}

/// What goes wrong with a line is no fault of the doors, which give the lines that come after it.
pub fn outlives_its_peers<R: Net<Listener = TcpListener, Stream = TcpStream> + Print>(
    rt: &R,
    port: u16,
) -> io::Result<()> {
    let mut doors = TcpDoors::with_patience(rt, 1);
    let is_open = doors.listen(port).is_ok();
    println!(rt; "open: {is_open}, {:?}", told(&doors))?;
    drop(meet(rt, port)?);
    let is_end = next_does(&mut doors, Wanted::End);
    println!(rt;
        "a peer that is gone: its line ends: {is_end}, {:?}",
        told(&doors)
    )?;
    drop(meet(rt, port)?);
    let is_refused = next_does(&mut doors, Wanted::RefuseWrites);
    println!(rt;
        "a peer that is gone: a write is refused: {is_refused}, {:?}",
        told(&doors)
    )?;
    let silent = meet(rt, port)?;
    let is_refused = next_does(&mut doors, Wanted::RefuseReads);
    drop(silent);
    println!(rt;
        "a peer that says nothing: a read is refused: {is_refused}, {:?}",
        told(&doors)
    )?;
    let mut asking = meet(rt, port)?;
    asking.write_all(b"ping")?;
    let is_served = next_does(&mut doors, Wanted::Serve);
    println!(rt;
        "a peer that asks: it is served: {is_served}, {:?}",
        told(&doors)
    )
}
