ghost use Rattle.std.specs.Prelude.{◌≢◌};

use crate::opening::told;
use desk_edge::{Doors, Failed, Link, TcpDoors, write_all};
use std::io;
use std::io::{Read, Write};
use std::net::{Ipv4Addr, Net, TcpListener, TcpStream};
use std::sync::{Mutex, Wait};
use std::thread::{Threads, join};

/// Sends four bytes in two pieces, and gives the four that come back.
fn ask<R: Net<Listener = TcpListener, Stream = TcpStream>>(
    rt: &R,
    port: u16,
) -> io::Result<[u8; 4]> {
    let mut stream = TcpStream::connect(rt, (Ipv4Addr::LOCALHOST, port))?;
    stream.write_all(b"pi")?;
    stream.write_all(b"ng")?;
    let mut reply = [0; 4];
    stream.read_exact(&mut reply)?;
    Ok(reply)
}

/// Reads four bytes of the line, and writes four.
pub fn reply<L: Link>(line: &mut L) -> Result<[u8; 4], Failed> {
    let mut request = [0; 4];
    for byte in &mut request {
        let mut one = [0; 1];
        line.read(&mut one)?;
        *byte = one[0];
    }
    write_all(line, b"pong")?;
    Ok(request)
}

/// What came of a line that was asked for.
#[derive(Clone, Copy, Debug, PartialEq, Eq)]
pub enum Met {
    /// It gave these bytes, and took a reply.
    Served([u8; 4]),
    /// It failed.
    LineFault,
    /// There was none, as the doors are closed.
    Closed,
    /// There was none, as the doors failed.
    DoorsFault,
}

/// Takes a line of doors that others may share, and replies to it.
///
/// What the type of the doors promises holds also behind a lock.
fn serve<D: Doors, R: Wait>(rt: &R, doors: &Mutex<D>) -> Met
    ensures never_fails { D.NeverFails → result ≢ Met.DoorsFault }
    ensures never_closes { D.NeverCloses → result ≢ Met.Closed }
{
    let next = doors.lock(rt).next();
    match next {
        Ok(Some(line)) => {
            let mut line = line;
            reply(&mut line).map_or(Met::LineFault, Met::Served)
        }
        Ok(None) => Met::Closed,
        Err(_) => Met::DoorsFault,
    }
}

/// The doors wait for a line while the other side, in a thread of its own, comes to ask.
pub fn serves_in_threads<
    R: Net<Listener = TcpListener, Stream = TcpStream> + Print + Threads + Wait + Sync,
>(rt: &R, port: u16) -> io::Result<()> {
    let mut doors = TcpDoors::new(rt);
    let is_open = doors.listen(port).is_ok();
    let shared = Mutex::new(&mut doors);
    let (met, answer) = join(rt, || serve(rt, &shared), || ask(rt, port));
    drop(shared);
    let is_answered = answer.is_ok_and(|reply| reply == *b"pong");
    println!(rt;
        "open: {is_open}; a request came through: {}, and its reply: {is_answered}, {:?}",
        met == Met::Served(*b"ping"),
        told(&doors)
    )
}
