use desk_edge::{Doors, TcpDoors};
use std::io;
use std::net::{Ipv4Addr, Net, TcpListener, TcpStream};

/// What doors tell: how many faults, how many lines were taken, and whether they are closed.
pub fn told<D: Doors>(doors: &D) -> (u64, u64, bool) {
    (doors.faults(), doors.taken(), doors.closed())
}

/// A port at which nobody listens.
pub fn free_port<R: Net<Listener = TcpListener, Stream = TcpStream>>(rt: &R) -> io::Result<u16> {
    let listener = TcpListener::bind(rt, (Ipv4Addr::LOCALHOST, 0))?;
    Ok(listener.local_addr()?.port())
}

/// Doors give no line before they are opened, and are not opened where others are.
pub fn opens_once<R: Net<Listener = TcpListener, Stream = TcpStream> + Print>(
    rt: &R,
    port: u16,
) -> io::Result<()> {
    let mut doors = TcpDoors::new(rt);
    let is_early = doors.next().is_err();
    println!(rt;
        "a line of doors that aren't open is refused: {is_early}, {:?}",
        told(&doors)
    )?;
    let is_open = doors.listen(port).is_ok();
    println!(rt; "the doors are opened: {is_open}, {:?}", told(&doors))?;
    let mut others = TcpDoors::new(rt);
    let is_second = others.listen(port).is_err();
    println!(rt;
        "others at the same port are refused: {is_second}, {:?}",
        told(&others)
    )
}

/// Doors are reached at 127.0.0.1 alone: not at 127.0.0.2, which is this machine as well.
pub fn stays_on_this_machine<R: Net<Listener = TcpListener, Stream = TcpStream> + Print>(
    rt: &R,
    port: u16,
) -> io::Result<()> {
    let mut doors = TcpDoors::new(rt);
    let is_open = doors.listen(port).is_ok();
    let is_met = TcpStream::connect(rt, (Ipv4Addr::LOCALHOST, port)).is_ok();
    let is_refused = TcpStream::connect(rt, (Ipv4Addr::new(127, 0, 0, 2), port)).is_err();
    println!(rt; "open: {is_open}; met at 127.0.0.1: {is_met}; refused at 127.0.0.2: {is_refused}")
}
