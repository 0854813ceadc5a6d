ghost use Rattle.std.specs.Prelude.{◌≡◌, ◌≤◌, false};
ghost use Rattle.desk_edge.specs.Faults.{one_more};

use crate::doors::Doors;
use crate::failed::Failed;
use crate::tcp_link::TcpLink;
use std::io;
use std::io::ErrorKind;
use std::net::{Ipv4Addr, Net, TcpListener, TcpStream};
use std::time::Duration;

/// So many seconds a connection may say nothing, or take nothing of what is written to it, before that is a fault of its link.
const PATIENCE: u32 = 60;

/// The doors at a port of this machine, at 127.0.0.1 alone. They are never closed.
///
/// What goes wrong with a connection is no fault of the doors, but of the connection: one that is given up by the other side before it
/// is taken, or that can't be made ready, is passed over. All else that the system refuses is a counted fault, and so is a call for a
/// line before the doors were opened.
#[derive(Drop)]
pub struct TcpDoors<R> {
    rt: R,
    listener: Option<TcpListener>,
    patience: u32,
    faults: u64,
    taken: u64,
}

impl<R: Net<Listener = TcpListener, Stream = TcpStream>> TcpDoors<R> {
    /// Doors that aren't opened yet. A connection that says nothing for 60 seconds is given up.
    pub fn new(rt: R) -> TcpDoors<R>
        ensures faults { ⟦<TcpDoors<R> as Doors>⟧.faults result ≡ 0 }
        ensures taken { ⟦<TcpDoors<R> as Doors>⟧.taken result ≡ 0 }
    {
        TcpDoors::with_patience(rt, PATIENCE)
    }

    /// Doors that aren't opened yet. A connection that says nothing for so many seconds is given up.
    pub fn with_patience(rt: R, seconds: u32) -> TcpDoors<R>
        requires { 1 ≤ seconds }
        ensures faults { ⟦<TcpDoors<R> as Doors>⟧.faults result ≡ 0 }
        ensures taken { ⟦<TcpDoors<R> as Doors>⟧.taken result ≡ 0 }
    {
        TcpDoors {
            rt,
            listener: None,
            patience: seconds,
            faults: 0,
            taken: 0,
        }
    }

    /// Counts a fault, up to the last value of the count.
    fn refused(&mut self) -> Failed
        ensures taken_stays { self.new.taken ≡ self.old.taken }
        ensures never_falls { self.old.faults ≤ self.new.faults }
        ensures one_more { self.new.faults ≡ one_more self.old.faults }
    {
        self.faults = self.faults.saturating_add(1);
        Failed
    }
}

/// The stream as a link: what is written is sent at once, and neither a read nor a write waits for longer than so many seconds.
fn ready(stream: TcpStream, patience: u32) -> io::Result<TcpLink> {
    let patience = Some(Duration::from_secs(u64::from(patience)));
    stream.set_nodelay(true)?;
    stream.set_read_timeout(patience)?;
    stream.set_write_timeout(patience)?;
    Ok(TcpLink::new(stream))
}

/// The next connection that can be made ready, or none where the system refuses to take any.
fn next_ready(listener: &TcpListener, patience: u32) -> Option<TcpLink> {
    for _ in 0..u64::MAX {
        match listener.accept() {
            Ok((stream, _)) => {
                if let Ok(link) = ready(stream, patience) {
                    return Some(link);
                }
            }
            Err(e) if e.kind() == ErrorKind::ConnectionAborted => {}
            Err(_) => return None,
        }
    }
    None
}

impl<R: Net<Listener = TcpListener, Stream = TcpStream>> Doors for TcpDoors<R> {
    type Line = TcpLink;

    ghost faults = { λ doors. doors.faults };

    ghost taken = { λ doors. doors.taken };

    ghost is_closed = { λ _. false };

    ghost NeverFails = { ⊥ };

    ghost NeverCloses = { Unit {0} };

    fn listen(&mut self, port: u16) -> Result<(), Failed> {
        match TcpListener::bind(&self.rt, (Ipv4Addr::LOCALHOST, port)) {
            Ok(listener) => {
                self.listener = Some(listener);
                Ok(())
            }
            Err(_) => Err(self.refused()),
        }
    }

    fn next(&mut self) -> Result<Option<TcpLink>, Failed> {
        let found = match &self.listener {
            Some(listener) => next_ready(listener, self.patience),
            None => None,
        };
        match found {
            Some(line) => {
                self.taken = self.taken.saturating_add(1);
                Ok(Some(line))
            }
            None => Err(self.refused()),
        }
    }

    fn faults(&self) -> u64 {
        self.faults
    }

    fn taken(&self) -> u64 {
        self.taken
    }

    fn closed(&self) -> bool {
        false
    }
}
