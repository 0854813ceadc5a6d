//! The tests of the doors of `desk_edge` at a port of this machine. They are a program, since they open sockets: the gate runs it, and
//! compares the lines that it writes.
#![tactic(auto)]

mod exchange;
mod opening;
mod peers;

use crate::exchange::serves_in_threads;
use crate::opening::{free_port, opens_once, stays_on_this_machine};
use crate::peers::outlives_its_peers;
use std::io;

fn main(rt: HostRuntime) -> io::Result<()> {
    let port = free_port(&rt)?;
    opens_once(&rt, port)?;
    stays_on_this_machine(&rt, port)?;
    serves_in_threads(&rt, port)?;
    outlives_its_peers(&rt, port)
}
