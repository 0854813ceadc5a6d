//! The substance compliance desk: the program, which hands what is real to `desk_top`.
#![tactic(auto)]

mod announced_doors;

use crate::announced_doors::AnnouncedDoors;
use desk_edge::{StdLink, TcpDoors};
use desk_sqlite::SqlShelf;
use desk_top::{launch, words};
use std::process::ExitCode;

fn main(rt: HostRuntime) -> ExitCode {
    let alloc = rt.alloc();
    let mut console = StdLink::new(rt.stdin(), rt.stdout());
    let mut shelf = SqlShelf::new(rt);
    let mut doors = AnnouncedDoors::new(rt, TcpDoors::new(rt));
    ExitCode::from(launch(&rt, alloc, words(&rt), &mut console, &mut shelf, &mut doors))
}
