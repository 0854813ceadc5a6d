//! The tests of `desk_publish`. They are a program, since most of them run on threads: the gate runs it, and compares the lines that it
//! writes, which are the same whatever the schedule. With a word it measures instead.
#![tactic(auto)]

mod counting;
mod ending;
mod held;
mod measure;
mod met;
mod race;
mod refusals;
mod report;
mod share;
mod watching;
mod writing;

use crate::ending::{Ended, end};
use crate::measure::measure;
use crate::race::{SEATS, race};
use crate::refusals::{Settled, refusals};
use crate::report::Report;
use crate::share::share;
use desk_publish::{BlankBook, OutOfMemory};
use std::marker::Brand;
use std::{env, io};

fn main(rt: HostRuntime) -> io::Result<()> {
    let alloc = rt.alloc();
    if env::args(&rt)?.nth(1).is_some() {
        return measure::<Brand, _>(&rt, alloc, BlankBook::new());
    }
    tell_report(&rt, "race", race::<Brand, _>(&rt, alloc, BlankBook::new()))?;
    tell_report(
        &rt,
        "share",
        share::<Brand, _>(&rt, alloc, BlankBook::new()),
    )?;
    tell_settled(&rt, refusals::<Brand, _>(&rt, alloc, BlankBook::new()))?;
    tell_end(&rt, 0, end::<Brand, _>(&rt, alloc, BlankBook::new(), 0))?;
    tell_end(&rt, 3, end::<Brand, _>(&rt, alloc, BlankBook::new(), 3))?;
    tell_end(
        &rt,
        SEATS,
        end::<Brand, _>(&rt, alloc, BlankBook::new(), SEATS),
    )
}

fn tell_report(rt: &impl Print, name: &str, found: Result<Report, OutOfMemory>) -> io::Result<()> {
    match found {
        Ok(found) => println!(rt;
            "{name}: each of {SEATS} seats saw {} entries at the end; {} looks weren't let in, and {} saw less than was known",
            found.entries, found.not_entered, found.fell
        ),
        Err(_) => println!(rt; "{name}: no memory"),
    }
}

fn tell_settled(rt: &impl Print, found: Result<Settled, OutOfMemory>) -> io::Result<()> {
    match found {
        Ok(found) => println!(rt;
            "refusals: settles that were refused {:?}, and what was seen after each {:?}",
            found.is_refused, found.seen
        ),
        Err(_) => println!(rt; "refusals: no memory"),
    }
}

fn tell_end(rt: &impl Print, kept: usize, found: Result<Ended, OutOfMemory>) -> io::Result<()> {
    match found {
        Ok(found) => println!(rt;
            "ending: {kept} of {SEATS} seats were kept; {} looks were let in before the press was closed, {} after; {} entry was learnt then",
            found.before, found.after, found.learnt
        ),
        Err(_) => println!(rt; "ending: no memory"),
    }
}
