use crate::session_steps::{console_of, empty_shelf, outcome_over, outcome_with_faults};
use desk_edge::{Link, ListDoors, Shelf};
use desk_testing::{check, expect_eq};
use desk_top::{WordsFault, launch, words};
use std::alloc::Global;
use std::env::{Env, FillError};
use std::sync::Wait;
use std::test::Fail;
use std::thread::Threads;

/// Words, their input, and the status and the text that it is answered by.
type Case = (&'static [&'static str], &'static [u8], u8, &'static str);

const CHECK: &[&str] = &["check", "2024-01-23", "3"];

const HEAD: &[u8] = b"D,1,ACME,7,2024-01-23";

const ANSWER: &str = "check 2024-01-23 kind 3 supplier ACME declaration 7\ncompliant\n";

const NO_HEAD: &str = "bad-declaration no-head\n";

const TOO_LONG: &str = "refused input-too-long\n";

/// Whether a check that reads its input in so many calls, and then writes once, ends as it should where
/// its call of this number fails: with 3 and nothing written at a read, with 3 in place of 0 and nothing
/// written at the write, and as meant where the call isn't made.
fn ends_well_at<R: Wait + Sync + Threads>(
    rt: &R,
    alloc: Global,
    row: &(&[u8], usize, u64, u8, &str),
    call: u64,
) -> Result<bool, Fail> {
    let (input, piece, reads, meant, text) = *row;
    let (status, written) = outcome_with_faults(rt, alloc, CHECK, input, piece, &[call])?;
    let is_read = call <= reads;
    let is_heard = !is_read && call - reads > 1;
    let is_fault = is_read || (meant == 0 && !is_heard);
    let told = if is_heard { text.as_bytes() } else { b"" };
    Ok(written.as_slice() == told && status == if is_fault { 3 } else { meant })
}

/// Fails at the first row whose check ends otherwise than it should where each of its calls fails in turn, and where none does.
fn end_well<R: Wait + Sync + Threads>(
    rt: &R,
    alloc: Global,
    rows: &[(&[u8], usize, u64, u8, &str)],
) -> Result<(), Fail> {
    for (place, row) in rows.iter().enumerate() {
        for call in 1..=row.2.saturating_add(2) {
            if !ends_well_at(rt, alloc, row, call)? {
                return Err(Fail::new(format_args!("call {call} of row {place}")));
            }
        }
    }
    Ok(())
}

#[test]
fn each_call_of_the_console_may_fail(rt: HostRuntime) -> Result<(), Fail> {
    let long = vec![in rt.alloc(); b'\n'; 65_537]?;
    end_well(
        &rt,
        rt.alloc(),
        &[
            (HEAD, 100_000, 2, 0, ANSWER),
            (HEAD, 1, 22, 0, ANSWER),
            (b"x", 1, 2, 6, NO_HEAD),
            (long.as_slice(), 100_000, 9, 6, TOO_LONG),
        ],
    )
}

/// Whether a command over a console with room for four bytes ends with the status and writes just this.
fn is_cut_short<R: Wait + Sync + Threads>(
    rt: &R,
    alloc: Global,
    case: &Case,
) -> Result<bool, Fail> {
    let (words, input, status, written) = *case;
    let console = console_of(alloc, input, 64, 4, &[])?;
    let mut shelf = empty_shelf(alloc);
    let (ended, text) = outcome_over(rt, alloc, words, console, &mut shelf)?;
    Ok(ended == status && text.as_slice() == written.as_bytes())
}

/// Fails at the first case that doesn't end so over a console with room for four bytes.
fn are_cut_short<R: Wait + Sync + Threads>(
    rt: &R,
    alloc: Global,
    cases: &[Case],
) -> Result<(), Fail> {
    for case in cases {
        let is_cut = is_cut_short(rt, alloc, case)?;
        check(is_cut, case.3)?;
    }
    Ok(())
}

#[test]
fn a_line_that_is_cut_short_changes_no_status(rt: HostRuntime) -> Result<(), Fail> {
    are_cut_short(
        &rt,
        rt.alloc(),
        &[
            (CHECK, HEAD, 3, "chec"),
            (CHECK, b"x", 6, "bad-"),
            (&["fly"], b"x", 2, "desk"),
        ],
    )
}

// An environment of three words, of which the last may be no text.
#[derive(Drop)]
struct ThreeWords {
    last: u8,
}

impl Env for ThreeWords {
    fn arg(&self, i: usize, buf: &mut [u8]) -> Result<usize, FillError> {
        if i > 2 {
            return Err(FillError::NotPresent);
        }
        match buf.first_mut() {
            Some(first) => {
                *first = if i == 2 { self.last } else { b'w' };
                Ok(1)
            }
            None => Err(FillError::TooLong),
        }
    }

    fn var(&self, _name: &str, _buf: &mut [u8]) -> Result<usize, FillError> {
        Err(FillError::NotPresent)
    }

    fn var_at(&self, _i: usize, _buf: &mut [u8]) -> Result<usize, FillError> {
        Err(FillError::NotPresent)
    }
}

/// Fails unless the words of an environment are read where they are text.
fn are_read(alloc: Global) -> Result<(), Fail> {
    let read = words(&(ThreeWords { last: b'x' }, alloc))
        .ok()
        .ok_or("the words of a text")?;
    match read.as_slice() {
        [first, second] => expect_eq(&(first.as_str(), second.as_str()), &("w", "x")),
        _ => Err(Fail::new("more or fewer words of a text")),
    }
}

/// Fails unless the words of an environment aren't read where one is no text.
fn are_unread(alloc: Global) -> Result<(), Fail> {
    let fault = words(&(ThreeWords { last: 0xff }, alloc)).err();
    expect_eq(&fault, &Some(WordsFault::NotText))
}

/// The status of the program. It has no clause, as `exit_status_of` has none.
fn launched<R: Wait + Sync + Threads, L: Link, S: Shelf>(
    rt: &R,
    alloc: Global,
    words: Result<Vec<String>, WordsFault>,
    console: &mut L,
    shelf: &mut S,
) -> u8 {
    let mut doors = ListDoors::new(Vec::new(alloc), Vec::new(alloc));
    launch(rt, alloc, words, console, shelf, &mut doors)
}

/// Fails unless the program ends with this status for these words, and writes just this line.
fn is_launched<R: Wait + Sync + Threads>(
    rt: &R,
    alloc: Global,
    words: Result<Vec<String>, WordsFault>,
    status: u8,
    line: &'static str,
) -> Result<(), Fail> {
    let mut console = console_of(alloc, b"", 1, 64, &[])?;
    let mut shelf = empty_shelf(alloc);
    let ended = launched(rt, alloc, words, &mut console, &mut shelf);
    check(
        ended == status && console.written() == line.as_bytes(),
        line,
    )
}

#[test]
fn the_words_of_an_environment_are_read_and_want_of_memory_is_told(
    rt: HostRuntime,
) -> Result<(), Fail> {
    let (rt, alloc) = (&rt, rt.alloc());
    are_read(alloc)?;
    are_unread(alloc)?;
    is_launched(rt, alloc, Err(WordsFault::OutOfMemory), 8, "desk: memory\n")
}
