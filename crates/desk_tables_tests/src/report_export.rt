use crate::report_outside::{answer_to_export, link};
use desk_edge::{Link, MemoryLink};
use desk_report::ReportFault;
use desk_tables::Tables;
use desk_testing::{check, expect_eq};
use std::alloc::Global;
use std::test::Fail;

/// Room for the lines of any desk here.
const AMPLE: usize = 10_000;

/// Fails unless an export of the start tables to the link answers so.
fn answers_start<L: Link>(
    link: &mut L,
    alloc: Global,
    answer: Result<u64, ReportFault>,
) -> Result<(), Fail> {
    let tables = Tables::start(alloc)?;
    expect_eq(&answer_to_export(alloc, &tables, link), &answer)
}

/// A link with so much room that fails on these calls, behind an export of the start tables that answers so.
fn exported_start(
    alloc: Global,
    room: usize,
    failing: &[u64],
    answer: Result<u64, ReportFault>,
) -> Result<MemoryLink, Fail> {
    let mut link = link(alloc, "", room, failing)?;
    answers_start(&mut link, alloc, answer)?;
    Ok(link)
}

/// How many bytes the lines of the first of the start tables have.
const FIRST_TABLE: usize = 402;

/// Fails unless these bytes are so many, with which the file begins.
fn are_first(written: &[u8], length: usize, file: &[u8]) -> Result<(), Fail> {
    expect_eq(&written.len(), &length)?;
    check(file.starts_with(written), "another beginning")
}

/// Fails unless an export over a link with so much room that fails on these calls writes this many bytes, with which the file begins.
fn is_begun(
    alloc: Global,
    room: usize,
    failing: &[u64],
    length: usize,
    file: &[u8],
) -> Result<(), Fail> {
    let link = exported_start(alloc, room, failing, Err(ReportFault::LinkFault))?;
    are_first(link.written(), length, file)
}

/// Fails unless a write that fails leaves what came before it: a part of the first line where the room ends in it, and the first
/// table where the second write fails.
fn leaves_beginnings(alloc: Global) -> Result<(), Fail> {
    let whole = exported_start(alloc, AMPLE, &[], Ok(20))?;
    is_begun(alloc, 24, &[], 24, whole.written())?;
    is_begun(alloc, AMPLE, &[2], FIRST_TABLE, whole.written())
}

#[test]
fn a_write_that_fails_leaves_a_beginning(rt: HostRuntime) -> Result<(), Fail> {
    leaves_beginnings(rt.alloc())
}
