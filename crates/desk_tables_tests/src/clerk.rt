use crate::helpers::{edit_of, open, tabbed};
use desk_clerk::{Accepted, OpenFault, OpenRefused, StoredDesk, SubmitFault};
use desk_edge::{Change, Keeper, MapKeeper, Record};
use desk_testing::{check, expect_eq};
use desk_text::OutOfMemory;
use std::alloc::Global;
use std::fmt::Debug;
use std::test::Fail;

// The steps are written for any keeper, and take it, so that the proof of a test doesn't carry what a keeper is made of.

/// A kind, a code, and a body with its fields set apart by `|` here.
type Told = (u8, &'static str, &'static str);

/// The number that an edit gets, the code of its ticket, and its text with its fields set apart by `|` here.
type Sent = (u64, &'static str, &'static str);

/// The edits of an ordinary desk.
const EDITS: &[Sent] = &[
    (1, "E:t1", "substance|lead-oxide|Lead oxide|1317-36-8"),
    (2, "E:t2", "member|lead-oxide|lead|928320"),
    (
        3,
        "E:t3",
        "exemption|III-6C|3|6(c)|lead|3,4|2014-07-22|2026-06-30||40000|Copper alloy",
    ),
    (4, "E:t4", "candidate|dehp|2008-10-28"),
    (5, "E:t5", "candidate|lead|2018-06-27"),
    (
        6,
        "D:ACME:7",
        "declare|ACME|7|2024-01-23|2|BRASS|Brass|1000000|1|lead|35000|1|lead|6(c)|PVC|Cable sheath|500000|1|dehp|1000|0",
    ),
    (7, "E:t6", "part|PIN|article|Pin"),
    (8, "E:t7", "line|PIN|BRASS|3"),
    (9, "E:t8", "part|BOARD|assembly|Board"),
    (10, "E:t9", "line|BOARD|PIN|8"),
    (11, "E:t10", "part|CABLE|article|Cable"),
    (12, "E:t11", "line|CABLE|PVC|2"),
    (13, "E:t12", "part|GATEWAY|assembly|Gateway"),
    (14, "E:t13", "line|GATEWAY|BOARD|1"),
    (15, "E:t14", "line|GATEWAY|CABLE|2"),
    (16, "E:t15", "product|GATEWAY|3"),
    (17, "E:t16", "ship|GATEWAY|2023|5"),
    (18, "E:t17", "ship|GATEWAY|2024|1000"),
    (19, "E:t18", "unship|GATEWAY|2023|5"),
];

fn put(alloc: Global, told: Told) -> Result<Change, OutOfMemory> {
    let (kind, code, body) = told;
    Ok(Change::Put(Record {
        kind,
        code: tabbed(alloc, code)?,
        body: tabbed(alloc, body)?,
    }))
}

/// A store of these records, which were put in by its first call, and whose calls of these numbers fail.
fn store(alloc: Global, records: &[Told], failing: &[u64]) -> Result<MapKeeper, Fail> {
    let failing = failing.to_vec(alloc)?;
    let mut keeper = MapKeeper::new(Vec::new(alloc), failing);
    let mut batch = Vec::new(alloc);
    for &told in records {
        batch.push(put(alloc, told)?)?;
    }
    keeper.commit(alloc, batch.as_slice())?;
    Ok(keeper)
}

/// Whether an edit got this number, or none as the keeper failed.
fn is_answer(answer: &Result<Accepted, SubmitFault>, number: Option<u64>) -> bool {
    match answer {
        Ok(accepted) => number == Some(accepted.number),
        Err(SubmitFault::KeeperFault) => number.is_none(),
        Err(_) => false,
    }
}

/// Fails unless the edit gets this number, or none as the keeper fails.
fn gets<K: Keeper>(
    alloc: Global,
    desk: &mut StoredDesk<K>,
    sent: &Sent,
    number: Option<u64>,
) -> Result<(), Fail> {
    let edit = edit_of(alloc, sent.1, sent.2)?;
    let gets = is_answer(&desk.accept(alloc, &edit), number);
    check(gets, "an edit gets another answer")
}

/// Fails unless the edit gets its number. Where it is to fail, it fails first, without being entered, and is sent again.
fn is_entered<K: Keeper>(
    alloc: Global,
    desk: &mut StoredDesk<K>,
    sent: &Sent,
    fails: bool,
) -> Result<(), Fail> {
    if fails {
        gets(alloc, desk, sent, None)?;
        check(desk.number() < sent.0, "an edit that failed is entered")?;
    }
    gets(alloc, desk, sent, Some(sent.0))
}

/// Fails unless each edit gets its number, of which the last is 19. Where they are to fail, each fails first and is sent again.
fn are_entered<K: Keeper>(
    alloc: Global,
    desk: &mut StoredDesk<K>,
    fails: bool,
) -> Result<(), Fail> {
    for sent in EDITS {
        is_entered(alloc, desk, sent, fails)?;
    }
    expect_eq(&desk.number(), &19)
}

/// The keeper of a desk where each edit gets its number. Where they are to fail, each fails first and is sent again.
fn kept<K: Keeper + Drop + Debug>(alloc: Global, keeper: K, fails: bool) -> Result<K, Fail> {
    let mut desk = open(alloc, keeper)?;
    are_entered(alloc, &mut desk, fails)?;
    Ok(desk.close())
}

/// The calls that fail, one at each edit. The first two open the store.
const FAILING: [u64; 19] = [
    3, 5, 7, 9, 11, 13, 15, 17, 19, 21, 23, 25, 27, 29, 31, 33, 35, 37, 39,
];

/// The store where each edit got its number once it was kept, and the same number after the store was closed and opened again.
fn kept_after_faults(alloc: Global) -> Result<MapKeeper, Fail> {
    let keeper = MapKeeper::new(Vec::new(alloc), FAILING.to_vec(alloc)?);
    let once = kept(alloc, keeper, true)?;
    kept(alloc, once, false)
}

/// Fails unless a store has so many records at each edit of which the keeper failed once.
fn keeps_after_faults(alloc: Global, records: usize) -> Result<(), Fail> {
    let kept = kept_after_faults(alloc)?;
    expect_eq(&kept.records().len(), &records)
}

#[test]
fn an_edit_whose_commit_fails_leaves_no_trace_and_is_kept_then(
    rt: HostRuntime,
) -> Result<(), Fail> {
    // Twenty of the start tables, nineteen tickets, and the eighteen rows that the edits leave.
    keeps_after_faults(rt.alloc(), 57)
}

/// Whether the keeper failed at the opening, once, and has two records.
fn is_left(answer: &Result<StoredDesk<MapKeeper>, OpenRefused<MapKeeper>>) -> bool {
    match answer {
        Err(
            OpenRefused {
                fault: OpenFault::KeeperFault,
                keeper,
            },
        ) => keeper.faults() == 1 && keeper.records().len() == 2,
        _ => false,
    }
}

/// Two records that can be kept.
const TWO: [Told; 2] = [(4, "A", "1|assembly|Frame"), (4, "B", "1|assembly|Cover")];

/// Fails unless an opening of a store of two records, whose call of this number fails, is refused for it and leaves the records, or
/// isn't where it is not to fail.
fn fails_at(alloc: Global, call: u64, fails: bool) -> Result<(), Fail> {
    let keeper = store(alloc, &TWO, &[call])?;
    let is_left = is_left(&open(alloc, keeper));
    expect_eq(&(call, is_left), &(call, fails))
}

/// Fails at the first call of an opening, up to one past its last, that fails otherwise than it should.
fn fails_at_each(alloc: Global) -> Result<(), Fail> {
    // The first call puts the records in. The opening takes three: a call for each record, and one that finds no more.
    for call in 2..6 {
        fails_at(alloc, call, call < 5)?;
    }
    Ok(())
}

#[test]
fn an_opening_fails_at_each_of_its_calls(rt: HostRuntime) -> Result<(), Fail> {
    fails_at_each(rt.alloc())
}
