//! A desk over a database whose disks stop at one of their calls: which edits are there when they are opened again.

use crate::stores::{Disks, disks_of, ready, stopping_store, store_of, stored};
use desk_clerk::{StoredDesk, SubmitFault};
use desk_edge::Keeper;
use desk_fields::read_edit_text;
use desk_model::Edit;
use desk_sqlite::SqlKeeper;
use desk_text::{Bytes, OutOfMemory};
use sqlite::Alter;
use std::alloc::Global;
use std::test::Fail;

/// Twelve edits that a new desk takes: the code of the ticket of each, and its text with `|` for TAB.
const EDITS: &[(&str, &str)] = &[
    ("E:t1", "part|A|article|Pin"),
    ("E:t2", "part|B|assembly|Board"),
    ("E:t3", "line|B|A|8"),
    (
        "D:ACME:7",
        "declare|ACME|7|2024-01-23|1|PVC|Cable sheath|500000|1|dehp|1000|0",
    ),
    ("E:t4", "line|A|PVC|2"),
    ("E:t5", "product|B|3"),
    ("E:t6", "ship|B|2024|1000"),
    ("E:t7", "candidate|dehp|2008-10-28"),
    ("E:t8", "line|B|A|9"),
    ("E:t9", "unline|B|A"),
    ("E:t10", "substance|zinc|Zinc|"),
    ("E:t11", "member|zinc|lead|1"),
];

/// The text with TAB for each `|`.
fn bytes(alloc: Global, text: &str) -> Result<Bytes, OutOfMemory> {
    let mut bytes = Bytes::start(alloc);
    for &byte in text.as_bytes() {
        let own = if byte == b'|' { b'\t' } else { byte };
        bytes.push_all(&[own])?;
    }
    Ok(bytes)
}

/// A desk over this store.
fn opened<K: Keeper + Drop>(alloc: Global, keeper: K) -> Result<StoredDesk<K>, Fail> {
    match StoredDesk::open(alloc, keeper) {
        Ok(desk) => Ok(desk),
        Err(_) => Err(Fail::new("not opened")),
    }
}

/// The keeper of a desk that ends. This has no clause, as the next ones have none, so that the proof of a step doesn't carry what a
/// call says.
fn keeper_of<K: Keeper>(desk: StoredDesk<K>) -> K {
    desk.close()
}

/// The number that the edit gets, or none where the store failed.
fn numbered<K: Keeper>(
    alloc: Global,
    desk: &mut StoredDesk<K>,
    edit: Edit,
) -> Result<Option<u64>, Fail> {
    match desk.accept(alloc, &edit) {
        Ok(accepted) => Ok(Some(accepted.number)),
        Err(SubmitFault::KeeperFault) => Ok(None),
        Err(_) => Err(Fail::new("refused")),
    }
}

/// The number that the edit of this code and text gets, or none where the store failed.
fn submitted<K: Keeper>(
    alloc: Global,
    desk: &mut StoredDesk<K>,
    edit: (&str, &str),
) -> Result<Option<u64>, Fail> {
    let text = bytes(alloc, edit.1)?;
    let edit = read_edit_text(alloc, edit.0.as_bytes(), text.as_slice())?;
    numbered(alloc, desk, edit)
}

/// Enters the edits up to the first that isn't acknowledged. It gives how many were.
fn entered_into<K: Keeper>(alloc: Global, desk: &mut StoredDesk<K>) -> Result<u64, Fail> {
    let mut acknowledged = 0;
    for &edit in EDITS {
        match submitted(alloc, desk, edit)? {
            Some(number) => acknowledged = number,
            None => break,
        }
    }
    Ok(acknowledged)
}

/// A desk over this store, or the keeper where it isn't opened.
fn opened_or_kept<K: Keeper + Drop>(alloc: Global, keeper: K) -> Result<StoredDesk<K>, K> {
    match StoredDesk::open(alloc, keeper) {
        Ok(desk) => Ok(desk),
        Err(refused) => Err(refused.keeper),
    }
}

/// Enters the edits up to the first that isn't acknowledged. It gives how many were, and the keeper.
fn entered<K: Keeper + Drop>(alloc: Global, keeper: K) -> Result<(u64, K), Fail> {
    match opened_or_kept(alloc, keeper) {
        Ok(mut desk) => {
            let acknowledged = entered_into(alloc, &mut desk)?;
            Ok((acknowledged, keeper_of(desk)))
        }
        Err(keeper) => Ok((0, keeper)),
    }
}

/// Makes a store ready and enters the edits. It gives how many were acknowledged, and the store.
fn entered_store<S: Alter + Drop>(
    alloc: Global,
    mut keeper: SqlKeeper<S>,
) -> Result<(u64, S), Fail> {
    if ready(&mut keeper).is_err() {
        return Ok((0, stored(keeper)));
    }
    let (acknowledged, keeper) = entered(alloc, keeper)?;
    Ok((acknowledged, stored(keeper)))
}

/// Enters the edits over a store whose disks stop after so many calls. It gives how many were acknowledged, and the disks.
fn entered_until_a_stop(
    alloc: Global,
    log_calls: u64,
    db_calls: u64,
) -> Result<(u64, Disks), Fail> {
    match stopping_store(alloc, log_calls, db_calls) {
        Ok(keeper) => {
            let (acknowledged, store) = entered_store(alloc, keeper)?;
            Ok((acknowledged, disks_of(store)))
        }
        Err(files) => Ok((0, files)),
    }
}

/// The numbers that all of the edits get when they are sent again.
fn numbers_again<K: Keeper>(
    alloc: Global,
    desk: &mut StoredDesk<K>,
) -> Result<Vec<Option<u64>>, Fail> {
    let mut numbers = Vec::new(alloc);
    for &edit in EDITS {
        numbers.push(submitted(alloc, desk, edit)?)?;
    }
    Ok(numbers)
}

/// Whether all edits have their numbers in order.
fn are_in_order(numbers: &[Option<u64>]) -> bool {
    numbers.len() == EDITS.len()
        && numbers
            .iter()
            .enumerate()
            .all(|(at, number)| *number == Some(at as u64 + 1))
}

/// Whether a store has each edit that was acknowledged and at most one more, and all edits, sent again, get their numbers in order.
fn has_first_edits<K: Keeper + Drop>(
    alloc: Global,
    keeper: K,
    acknowledged: u64,
) -> Result<bool, Fail> {
    let mut desk = opened(alloc, keeper)?;
    let had = desk.number();
    let is_prefix = had == acknowledged || had == acknowledged.saturating_add(1);
    let numbers = numbers_again(alloc, &mut desk)?;
    Ok(is_prefix && are_in_order(numbers.as_slice()))
}

/// Whether a stop of the disks after so many calls leaves the first edits, and how many were acknowledged.
fn tried(alloc: Global, log_calls: u64, db_calls: u64) -> Result<(bool, u64), Fail> {
    let (acknowledged, files) = entered_until_a_stop(alloc, log_calls, db_calls)?;
    let left = store_of(alloc, &files)?;
    let is_right = has_first_edits(alloc, left, acknowledged)?;
    Ok((is_right, acknowledged))
}

/// The first count of calls after which the log stops and the desk has other edits than the first, up to the count at which all are
/// acknowledged.
fn wrong_stop_of_the_log(alloc: Global) -> Result<Option<u64>, Fail> {
    for calls in 0..200u64 {
        let (is_right, acknowledged) = tried(alloc, calls, u64::MAX)?;
        if !is_right {
            return Ok(Some(calls));
        }
        if acknowledged == 12 {
            return Ok(None);
        }
    }
    Err(Fail::new("more calls than were tried"))
}

#[test]
fn a_stop_at_any_call_of_the_log_leaves_the_first_edits_and_all_that_were_acknowledged(
    rt: HostRuntime,
) -> Result<(), Fail> {
    assert_eq!(rt; wrong_stop_of_the_log(rt.alloc())?, None);
    Ok(())
}

/// The first count of calls after which the database stops and the desk has other edits than the first.
fn wrong_stop_of_the_database(alloc: Global) -> Result<Option<u64>, Fail> {
    for calls in 0..16u64 {
        if !tried(alloc, u64::MAX, calls)?.0 {
            return Ok(Some(calls));
        }
    }
    Ok(None)
}

#[test]
fn a_stop_at_a_first_call_of_the_database_leaves_the_first_edits_and_all_that_were_acknowledged(
    rt: HostRuntime,
) -> Result<(), Fail> {
    assert_eq!(rt; wrong_stop_of_the_database(rt.alloc())?, None);
    Ok(())
}
