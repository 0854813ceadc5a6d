use crate::stores::{
    Disks, adopted, commit, disks_of, faults, new_database, next, ready, released, run,
    stopping_store, store_of, stored,
};
use desk_edge::{Change, KeepFault, Key, Record};
use desk_sqlite::SqlKeeper;
use desk_testing::{bytes, check};
use desk_text::OutOfMemory;
use sqlite::{Alter, Connection};
use std::alloc::Global;
use std::test::Fail;

// The steps are written for any store, and take it, so that the proof of a test does not carry what a store is made of. Three functions
// alone name the store of the tests: that it is a store is proved anew in each that does.

/// A kind, a code, and the body that is put, or none where the record is dropped.
type Told = (u8, &'static str, Option<&'static str>);

fn key(alloc: Global, kind: u8, code: &str) -> Result<Key, OutOfMemory> {
    let code = bytes(alloc, code)?;
    Ok(Key { kind, code })
}

fn record(alloc: Global, kind: u8, code: &str, body: &str) -> Result<Record, OutOfMemory> {
    let code = bytes(alloc, code)?;
    let body = bytes(alloc, body)?;
    Ok(Record { kind, code, body })
}

fn change(alloc: Global, told: &Told) -> Result<Change, OutOfMemory> {
    let (kind, code, body) = *told;
    match body {
        Some(body) => Ok(Change::Put(record(alloc, kind, code, body)?)),
        None => Ok(Change::Drop(key(alloc, kind, code)?)),
    }
}

/// Keeps these changes as one batch.
fn keep<S: Alter>(keeper: &mut SqlKeeper<S>, alloc: Global, rows: &[Told]) -> Result<(), Fail> {
    let mut batch = Vec::new(alloc);
    for told in rows {
        batch.push(change(alloc, told)?)?;
    }
    commit(keeper, alloc, batch.as_slice())?;
    Ok(())
}

/// The record in a line.
fn line(alloc: Global, found: &Record) -> Result<String, Fail> {
    let code = String::from_utf8_lossy(alloc, found.code.as_slice())?;
    let body = String::from_utf8_lossy(alloc, found.body.as_slice())?;
    Ok(format!(in alloc; "{} {code} {body}\n", found.kind)?)
}

/// Writes what the keeper has, a line a record.
fn listed<S: Alter>(keeper: &mut SqlKeeper<S>, alloc: Global) -> Result<String, Fail> {
    let mut lines = String::new(alloc);
    let mut after: Option<Key> = None;
    for _ in 0..100 {
        let Some(found) = next(keeper, alloc, after.as_ref())? else {
            return Ok(lines);
        };
        lines.push_str(line(alloc, &found)?.as_str())?;
        after = Some(Key {
            kind: found.kind,
            code: found.code,
        });
    }
    Ok(lines)
}

/// Fails unless the keeper has these records, a line a record, and says which it has.
fn has<S: Alter>(keeper: &mut SqlKeeper<S>, alloc: Global, lines: &str) -> Result<(), Fail> {
    let found = listed(keeper, alloc)?;
    if found.as_str() == lines {
        return Ok(());
    }
    Err(Fail::new(format_args!("the keeper has {}", found.as_str())))
}

/// Fails unless the keeper counted so many faults, and says how many it did.
fn counted<S: Alter>(keeper: &SqlKeeper<S>, count: u64) -> Result<(), Fail> {
    let found = faults(keeper);
    if found == count {
        return Ok(());
    }
    Err(Fail::new(format_args!("{found} faults")))
}

fn keeps_order<S: Alter>(keeper: &mut SqlKeeper<S>, alloc: Global) -> Result<(), Fail> {
    ready(keeper)?;
    keep(
        keeper,
        alloc,
        &[
            (2, "b", Some("first")),
            (2, "a", Some("")),
            (1, "z", Some("x")),
            (255, "a", Some("last")),
            (2, "b", Some("second")),
        ],
    )?;
    has(keeper, alloc, "1 z x\n2 a \n2 b second\n255 a last\n")?;
    keep(keeper, alloc, &[(2, "a", None), (9, "a", None)])?;
    has(keeper, alloc, "1 z x\n2 b second\n255 a last\n")?;
    counted(keeper, 0)
}

#[test]
fn records_come_by_kind_and_then_by_the_bytes_of_the_code(rt: HostRuntime) -> Result<(), Fail> {
    goes_over_disks(Trial::Order, rt.alloc())
}

/// Puts four records at once of which one has a key that is kept, and then four of which two have one key.
fn puts_four_over_others<S: Alter>(keeper: &mut SqlKeeper<S>, alloc: Global) -> Result<(), Fail> {
    ready(keeper)?;
    keep(keeper, alloc, &[(1, "b", Some("old"))])?;
    keep(
        keeper,
        alloc,
        &[
            (1, "a", Some("p")),
            (1, "b", Some("new")),
            (1, "c", Some("q")),
            (2, "a", Some("r")),
        ],
    )?;
    has(keeper, alloc, "1 a p\n1 b new\n1 c q\n2 a r\n")?;
    keep(
        keeper,
        alloc,
        &[
            (1, "c", None),
            (3, "a", Some("s")),
            (3, "b", Some("t")),
            (3, "c", Some("u")),
            (4, "a", Some("first")),
            (4, "b", Some("v")),
            (4, "a", Some("second")),
            (4, "c", Some("w")),
        ],
    )?;
    has(
        keeper,
        alloc,
        "1 a p\n1 b new\n2 a r\n3 a s\n3 b t\n3 c u\n4 a second\n4 b v\n4 c w\n",
    )?;
    counted(keeper, 0)
}

#[test]
fn four_records_are_put_in_at_once_where_one_is_kept_already_or_comes_twice(
    rt: HostRuntime,
) -> Result<(), Fail> {
    goes_over_disks(Trial::Four, rt.alloc())
}

/// The record of this number, which has three digits.
fn numbered(alloc: Global, number: u8) -> Result<Record, Fail> {
    let code = format!(in alloc; "{number}")?;
    Ok(record(alloc, 1, code.as_str(), "x")?)
}

/// The key of the record of this number.
fn key_of(alloc: Global, number: u8) -> Result<Key, Fail> {
    let code = format!(in alloc; "{number}")?;
    Ok(key(alloc, 1, code.as_str())?)
}

/// Keeps the records of the numbers from 100 to 199 as one batch.
fn keep_hundred<S: Alter>(keeper: &mut SqlKeeper<S>, alloc: Global) -> Result<(), Fail> {
    let mut batch = Vec::new(alloc);
    for number in 100..200u8 {
        batch.push(Change::Put(numbered(alloc, number)?))?;
    }
    commit(keeper, alloc, batch.as_slice())?;
    Ok(())
}

/// Fails unless the keeper gives this record behind that of the number.
fn gives_behind<S: Alter>(
    keeper: &mut SqlKeeper<S>,
    alloc: Global,
    number: u8,
    wanted: Option<Record>,
) -> Result<(), Fail> {
    let after = key_of(alloc, number)?;
    let found = next(keeper, alloc, Some(&after))?;
    check(found == wanted, "another record")
}

/// Fails unless the keeper gives, behind each record of these numbers, the one of the next number.
fn gives_in_turn<S: Alter>(
    keeper: &mut SqlKeeper<S>,
    alloc: Global,
    first: u8,
    last: u8,
) -> Result<(), Fail> {
    for number in first..last {
        let wanted = numbered(alloc, number.saturating_add(1))?;
        gives_behind(keeper, alloc, number, Some(wanted))?;
    }
    Ok(())
}

/// Fails unless a hundred records come in turn, and those behind a commit as it left them.
fn goes_on_behind_a_commit<S: Alter>(keeper: &mut SqlKeeper<S>, alloc: Global) -> Result<(), Fail> {
    ready(keeper)?;
    keep_hundred(keeper, alloc)?;
    gives_in_turn(keeper, alloc, 100, 165)?;
    keep(keeper, alloc, &[(1, "166", Some("new")), (1, "170", None)])?;
    gives_behind(keeper, alloc, 165, Some(record(alloc, 1, "166", "new")?))?;
    gives_in_turn(keeper, alloc, 166, 169)?;
    gives_behind(keeper, alloc, 169, Some(numbered(alloc, 171)?))?;
    gives_in_turn(keeper, alloc, 171, 199)?;
    gives_behind(keeper, alloc, 199, None)
}

#[test]
fn more_records_than_are_read_at_once_come_in_turn_and_those_behind_a_commit_as_it_left_them(
    rt: HostRuntime,
) -> Result<(), Fail> {
    goes_over_disks(Trial::Commit, rt.alloc())
}

/// Keeps one batch after the other, up to the first that is refused. It gives how many were acknowledged.
fn filled<S: Alter>(keeper: &mut SqlKeeper<S>, alloc: Global) -> Result<u8, Fail> {
    for kind in 0..4u8 {
        let batch = vec![in alloc;
            change(alloc, &(kind, "a", Some("x")))?,
            change(alloc, &(kind, "b", Some("y")))?,
        ]?;
        if commit(keeper, alloc, batch.as_slice()).is_err() {
            return Ok(kind);
        }
    }
    Ok(4)
}

/// Makes the store ready and fills it up to the first batch that is refused. It gives how many were acknowledged, and the store.
fn filled_store<S: Alter + Drop>(alloc: Global, mut keeper: SqlKeeper<S>) -> Result<(u8, S), Fail> {
    let mut acknowledged = 0u8;
    if ready(&mut keeper).is_ok() {
        acknowledged = filled(&mut keeper, alloc)?;
    }
    Ok((acknowledged, stored(keeper)))
}

/// Fills a store over a log and a database that pass so many calls on. It gives how many batches were acknowledged, and what is left
/// of the two.
fn filled_until_a_stop(alloc: Global, log_calls: u64, db_calls: u64) -> Result<(u8, Disks), Fail> {
    match stopping_store(alloc, log_calls, db_calls) {
        Ok(keeper) => {
            let (acknowledged, store) = filled_store(alloc, keeper)?;
            Ok((acknowledged, disks_of(store)))
        }
        Err(files) => Ok((0, files)),
    }
}

/// The lines of no batch, of the first one, of the first two and so on.
const WHOLE: [&str; 5] = [
    "",
    "0 a x\n0 b y\n",
    "0 a x\n0 b y\n1 a x\n1 b y\n",
    "0 a x\n0 b y\n1 a x\n1 b y\n2 a x\n2 b y\n",
    "0 a x\n0 b y\n1 a x\n1 b y\n2 a x\n2 b y\n3 a x\n3 b y\n",
];

/// Whether the lines are those of the first batches, each whole, and of all that were acknowledged.
fn are_first_batches(lines: &str, acknowledged: u8) -> bool {
    WHOLE
        .iter()
        .skip(usize::from(acknowledged))
        .any(|whole| *whole == lines)
}

/// Whether a stop after so many calls leaves whole batches, and all that were acknowledged.
fn is_whole_after(alloc: Global, log_calls: u64, db_calls: u64) -> Result<bool, Fail> {
    let (acknowledged, left) = filled_until_a_stop(alloc, log_calls, db_calls)?;
    let lines = listed(&mut store_of(alloc, &left)?, alloc)?;
    Ok(are_first_batches(lines.as_str(), acknowledged))
}

/// The first count of calls after which a stop of the log, or of the database, leaves something else.
fn first_wrong_stop(alloc: Global) -> Result<Option<u64>, Fail> {
    for calls in 0..6u64 {
        let of_log = is_whole_after(alloc, calls, u64::MAX)?;
        let of_database = is_whole_after(alloc, u64::MAX, calls)?;
        if !of_log || !of_database {
            return Ok(Some(calls));
        }
    }
    Ok(None)
}

#[test]
fn a_stop_at_a_first_call_leaves_whole_batches_and_all_that_were_acknowledged(
    rt: HostRuntime,
) -> Result<(), Fail> {
    assert_eq!(rt; first_wrong_stop(rt.alloc())?, None);
    Ok(())
}

/// Whether the keeper fails to give the record past the key.
fn fails_to_give<S: Alter>(keeper: &mut SqlKeeper<S>, alloc: Global, after: Option<&Key>) -> bool {
    next(keeper, alloc, after).err() == Some(KeepFault::Failed)
}

fn fails_until_ready<S: Alter>(keeper: &mut SqlKeeper<S>, alloc: Global) -> Result<(), Fail> {
    check(fails_to_give(keeper, alloc, None), "a record is given")?;
    let is_refused = commit(keeper, alloc, &[]) == Err(KeepFault::Failed);
    check(is_refused, "a batch is kept")?;
    counted(keeper, 2)?;
    ready(keeper)?;
    commit(keeper, alloc, &[])?;
    counted(keeper, 2)
}

#[test]
fn before_it_is_ready_each_call_is_a_counted_fault(rt: HostRuntime) -> Result<(), Fail> {
    goes_over_disks(Trial::NotReady, rt.alloc())
}

/// Makes the table of a store with two rows, of which the second is no record.
fn fill_with_a_wrong_row<S: Alter>(conn: &mut Connection<S>) -> Result<(), Fail> {
    run(
        conn,
        "CREATE TABLE record (kind INTEGER, code BLOB, body BLOB)",
    )?;
    run(
        conn,
        "INSERT INTO record VALUES (1, x'61', x'62'), (300, x'61', x'62')",
    )?;
    Ok(())
}

fn gives_the_first_record_alone<S: Alter>(
    keeper: &mut SqlKeeper<S>,
    alloc: Global,
) -> Result<(), Fail> {
    ready(keeper)?;
    let first = next(keeper, alloc, None)?;
    let wanted = Some(record(alloc, 1, "a", "b")?);
    check(first == wanted, "another first record")?;
    let after = key(alloc, 1, "a")?;
    let is_fault = fails_to_give(keeper, alloc, Some(&after));
    check(is_fault, "the wrong row is given")?;
    counted(keeper, 1)
}

fn stops_at_a_wrong_row<S: Alter + Drop>(
    mut conn: Connection<S>,
    alloc: Global,
) -> Result<(), Fail> {
    fill_with_a_wrong_row(&mut conn)?;
    gives_the_first_record_alone(&mut adopted(conn), alloc)
}

#[test]
fn a_row_that_is_no_record_is_a_counted_fault(rt: HostRuntime) -> Result<(), Fail> {
    goes_over_disks(Trial::WrongRow, rt.alloc())
}

/// The connection of a keeper that is not made ready.
fn unready<S: Alter + Drop>(mut keeper: SqlKeeper<S>) -> Result<Connection<S>, Fail> {
    let is_refused = ready(&mut keeper) == Err(KeepFault::Failed);
    check(is_refused, "made ready inside a transaction")?;
    counted(&keeper, 1)?;
    Ok(released(keeper))
}

fn is_ready_behind_a_transaction<S: Alter + Drop>(mut conn: Connection<S>) -> Result<(), Fail> {
    run(&mut conn, "BEGIN")?;
    let mut conn = unready(adopted(conn))?;
    run(&mut conn, "ROLLBACK")?;
    let mut keeper = adopted(conn);
    ready(&mut keeper)?;
    counted(&keeper, 0)
}

#[test]
fn a_connection_inside_a_transaction_is_not_made_ready(rt: HostRuntime) -> Result<(), Fail> {
    goes_over_disks(Trial::Transaction, rt.alloc())
}

/// What is tried of a keeper over a new database.
#[derive(Clone, Copy)]
enum Trial {
    Order,
    Four,
    Commit,
    NotReady,
    WrongRow,
    Transaction,
}

/// Fails unless the trial goes as it should.
fn goes<S: Alter + Drop>(trial: Trial, conn: Connection<S>, alloc: Global) -> Result<(), Fail> {
    match trial {
        Trial::Order => keeps_order(&mut adopted(conn), alloc),
        Trial::Four => puts_four_over_others(&mut adopted(conn), alloc),
        Trial::Commit => goes_on_behind_a_commit(&mut adopted(conn), alloc),
        Trial::NotReady => fails_until_ready(&mut adopted(conn), alloc),
        Trial::WrongRow => stops_at_a_wrong_row(conn, alloc),
        Trial::Transaction => is_ready_behind_a_transaction(conn),
    }
}

/// The same over a database on two new disks.
fn goes_over_disks(trial: Trial, alloc: Global) -> Result<(), Fail> {
    goes(trial, new_database(alloc)?, alloc)
}
