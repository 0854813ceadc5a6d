ghost use Rattle.std.specs.Prelude.{IfOk, IsTrue};
ghost use Rattle.sqlite_disk.specs.Memory.{memory_is_usable};

use desk_edge::{Change, KeepFault, Keeper, Key, Record};
use desk_sqlite::SqlKeeper;
use sqlite::{Alter, Connection, Error, FileStore, Files, Leftover, Options};
use sqlite_disk::{Disk, Fuse, Memory};
use std::alloc::Global;
use std::test::Fail;

// Most of these have no clause, and they are written for any store or disk, so that the proof of a test does not carry the state of
// each call. All tests run over one sort of disk, since the whole database is compiled anew for each sort.

/// Disks in memory that can be made to stop.
pub(crate) type Disks = Files<Fuse<Memory>>;

/// A store on such disks.
pub(crate) type Store = FileStore<Fuse<Memory>>;

/// More calls than a test makes.
pub(crate) const NO_STOP: u64 = u64::MAX;

/// A keeper over the database of the connection.
pub(crate) fn adopted<S: Alter>(conn: Connection<S>) -> SqlKeeper<S> {
    SqlKeeper::adopt(conn)
}

pub(crate) fn ready<S: Alter>(keeper: &mut SqlKeeper<S>) -> Result<(), KeepFault> {
    keeper.ready()
}

pub(crate) fn commit<S: Alter>(
    keeper: &mut SqlKeeper<S>,
    alloc: Global,
    batch: &[Change],
) -> Result<(), KeepFault> {
    keeper.commit(alloc, batch)
}

pub(crate) fn next<S: Alter>(
    keeper: &mut SqlKeeper<S>,
    alloc: Global,
    after: Option<&Key>,
) -> Result<Option<Record>, KeepFault> {
    keeper.next_record(alloc, after)
}

pub(crate) fn faults<S: Alter>(keeper: &SqlKeeper<S>) -> u64 {
    keeper.faults()
}

pub(crate) fn released<S: Alter>(keeper: SqlKeeper<S>) -> Connection<S> {
    keeper.release()
}

pub(crate) fn run<S: Alter>(conn: &mut Connection<S>, sql: &str) -> Result<usize, Error> {
    conn.execute(sql, &[])
}

/// The disks that an opening left.
fn files_left<D: Disk>(left: Leftover<D>) -> Files<D> {
    left.into_files()
}

/// A connection to the store on these disks.
fn connected<D: Disk + Drop>(
    alloc: Global,
    log: D,
    db: D,
) -> Result<Connection<FileStore<D>>, (Error, Files<D>)>
    requires { IsTrue (D.Disk.is_usable log) × IsTrue (D.Disk.is_usable db) }
{
    match Connection::open_files(alloc, Files { log, db }, Options::new(1)) {
        Ok(conn) => Ok(conn),
        Err((error, left)) => Err((error, files_left(left))),
    }
}

/// A keeper over the database of the connection, which is made ready.
fn made_ready<S: Alter + Drop>(conn: Connection<S>) -> Result<SqlKeeper<S>, Fail> {
    let mut keeper = adopted(conn);
    ready(&mut keeper)?;
    Ok(keeper)
}

/// A store on these disks that is ready.
fn ready_on<D: Disk + Drop>(alloc: Global, log: D, db: D) -> Result<SqlKeeper<FileStore<D>>, Fail>
    requires { IsTrue (D.Disk.is_usable log) × IsTrue (D.Disk.is_usable db) }
{
    match connected(alloc, log, db) {
        Ok(conn) => made_ready(conn),
        Err((error, _)) => Err(Fail::from(error)),
    }
}

/// The store of a keeper that ends.
pub(crate) fn stored<S: Alter + Drop>(keeper: SqlKeeper<S>) -> S {
    keeper.release().into_store()
}

/// The disks of a store that is closed.
pub(crate) fn disks_of<D: Disk>(store: FileStore<D>) -> Files<D> {
    store.close()
}

/// A database on two new disks.
pub(crate) fn new_database(alloc: Global) -> Result<Connection<Store>, Fail> {
    let log = Fuse::new(Memory::new(alloc), NO_STOP);
    let db = Fuse::new(Memory::new(alloc), NO_STOP);
    match connected(alloc, log, db) {
        Ok(conn) => Ok(conn),
        Err((error, _)) => Err(Fail::from(error)),
    }
}

/// A disk with these bytes.
fn disk_of(alloc: Global, bytes: &[u8]) -> Result<Memory, Fail>
    ensures { IfOk result (λ disk. IsTrue (memory_is_usable disk)) }
{
    let mut disk = Memory::new(alloc);
    if !bytes.is_empty() {
        disk.write_at(0, bytes)?;
    }
    if !disk.may_be_used() {
        return Err(Fail::new("the disk may not be used"));
    }
    Ok(disk)
}

/// The store on copies of these disks.
pub(crate) fn store_of(alloc: Global, disks: &Disks) -> Result<SqlKeeper<Store>, Fail> {
    let log = disk_of(alloc, disks.log.inner().bytes())?;
    let db = disk_of(alloc, disks.db.inner().bytes())?;
    ready_on(alloc, Fuse::new(log, NO_STOP), Fuse::new(db, NO_STOP))
}

/// A store that may not be ready, on new disks that pass so many calls on and refuse each further one, or the disks where it isn't
/// opened.
pub(crate) fn stopping_store(
    alloc: Global,
    log_calls: u64,
    db_calls: u64,
) -> Result<SqlKeeper<Store>, Disks> {
    let log = Fuse::new(Memory::new(alloc), log_calls);
    let db = Fuse::new(Memory::new(alloc), db_calls);
    match connected(alloc, log, db) {
        Ok(conn) => Ok(adopted(conn)),
        Err((_, files)) => Err(files),
    }
}
