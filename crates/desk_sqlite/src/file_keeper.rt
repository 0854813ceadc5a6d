ghost use Rattle.std.specs.Prelude.{◌≡◌, ◌≢◌, Err, IsErrOf, IfSome, OnErr, OnOk, None, IfOk, IsTrue, option_copied, true};
ghost use Rattle.desk_edge.specs.Content.{IsChanged, IsFirstPast, IsSame, is_past, key_of};
ghost use Rattle.desk_edge.specs.Faults.{CountsFaults};
ghost use Rattle.sqlite_std_file.specs.File.{file_is_usable};

use crate::keeper::SqlKeeper;
use crate::refusal::keep_fault_of;
use desk_edge::{Change, KeepFault, Keeper, Key, Record};
use sqlite::{Connection, File, FileStore, Files, Options, Start, Unknown};
use sqlite_disk::Disk;
use sqlite_std_file::OpenError;
use std::alloc::Global;
use std::hash::{BuildHasher, RandomState};
use std::io::ErrorKind;
use std::rt::HostRuntime;

/// How many pages of the file are kept in memory, 4,096 bytes each. The room for them is taken as the file is opened, however small it is.
///
/// Records are read and written in the order of their keys, so few pages serve as well as many. The library's own choice is 2,000.
const CACHE_PAGES: usize = 64;

/// How many written pages are kept in memory until they go to the log, where they count for nothing before the commit. The library's own
/// choice is 2,000, which is more than an import of a large desk writes.
const SPILL_PAGES: usize = 64;

/// A store in a file that was found by its path.
///
/// Which file a path finds, and who else writes it, no clause can tell: so it tells nothing of what it keeps. What its records are is
/// proved of the keeper within, over any disk that a clause can speak of, and that it asks this one is in the clauses of its calls.
#[derive(Drop)]
pub struct FileKeeper<D: Disk + Drop> {
    keeper: SqlKeeper<FileStore<D>>,
}

impl FileKeeper<File> {
    /// Opens the file and makes it ready; one that isn't there is made. `Failed` comes where the path isn't UTF-8 or the file can't be
    /// opened, as where it is no database or another process has it open, where the database is of somebody else, in which nothing is
    /// changed, or where it can't be made ready.
    pub(crate) fn open(rt: &HostRuntime, path: &[u8]) -> Result<FileKeeper<File>, KeepFault>
        ensures count { IfOk result (λ store. store.keeper.faults ≡ 0) }
        ensures ours { IfOk result (λ store. store.keeper.is_ours ≡ true) }
    {
        let Ok(path) = std::str::from_utf8(path) else {
            return Err(KeepFault::Failed);
        };
        match SqlKeeper::over(connection_at(rt, path)?) {
            Ok(keeper) => Ok(FileKeeper { keeper }),
            // (the database isn't closed, by which its log would be copied into it)
            Err((fault, _)) => Err(fault),
        }
    }
}

/// A connection to the database file at the path.
fn connection_at(rt: &HostRuntime, path: &str) -> Result<Connection<FileStore<File>>, KeepFault> {
    let options = options(rt)?;
    let files = files_at(rt, path)?;
    match Connection::open_files(rt.alloc(), files, options) {
        Ok(connection) => Ok(connection),
        Err((error, _)) => Err(keep_fault_of(error)),
    }
}

/// The database file at the path and its log, made where they aren't there. As in the library, two sorts of names find no file.
fn files_at(rt: &HostRuntime, path: &str) -> Result<Files<File>, KeepFault>
    ensures log { IfOk result (λ files. IsTrue (file_is_usable ⟦<Unknown as Start>⟧ files.log)) }
    ensures db { IfOk result (λ files. IsTrue (file_is_usable ⟦<Unknown as Start>⟧ files.db)) }
{
    if path == ":memory:" || path.starts_with("file:") {
        return Err(KeepFault::Failed);
    }
    match sqlite_std_file::open(rt, path, Unknown) {
        Ok(files) => Ok(files),
        Err(OpenError::OutOfMemory) => Err(KeepFault::OutOfMemory),
        Err(OpenError::Io(error)) if error.kind() == ErrorKind::OutOfMemory => {
            Err(KeepFault::OutOfMemory)
        }
        Err(_) => Err(KeepFault::Failed),
    }
}

/// How a file is opened: as the library does, with fewer pages in memory.
fn options(rt: &HostRuntime) -> Result<Options, KeepFault> {
    let Ok(state) = RandomState::new(rt) else {
        return Err(KeepFault::Failed);
    };
    let mut options = Options::new(state.hash_one(&0u8));
    options.cache_pages = CACHE_PAGES;
    options.spill_pages = SPILL_PAGES;
    Ok(options)
}

impl<D: Disk + Drop> FileKeeper<D> {
    /// How many faults were counted.
    pub(crate) fn faults(&self) -> u64
        ensures { result ≡ self.now.keeper.faults }
    {
        self.keeper.faults()
    }

    /// Closes the file.
    ///
    /// Each commit stands in the log beside the file; closing copies the log into the file. Where that fails, the log stays, and the
    /// next open reads both: so nothing is lost, and there is nothing to tell.
    pub(crate) fn close(self) {
        let FileKeeper { keeper } = self;
        let _copied = keeper.release().close();
    }
}

impl<D: Disk + Drop> Keeper for FileKeeper<D> {
    ghost NeverFails = { ⊥ };

    ghost faults = { λ k. k.keeper.faults };

    ghost Tells = { λ k. ⊥ };

    ghost content = { λ k key. None };

    fn next_record(
        &mut self,
        alloc: Global,
        after: Option<&Key>,
    ) -> Result<Option<Record>, KeepFault>
        ensures told { ⊥ → ⊥ }
        ensures stays { ⊥ → IsSame (λ key. None) (λ key. None) }
        ensures gives { IfOk result (λ found. ⊥ → IsFirstPast (λ key. None) (option_copied after.entry) found) }
        ensures later { IfOk result (λ found. IfSome found (λ kept. is_past (option_copied after.entry) (key_of kept) ≡ true)) }
        ensures faults { CountsFaults (IsErrOf result KeepFault.Failed) self.old.keeper.faults self.new.keeper.faults }
        ensures sure { ⊥ → result ≢ Err KeepFault.Failed }
        ensures ours { self.new.keeper.is_ours ≡ self.old.keeper.is_ours }
        ensures ready { self.new.keeper.is_ready ≡ self.old.keeper.is_ready }

        // The record is the first that the keeper within has past the key, where that one tells.
        ensures within_told { ⟦<SqlKeeper<FileStore<D>> as Keeper>⟧.Tells self.new.keeper → ⟦<SqlKeeper<FileStore<D>> as Keeper>⟧.Tells self.old.keeper }
        ensures within_stays { ⟦<SqlKeeper<FileStore<D>> as Keeper>⟧.Tells self.new.keeper
            → IsSame (⟦<SqlKeeper<FileStore<D>> as Keeper>⟧.content self.old.keeper) (⟦<SqlKeeper<FileStore<D>> as Keeper>⟧.content self.new.keeper) }
        ensures within_gives { IfOk result (λ found. ⟦<SqlKeeper<FileStore<D>> as Keeper>⟧.Tells self.new.keeper
            → IsFirstPast (⟦<SqlKeeper<FileStore<D>> as Keeper>⟧.content self.new.keeper) (option_copied after.entry) found) }
    {
        self.keeper.next_record(alloc, after)
    }

    fn commit(&mut self, alloc: Global, batch: &[Change]) -> Result<(), KeepFault>
        ensures told { ⊥ → ⊥ }
        ensures ok { OnOk result (⊥ → IsChanged batch.now (λ key. None) (λ key. None)) }
        ensures err { OnErr result (⊥ → IsSame (λ key. None) (λ key. None)) }
        ensures faults { CountsFaults (IsErrOf result KeepFault.Failed) self.old.keeper.faults self.new.keeper.faults }
        ensures sure { ⊥ → result ≢ Err KeepFault.Failed }
        ensures ours { self.new.keeper.is_ours ≡ self.old.keeper.is_ours }
        ensures ready { self.new.keeper.is_ready ≡ self.old.keeper.is_ready }

        // The changes are made in the keeper within, or none of them, where that one tells.
        ensures within_told { ⟦<SqlKeeper<FileStore<D>> as Keeper>⟧.Tells self.new.keeper → ⟦<SqlKeeper<FileStore<D>> as Keeper>⟧.Tells self.old.keeper }
        ensures within_ok { OnOk result (⟦<SqlKeeper<FileStore<D>> as Keeper>⟧.Tells self.new.keeper
            → IsChanged batch.now (⟦<SqlKeeper<FileStore<D>> as Keeper>⟧.content self.old.keeper) (⟦<SqlKeeper<FileStore<D>> as Keeper>⟧.content self.new.keeper)) }
        ensures within_err { OnErr result (⟦<SqlKeeper<FileStore<D>> as Keeper>⟧.Tells self.new.keeper
            → IsSame (⟦<SqlKeeper<FileStore<D>> as Keeper>⟧.content self.old.keeper) (⟦<SqlKeeper<FileStore<D>> as Keeper>⟧.content self.new.keeper)) }
    {
        self.keeper.commit(alloc, batch)
    }
}
