ghost use Rattle.std.specs.Prelude.{◌≡◌, ◌<◌, ℕ, List, [], Err, IsErrOf, IfOk, None, true};
ghost use Rattle.desk_edge.specs.Content.{IsSame};
ghost use Rattle.desk_edge.specs.Faults.{CountsFaults};
ghost use Rattle.desk_edge.specs.Shelves.{is_name_among};

use crate::file_keeper::FileKeeper;
use desk_edge::{KeepFault, Lent, Shelf};
use sqlite::File;
use std::alloc::Global;
use std::rt::HostRuntime;

/// The stores that lie in files, the name of a store being the path of its file. A store that is lent isn't opened again.
///
/// It tells nothing of what the files keep, as [`FileKeeper`] says.
#[derive(Drop)]
pub struct SqlShelf {
    rt: HostRuntime,
    lent: Lent,
    faults: u64,
    count: u64,
}

impl SqlShelf {
    /// A shelf with no fault counted and no store lent.
    pub fn new(rt: HostRuntime) -> SqlShelf
        ensures { (result.faults ≡ 0) × (result.lent ≡ []) }
    {
        let lent = Lent::new(rt.alloc());
        SqlShelf {
            rt,
            lent,
            faults: 0,
            count: 0,
        }
    }

    /// How many faults were counted.
    pub fn faults(&self) -> u64
        ensures { result ≡ self.now.faults }
    {
        self.faults
    }
}

/// The store in the file at the path, which is entered among those that are lent.
fn open_and_lend(
    rt: &HostRuntime,
    lent: &mut Lent,
    path: &[u8],
) -> Result<FileKeeper<File>, KeepFault>
    ensures fresh { IfOk result (λ store. store.keeper.faults ≡ 0) }
    ensures lent { IfOk result (λ store. is_name_among lent.new path.now ≡ true) }
    ensures lends { (other : List ℕ) → is_name_among lent.old other ≡ true → is_name_among lent.new other ≡ true }
    ensures ours { IfOk result (λ store. store.keeper.is_ours ≡ true) }
{
    if lent.has(path) {
        return Err(KeepFault::Failed);
    }
    let store = FileKeeper::open(rt, path)?;
    if lent.enter(rt.alloc(), path).is_err() {
        store.close();
        return Err(KeepFault::OutOfMemory);
    }
    Ok(store)
}

impl Shelf for SqlShelf {
    type Store = FileKeeper<File>;

    ghost faults = { λ s. s.faults };

    ghost IsLent = { λ s name. is_name_among s.lent name ≡ true };

    ghost Tells = { λ s name. ⊥ };

    ghost content = { λ s name key. None };

    ghost count = { λ s name. s.count };

    fn open_store(&mut self, _alloc: Global, name: &[u8]) -> Result<FileKeeper<File>, KeepFault>
        ensures fresh { IfOk result (λ store. store.keeper.faults ≡ 0) }
        ensures lent { IfOk result (λ store. is_name_among self.new.lent name.now ≡ true) }
        ensures lends { (other : List ℕ) → is_name_among self.old.lent other ≡ true → is_name_among self.new.lent other ≡ true }
        ensures told { IfOk result (λ store. ⊥ → ⊥ × IsSame (λ key. None) (λ key. None)) }
        ensures others { (other : List ℕ) → ⊥ → ⊥ × IsSame (λ key. None) (λ key. None) }
        ensures faults { CountsFaults (IsErrOf result KeepFault.Failed) self.old.faults self.new.faults }

        // A database that isn't the one table of a store isn't opened as one.
        ensures ours { IfOk result (λ store. store.keeper.is_ours ≡ true) }
    {
        match open_and_lend(&self.rt, &mut self.lent, name) {
            Ok(store) => Ok(store),
            Err(KeepFault::OutOfMemory) => Err(KeepFault::OutOfMemory),
            Err(KeepFault::Failed) => {
                self.faults = self.faults.saturating_add(1);
                Err(KeepFault::Failed)
            }
        }
    }

    fn close_store(&mut self, name: &[u8], store: FileKeeper<File>) {
        self.lent.take(name);
        self.count = store.faults();
        self.faults = self.faults.saturating_add(u64::from(self.count > 0));
        store.close();
    }
}
