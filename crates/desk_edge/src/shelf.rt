ghost use Rattle.std.specs.Prelude.{◌≡◌, ◌≢◌, ℕ, ◌<◌, List, IfOk, IsErrOf};
ghost use Rattle.desk_edge.specs.Content.{Content, IsSame};
ghost use Rattle.desk_edge.specs.Faults.{CountsFaults};

use crate::keep_fault::KeepFault;
use crate::keeper::Keeper;
use std::alloc::Global;
use std::marker::Send;

/// The place where stores are kept by name. A store that is open is lent until it is closed. A shelf needn't tell what the store of a
/// name keeps while it is lent.
///
/// As for a keeper, the clauses on what is kept go from the state after a call back to the one before it.
pub trait Shelf {
    /// A store of this shelf, while it is open.
    type Store: Keeper + Send;

    // How many faults were counted so far. The count never falls.
    ghost faults: { Self → ℕ };

    // That the store of this name is open, and hasn't been closed.
    ghost IsLent: { Self → List ℕ → Type 0 };

    // That the shelf tells what the store of this name keeps.
    ghost Tells: { Self → List ℕ → Type 0 };

    // What the store of each name keeps, where the shelf tells that. A store that was never opened keeps nothing.
    ghost content: { Self → List ℕ → Content };

    // How many faults the store of this name had counted as it was given back last.
    ghost count: { Self → List ℕ → ℕ };

    /// Opens the store of this name; one that wasn't there is made, and is empty. Its count of faults begins at 0. Stores that are lent
    /// stay so.
    ///
    /// `Failed` comes exactly where a fault was counted in this call.
    fn open_store(&mut self, alloc: Global, name: &[u8]) -> Result<Self::Store, KeepFault>
        ensures fresh { IfOk result (λ store. Self.Store.Keeper.faults store ≡ 0) }
        ensures lent { IfOk result (λ store. IsLent self.new name.now) }
        ensures lends { (other : List ℕ) → IsLent self.old other → IsLent self.new other }
        ensures told { IfOk result (λ store. Self.Store.Keeper.Tells store
            → Tells self.old name.now × IsSame (content self.old name.now) (Self.Store.Keeper.content store)) }
        ensures others { (other : List ℕ) → Tells self.new other → Tells self.old other × IsSame (content self.old other) (content self.new other) }
        ensures faults { CountsFaults (IsErrOf result KeepFault.Failed) (faults self.old) (faults self.new) };

    /// Takes an open store back, which is lent no more; those of other names stay lent. It takes no memory and is never refused. The
    /// shelf's count rises exactly where the store has counted a fault.
    fn close_store(&mut self, name: &[u8], store: Self::Store)
        requires { IsLent self.old name.now }
        ensures back { IsLent self.new name.now → ⊥ }
        ensures lends { (other : List ℕ) → other ≢ name.now → IsLent self.old other → IsLent self.new other }
        ensures count { count self.new name.now ≡ Self.Store.Keeper.faults store }
        ensures kept { Tells self.new name.now → Self.Store.Keeper.Tells store × IsSame (Self.Store.Keeper.content store) (content self.new name.now) }
        ensures others { (other : List ℕ) → other ≢ name.now → Tells self.new other → Tells self.old other × IsSame (content self.old other) (content self.new other) }
        ensures faults { CountsFaults (0 < Self.Store.Keeper.faults store) (faults self.old) (faults self.new) };
}
