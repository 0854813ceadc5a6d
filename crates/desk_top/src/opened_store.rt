ghost use Rattle.std.specs.Prelude.{◌≡◌};

use desk_edge::{Change, KeepFault, Keeper, Key, Record};
use std::alloc::Global;
use std::marker::{Brand, Model, PhantomData};

/// A name for a store that was opened: whether it told then what it keeps.
pub trait OpenedNaming {
    ghost Told: { Type 0 };
}

impl OpenedNaming for Brand {
    ghost Told = { Unit {0} };
}

/// An opened store that is known by its type also behind a lock: where it tells what it keeps, it told that when it was opened.
pub(crate) struct OpenedStore<K: Keeper, N: OpenedNaming> {
    keeper: K,
    of: PhantomData<N>,
}

impl<K: Keeper + Drop, N: OpenedNaming> Drop for OpenedStore<K, N> {
    fn drop(self) {
        let OpenedStore { keeper: _, of: _ } = self;
    }
}

impl<K: Keeper, N: OpenedNaming> Model for OpenedStore<K, N> {
    ghost Value = { K };

    ghost view = { λ store. store.keeper };

    ghost invariant = { λ store. K.Tells store.keeper → N.Told };
}

impl<K: Keeper, N: OpenedNaming> OpenedStore<K, N> {
    /// The store under its name.
    pub(crate) fn new(keeper: K) -> OpenedStore<K, N>
        requires { K.Tells keeper → N.Told }
        ensures { result ≡ keeper }
    {
        OpenedStore {
            keeper,
            of: PhantomData,
        }
    }

    /// Gives the store back.
    pub(crate) fn into_keeper(self) -> K
        ensures same { result ≡ self }
        ensures told { K.Tells result → N.Told }
    {
        let OpenedStore { keeper, of: _ } = self;
        keeper
    }
}

impl<K: Keeper, N: OpenedNaming> Keeper for OpenedStore<K, N> {
    ghost NeverFails = { K.NeverFails };

    ghost faults = { λ store. K.faults store };

    ghost Tells = { λ store. K.Tells store };

    ghost content = { λ store. K.content store };

    fn next_record(
        &mut self,
        alloc: Global,
        after: Option<&Key>,
    ) -> Result<Option<Record>, KeepFault> {
        self.keeper.next_record(alloc, after)
    }

    fn commit(&mut self, alloc: Global, batch: &[Change]) -> Result<(), KeepFault> {
        self.keeper.commit(alloc, batch)
    }
}
