ghost use Rattle.std.specs.Prelude.{◌≡◌, []};
ghost use Rattle.desk_top.specs.KeptBodies.{kept_in};

use crate::kept_bodies::{
    clear_all, first_past, keys_of, make_room, put_all, ready_all, record_of,
};
use desk_edge::{Change, KeepFault, Keeper, Key, Record};
use desk_text::Bytes;
use std::alloc::Global;
use std::collections::BTreeMap;
use std::marker::Model;

/// A keeper in memory that never fails: what a session keeps its records in that is given no store.
///
/// It keeps them in a tree, in which a call takes a few searches for each change.
#[derive(Debug, Drop)]
pub struct SureKeeper {
    bodies: BTreeMap<Key, Option<Bytes>>,
}

impl Model for SureKeeper {
    ghost use Rattle.desk_top.specs.KeptBodies.{Bodies, IsClear};

    ghost Value = { Bodies };

    ghost view = { λ k. k.bodies.entries };

    ghost invariant = { λ k. IsClear k.bodies.entries };
}

impl SureKeeper {
    /// A keeper of nothing. It takes no memory.
    pub fn new(alloc: Global) -> SureKeeper
        ensures { result ≡ [] }
    {
        SureKeeper {
            bodies: BTreeMap::new(alloc),
        }
    }
}

/// It counts no fault, so that no call of it answers `Failed`.
impl Keeper for SureKeeper {
    ghost NeverFails = { Unit {0} };

    ghost faults = { λ _. 0 };

    ghost Tells = { λ _. Unit {0} };

    ghost content = { kept_in };

    fn next_record(
        &mut self,
        alloc: Global,
        after: Option<&Key>,
    ) -> Result<Option<Record>, KeepFault> {
        match first_past(&self.bodies, after) {
            Some((key, body)) => Ok(Some(record_of(alloc, key, body)?)),
            None => Ok(None),
        }
    }

    fn commit(&mut self, alloc: Global, batch: &[Change]) -> Result<(), KeepFault> {
        let changes = ready_all(alloc, batch)?;
        let keys = keys_of(alloc, changes.as_slice())?;
        if let Err(fault) = make_room(alloc, &mut self.bodies, keys.as_slice()) {
            clear_all(&mut self.bodies, keys.as_slice());
            return Err(fault.into());
        }
        put_all(&mut self.bodies, changes);
        clear_all(&mut self.bodies, keys.as_slice());
        Ok(())
    }
}
