ghost use Rattle.std.specs.Prelude.{◌≡◌, ◌≢◌, ℕ, true, Err, IfOk, IfSome, OnOk, OnErr, IsErrOf, option_copied};
ghost use Rattle.desk_edge.specs.Content.{Content, IsChanged, IsFirstPast, IsSame, is_past, key_of};
ghost use Rattle.desk_edge.specs.Faults.{CountsFaults};

use crate::change::Change;
use crate::keep_fault::KeepFault;
use crate::key::Key;
use crate::record::Record;
use std::alloc::Global;

/// A store that keeps a body under each of finitely many keys.
///
/// A keeper counts its faults, and may tell what it keeps: in memory it does, a database does while nothing went wrong with it. A
/// database can promise no more than this: what is told after a call was told before it, and then the call did what it says. So the
/// clauses on content go from the state after a call back to the one before it.
pub trait Keeper {
    // That no call of any keeper of this type ever fails: what is known of one behind a lock is known by its type alone.
    ghost NeverFails: { Type 0 };

    // How many faults were counted so far. The count never falls.
    ghost faults: { Self → ℕ };

    // That the keeper tells what it keeps.
    ghost Tells: { Self → Type 0 };

    // What it keeps, where it tells that.
    ghost content: { Self → Content };

    /// The first record past the key, or the first of all where no key is given. Keys are ordered by kind, and then by the bytes of
    /// the code.
    ///
    /// A record that is given has a key past the one that was given also where the keeper doesn't tell what it keeps: so a reader
    /// that asks on from each record comes to an end. `Failed` comes exactly where a fault was counted in this call.
    fn next_record(
        &mut self,
        alloc: Global,
        after: Option<&Key>,
    ) -> Result<Option<Record>, KeepFault>
        ensures told { Tells self.new → Tells self.old }
        ensures stays { Tells self.new → IsSame (content self.old) (content self.new) }
        ensures gives { IfOk result (λ found. Tells self.new → IsFirstPast (content self.new) (option_copied after.entry) found) }
        ensures later { IfOk result (λ found. IfSome found (λ kept. is_past (option_copied after.entry) (key_of kept) ≡ true)) }
        ensures faults { CountsFaults (IsErrOf result KeepFault.Failed) (faults self.old) (faults self.new) }
        ensures sure { NeverFails → result ≢ Err KeepFault.Failed };

    /// Makes all the changes, one after the other, or none of them.
    ///
    /// `Failed` comes exactly where a fault was counted in this call. After it and after `OutOfMemory` nothing is changed.
    fn commit(&mut self, alloc: Global, batch: &[Change]) -> Result<(), KeepFault>
        ensures told { Tells self.new → Tells self.old }
        ensures ok { OnOk result (Tells self.new → IsChanged batch.now (content self.old) (content self.new)) }
        ensures err { OnErr result (Tells self.new → IsSame (content self.old) (content self.new)) }
        ensures faults { CountsFaults (IsErrOf result KeepFault.Failed) (faults self.old) (faults self.new) }
        ensures sure { NeverFails → result ≢ Err KeepFault.Failed };
}
