ghost use Rattle.std.specs.Prelude.{◌≡◌, ◌≢◌, Err, IfOk, OnErr, OnOk, IsErrOf};
ghost use Rattle.desk_clerk.specs.Clerk.{list_from};
ghost use Rattle.desk_edge.specs.Faults.{CountsFaults};
ghost use Rattle.desk_engine.specs.Engine.{lists_of};
ghost use Rattle.desk_front.specs.Sitting.{AnswersEdit};
ghost use Rattle.desk_history.specs.History.{Begins};

use crate::desk_edit::answer_as_editor;
use crate::edited::{EditFailed, Edited};
use crate::editor::Editor;
use crate::seat::Seat;
use desk_clerk::{Clerk, DeskBoard, DeskSeat};
use desk_edge::Keeper;
use desk_model::Edit;
use desk_publish::Naming;
use desk_text::Bytes;
use std::alloc::Global;
use std::sync::{Mutex, Wait};

/// An editor over a clerk behind a lock, which several connections ask, each by an editor of its own. It tells no list, since what is
/// behind a lock is known by its type alone.
#[derive(Drop)]
pub struct LockedClerk<'a, 'c, R, K: Keeper, J: Naming<DeskBoard>> {
    rt: &'a R,
    clerk: &'a Mutex<&'c mut Clerk<K, J>>,
    faults: u64,
}

impl<'a, 'c, R: Wait + Sync, K: Keeper, J: Naming<DeskBoard>> LockedClerk<'a, 'c, R, K, J> {
    /// An editor over this clerk, which has counted no fault. It takes no memory.
    pub fn new(rt: &'a R, clerk: &'a Mutex<&'c mut Clerk<K, J>>) -> LockedClerk<'a, 'c, R, K, J>
        ensures { result.faults ≡ 0 }
    {
        LockedClerk {
            rt,
            clerk,
            faults: 0,
        }
    }
}

/// For each edit it takes the lock and lends the clerk to `answer_edit`. Where the clerk hasn't as many edits as the seat has seen, it
/// gives the lock up and tries again.
impl<R: Wait + Sync, K: Keeper, J: Naming<DeskBoard>> Editor<DeskSeat<J>>
    for LockedClerk<'_, '_, R, K, J> {
    ghost use Rattle.std.specs.Prelude.{None};

    ghost NeverFails = { K.NeverFails };

    ghost faults = { λ locked. locked.faults };

    ghost given = { λ locked. None };

    fn edit(
        &mut self,
        alloc: Global,
        seat: &mut DeskSeat<J>,
        edit: Edit,
        out: &mut Bytes,
    ) -> Result<Edited, EditFailed> {
        edit_and_count(
            self.rt,
            alloc,
            self.clerk,
            &mut self.faults,
            seat,
            edit,
            out,
        )
    }
}

/// Has the edit answered by the clerk behind the lock, and counts where its keeper failed.
fn edit_and_count<R: Wait, K: Keeper, J: Naming<DeskBoard>>(
    rt: &R,
    alloc: Global,
    lock: &Mutex<&mut Clerk<K, J>>,
    faults: &mut u64,
    seat: &mut DeskSeat<J>,
    edit: Edit,
    out: &mut Bytes,
) -> Result<Edited, EditFailed>
    ensures grown { OnOk result (Begins (list_from (lists_of J.opening.engine) seat.old.list) (list_from (lists_of J.opening.engine) seat.new.list)) }
    ensures answer { IfOk result (λ answer. AnswersEdit (list_from (lists_of J.opening.engine) seat.old.list) (list_from (lists_of J.opening.engine) seat.new.list)
        edit answer out.old out.new) }
    ensures err { OnErr result ((out.new ≡ out.old) × (seat.new ≡ seat.old)) }
    ensures faults { CountsFaults (IsErrOf result EditFailed.KeeperFault) faults.old faults.new }
    ensures sure { K.NeverFails → result ≢ Err EditFailed.KeeperFault }
{
    match edit_behind(rt, alloc, lock, seat, edit, out) {
        Ok(answer) => Ok(answer),
        Err(EditFailed::KeeperFault) => {
            *faults = faults.saturating_add(1);
            Err(EditFailed::KeeperFault)
        }
        Err(EditFailed::OutOfMemory) => Err(EditFailed::OutOfMemory),
    }
}

/// Has the edit answered by the clerk behind the lock.
fn edit_behind<R: Wait, K: Keeper, J: Naming<DeskBoard>>(
    rt: &R,
    alloc: Global,
    lock: &Mutex<&mut Clerk<K, J>>,
    seat: &mut DeskSeat<J>,
    edit: Edit,
    out: &mut Bytes,
) -> Result<Edited, EditFailed>
    ensures grown { OnOk result (Begins (list_from (lists_of J.opening.engine) seat.old.list) (list_from (lists_of J.opening.engine) seat.new.list)) }
    ensures answer { IfOk result (λ answer. AnswersEdit (list_from (lists_of J.opening.engine) seat.old.list) (list_from (lists_of J.opening.engine) seat.new.list)
        edit answer out.old out.new) }
    ensures err { OnErr result ((out.new ≡ out.old) × (seat.new ≡ seat.old)) }
    ensures sure { K.NeverFails → result ≢ Err EditFailed.KeeperFault }
{
    'turns: for _ in rt.forever() {
        let mut guard = lock.lock(rt);
        let clerk = &mut **guard;
        if Seat::seen(&*seat) <= clerk.number() {
            return answer_as_editor(rt, alloc, clerk, seat, edit, out);
        }
    }
    unreachable!()
}
