ghost use Rattle.std.specs.Prelude.{◌≡◌, ◌≢◌, ◌≤◌, ◌++◌, ◌⊎◌, None, Err, is_ok, true, IfOk, OnErr, OnOk, IsErrOf};
ghost use mathlib.Core.List.{IsPrefix};
ghost use Rattle.desk_clerk.specs.Clerk.{keeper_of, list_from, current_tables};
ghost use Rattle.desk_clerk.specs.Published.{IsTakenIn};
ghost use Rattle.desk_edge.specs.Faults.{CountsFaults};
ghost use Rattle.desk_engine.specs.Engine.{lists_of};
ghost use Rattle.desk_front.specs.Sitting.{AnswersEdit, edited_of};
ghost use Rattle.desk_front.specs.Replies.{reply_to_edit};
ghost use Rattle.desk_history.specs.History.{Begins, number_of};
ghost use Rattle.desk_history.specs.Step.{kept_number, step};
ghost use Rattle.desk_model.specs.Lists.{number_at};

use crate::edited::{EditFailed, Edited};
use crate::seat::Seat;
use crate::wording::{push_accepted, push_refused};
use desk_clerk::{Clerk, DeskBoard, DeskSeat, SubmitFault};
use desk_edge::Keeper;
use desk_model::Edit;
use desk_publish::Naming;
use desk_text::Bytes;
use std::alloc::Global;
use std::sync::Wait;

/// Submits an edit to the clerk, appends the body of the 200 or 409 that answers it at the clerk's whole list, and has the seat learn that
/// list. The body's `version` is the number of that list, and its `seen` that of the seat's list at entry. It may wait for a reader that
/// is looking.
///
/// The clerk has at least as many edits as the seat has seen. `KeeperFault`: the keeper counted a fault, and the edit isn't kept.
/// `OutOfMemory`: the clerk is as `submit` says, or the edit is kept and published, or it is refused, and there was no memory to say so.
/// After a failure `out` and the seat are as before.
pub fn answer_edit<R: Wait, K: Keeper, J: Naming<DeskBoard>>(
    rt: &R,
    alloc: Global,
    clerk: &mut Clerk<K, J>,
    seat: &mut DeskSeat<J>,
    edit: Edit,
    out: &mut Bytes,
) -> Result<Edited, EditFailed>
    requires { number_of (list_from (lists_of J.opening.engine) seat.old.list) ≤ number_at (current_tables clerk.old) }
    ensures begins { OnOk result (IsPrefix seat.old.list seat.new.list) }
    ensures learnt { OnOk result (seat.new.list ≡ clerk.new.accepted) }
    ensures taken_in { OnOk result (IsTakenIn clerk.old.accepted (current_tables clerk.old) edit clerk.new.accepted (current_tables clerk.new)) }
    ensures published { OnOk result (clerk.new.published ≡ clerk.new.accepted) }
    ensures answer { IfOk result (λ answer. answer ≡ edited_of (step (current_tables clerk.old) edit).0) }
    ensures body { OnOk result (out.new ≡ out.old
        ++ (reply_to_edit (number_at (current_tables clerk.new)) (number_of (list_from (lists_of J.opening.engine) seat.old.list)) (step (current_tables clerk.old) edit).0).body) }
    ensures clerk_stays { OnErr result (((clerk.new.accepted ≡ clerk.old.accepted) × (current_tables clerk.new ≡ current_tables clerk.old))
        ⊎ IsTakenIn clerk.old.accepted (current_tables clerk.old) edit clerk.new.accepted (current_tables clerk.new)) }
    ensures kept_out { result ≡ Err EditFailed.KeeperFault → (clerk.new.accepted ≡ clerk.old.accepted) × (current_tables clerk.new ≡ current_tables clerk.old)
        × (clerk.new.published ≡ clerk.new.accepted) × (kept_number (current_tables clerk.old) edit ≡ None) × (is_ok (step (current_tables clerk.old) edit).0 ≡ true) }
    ensures seat_stays { OnErr result (seat.new ≡ seat.old) }
    ensures err { OnErr result (out.new ≡ out.old) }
    ensures told { K.Tells (keeper_of clerk.new) → K.Tells (keeper_of clerk.old) }
    ensures faults { CountsFaults (IsErrOf result EditFailed.KeeperFault) (K.faults (keeper_of clerk.old)) (K.faults (keeper_of clerk.new)) }
    ensures sure { K.NeverFails → result ≢ Err EditFailed.KeeperFault }
{
    let seen = Seat::seen(&*seat);
    // The calls say that the clerk's lists are histories: before the edit and after it.
    clerk.engine();
    match edit_clerk(rt, alloc, clerk, seen, edit, out) {
        Ok(answer) => {
            clerk.engine();
            seat.learn(clerk.news());
            Ok(answer)
        }
        Err(fault) => Err(fault),
    }
}

/// Submits an edit to the clerk, and appends the body that answers it to one who had met this number before.
fn edit_clerk<R: Wait, K: Keeper, J: Naming<DeskBoard>>(
    rt: &R,
    alloc: Global,
    clerk: &mut Clerk<K, J>,
    seen: u64,
    edit: Edit,
    out: &mut Bytes,
) -> Result<Edited, EditFailed>
    ensures taken_in { OnOk result (IsTakenIn clerk.old.accepted (current_tables clerk.old) edit clerk.new.accepted (current_tables clerk.new)) }
    ensures published { OnOk result (clerk.new.published ≡ clerk.new.accepted) }
    ensures answer { IfOk result (λ answer. answer ≡ edited_of (step (current_tables clerk.old) edit).0) }
    ensures body { OnOk result (out.new ≡ out.old ++ (reply_to_edit (number_at (current_tables clerk.new)) seen (step (current_tables clerk.old) edit).0).body) }
    ensures clerk_stays { OnErr result (((clerk.new.accepted ≡ clerk.old.accepted) × (current_tables clerk.new ≡ current_tables clerk.old))
        ⊎ IsTakenIn clerk.old.accepted (current_tables clerk.old) edit clerk.new.accepted (current_tables clerk.new)) }
    ensures kept_out { result ≡ Err EditFailed.KeeperFault → (clerk.new.accepted ≡ clerk.old.accepted) × (current_tables clerk.new ≡ current_tables clerk.old)
        × (clerk.new.published ≡ clerk.new.accepted) × (kept_number (current_tables clerk.old) edit ≡ None) × (is_ok (step (current_tables clerk.old) edit).0 ≡ true) }
    ensures err { OnErr result (out.new ≡ out.old) }
    ensures told { K.Tells (keeper_of clerk.new) → K.Tells (keeper_of clerk.old) }
    ensures faults { CountsFaults (IsErrOf result EditFailed.KeeperFault) (K.faults (keeper_of clerk.old)) (K.faults (keeper_of clerk.new)) }
    ensures sure { K.NeverFails → result ≢ Err EditFailed.KeeperFault }
{
    match clerk.submit(rt, alloc, edit) {
        Ok(accepted) => match push_accepted(alloc, &accepted, seen, out) {
            Ok(()) => Ok(Edited::Accepted),
            Err(_) => Err(EditFailed::OutOfMemory),
        },
        Err(SubmitFault::Rule { fault, whole }) => {
            match push_refused(alloc, &fault, whole, seen, out) {
                Ok(()) => Ok(Edited::Refused),
                Err(_) => Err(EditFailed::OutOfMemory),
            }
        }
        Err(SubmitFault::KeeperFault) => Err(EditFailed::KeeperFault),
        Err(SubmitFault::OutOfMemory) => Err(EditFailed::OutOfMemory),
    }
}

/// The same as `answer_edit`, told as an editor tells it: by the seat's lists alone.
pub(crate) fn answer_as_editor<R: Wait, K: Keeper, J: Naming<DeskBoard>>(
    rt: &R,
    alloc: Global,
    clerk: &mut Clerk<K, J>,
    seat: &mut DeskSeat<J>,
    edit: Edit,
    out: &mut Bytes,
) -> Result<Edited, EditFailed>
    requires { number_of (list_from (lists_of J.opening.engine) seat.old.list) ≤ number_at (current_tables clerk.old) }
    ensures grown { OnOk result (Begins (list_from (lists_of J.opening.engine) seat.old.list) (list_from (lists_of J.opening.engine) seat.new.list)) }
    ensures answer { IfOk result (λ answer. AnswersEdit (list_from (lists_of J.opening.engine) seat.old.list) (list_from (lists_of J.opening.engine) seat.new.list)
        edit answer out.old out.new) }
    ensures err { OnErr result ((out.new ≡ out.old) × (seat.new ≡ seat.old)) }
    ensures faults { CountsFaults (IsErrOf result EditFailed.KeeperFault) (K.faults (keeper_of clerk.old)) (K.faults (keeper_of clerk.new)) }
    ensures sure { K.NeverFails → result ≢ Err EditFailed.KeeperFault }
{
    let answer = answer_edit(rt, alloc, clerk, seat, edit, out);
    // The call says that the clerk's tables are those after its list.
    clerk.engine();
    answer
}
