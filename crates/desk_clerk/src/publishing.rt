//! What a clerk does with its publication and its desk, over these alone.
ghost use Rattle.std.specs.Prelude.{◌≡◌, ◌≢◌, ◌≤◌, ◌++◌, ℕ, [], All, Ok, Err, None, Some, is_ok, true, length, IfOk, IsErrOf, OnOk, OnErr};
ghost use mathlib.Core.List.{IsPrefix};
ghost use Rattle.desk_clerk.specs.Clerk.{list_from, tables_of};
ghost use Rattle.desk_clerk.specs.Published.{added_to_list, waiting_edit};
ghost use Rattle.desk_edge.specs.Faults.{CountsFaults};
ghost use Rattle.desk_engine.specs.Engine.{lists_of};
ghost use Rattle.desk_history.specs.History.{IsHistory};
ghost use Rattle.desk_history.specs.Step.{kept_number, step};
ghost use Rattle.desk_model.specs.Forms.{is_edit_in_form};
ghost use Rattle.desk_model.specs.Lists.{number_at};
ghost use Rattle.desk_model.specs.declared.rule_fault.RuleFault.{RuleFault as Fault};

use crate::accepted::Accepted;
use crate::board::DeskBoard;
use crate::desk_seat::DeskSeat;
use crate::stored_desk::StoredDesk;
use crate::submit_fault::SubmitFault;
use desk_edge::Keeper;
use desk_engine::Engine;
use desk_model::Edit;
use desk_publish::{BlankBook, Naming, Publication, open_board};
use desk_text::OutOfMemory;
use std::alloc::Global;
use std::mem::{drop, replace};
use std::sync::Wait;

/// A publication to seats at two boards of the engine's tables, with no entry yet.
pub(crate) fn open_press<J: Naming<DeskBoard>, R: Wait>(
    rt: &R,
    alloc: Global,
    blank: BlankBook<DeskBoard>,
    engine: &Engine,
    seats: usize,
) -> Result<(Publication<DeskBoard, J>, Vec<DeskSeat<J>>), OutOfMemory>
    requires book { blank ≡ J.book }
    requires opening { lists_of J.opening.engine ≡ lists_of engine.now }
    requires seats { (1 ≤ seats) × (seats ≤ 8) }
    ensures lists { IfOk result (λ t. t.0 ≡ record { published = []; whole = [] }) }
    ensures count { IfOk result (λ t. length t.1.items ≡ seats) }
    ensures seats { IfOk result (λ t. All (λ seat. seat ≡ record { list = []; is_sure = true }) t.1.items) }
{
    let first = DeskBoard::new(engine.copied(alloc)?);
    let second = DeskBoard::new(engine.copied(alloc)?);
    match open_board::<DeskBoard, J, R>(rt, alloc, blank, first, second, seats) {
        Ok((press, seats)) => Ok((Publication::to_seats(press), seats)),
        Err(_) => Err(OutOfMemory),
    }
}

/// Puts the edit that is kept, if there is one, and publishes all that is put. Where there is no memory for that, it still waits.
pub(crate) fn publish_kept<J: Naming<DeskBoard>, R: Wait>(
    rt: &R,
    publication: &mut Publication<DeskBoard, J>,
    kept: &mut Option<Edit>,
) -> Result<(), OutOfMemory>
    requires { IsHistory (list_from (lists_of J.opening.engine) (publication.old.whole ++ waiting_edit kept.old)) }
    ensures list { publication.new.whole ++ waiting_edit kept.new ≡ publication.old.whole ++ waiting_edit kept.old }
    ensures begins { IsPrefix publication.new.published publication.new.whole }
    ensures published { OnOk result (publication.new.published ≡ publication.new.whole ++ waiting_edit kept.new) }
    ensures stays { OnErr result (publication.new.published ≡ publication.old.published) }
{
    let is_done = put_kept(publication, kept).is_ok() && publication.settle(rt).is_ok();
    // The call says that what is published begins the whole list.
    publication.number();
    if is_done { Ok(()) } else { Err(OutOfMemory) }
}

/// Puts the edit that is kept, if there is one. Where there is no memory for that, it is still kept.
fn put_kept<J: Naming<DeskBoard>>(
    publication: &mut Publication<DeskBoard, J>,
    kept: &mut Option<Edit>,
) -> Result<(), OutOfMemory>
    requires { IsHistory (list_from (lists_of J.opening.engine) (publication.old.whole ++ waiting_edit kept.old)) }
    ensures list { publication.new.whole ++ waiting_edit kept.new ≡ publication.old.whole ++ waiting_edit kept.old }
    ensures published { publication.new.published ≡ publication.old.published }
    ensures ok { OnOk result (kept.new ≡ None) }
{
    let Some(edit) = kept.take() else {
        return Ok(());
    };
    match publication.put(edit) {
        Ok(()) => Ok(()),
        Err(refused) => {
            *kept = Some(refused.entry);
            Err(OutOfMemory)
        }
    }
}

/// Judges an edit where none is kept, has the store keep it and makes it in the tables. It is kept to be published where it is new.
pub(crate) fn take_into<K: Keeper>(
    alloc: Global,
    desk: &mut StoredDesk<K>,
    kept: &mut Option<Edit>,
    edit: Edit,
) -> Result<Accepted, SubmitFault>
    requires { kept.old ≡ None }
    ensures form { is_edit_in_form edit ≡ true }
    ensures number { IfOk result (λ accepted. (step (tables_of desk.old) edit).0 ≡ Ok accepted.number) }
    ensures list { IfOk result (λ accepted. accepted.whole ≡ number_at (tables_of desk.new)) }
    ensures ok { OnOk result ((waiting_edit kept.new ≡ added_to_list (tables_of desk.old) edit) × (tables_of desk.new ≡ (step (tables_of desk.old) edit).1)) }
    ensures err { OnErr result ((kept.new ≡ None) × (tables_of desk.new ≡ tables_of desk.old)) }
    ensures rule { (fault : Fault) (n : ℕ) → result ≡ Err (SubmitFault.Rule fault n)
        → ((step (tables_of desk.old) edit).0 ≡ Err fault) × (n ≡ number_at (tables_of desk.old)) }
    ensures again { (n : ℕ) → kept_number (tables_of desk.old) edit ≡ Some n → desk.new.keeper ≡ desk.old.keeper }
    ensures refused { (fault : Fault) → (step (tables_of desk.old) edit).0 ≡ Err fault → desk.new.keeper ≡ desk.old.keeper }
    ensures told { K.Tells desk.new.keeper → K.Tells desk.old.keeper }
    ensures faults { CountsFaults (IsErrOf result SubmitFault.KeeperFault) (K.faults desk.old.keeper) (K.faults desk.new.keeper) }
    ensures sure { K.NeverFails → result ≢ Err SubmitFault.KeeperFault }
    ensures asked { IsErrOf result SubmitFault.KeeperFault
        → (kept_number (tables_of desk.old) edit ≡ None) × (is_ok (step (tables_of desk.old) edit).0 ≡ true) }
{
    edit.in_form();
    let before = desk.number();
    match desk.accept(alloc, &edit) {
        Ok(accepted) => {
            drop(replace(kept, kept_if_new(edit, before, accepted.whole)));
            Ok(accepted)
        }
        Err(fault) => Err(fault),
    }
}

/// The edit, where the number of the tables has changed by it.
fn kept_if_new(edit: Edit, before: u64, now: u64) -> Option<Edit>
    ensures same { now ≡ before → result ≡ None }
    ensures new { now ≢ before → result ≡ Some edit }
{
    if now == before { None } else { Some(edit) }
}
