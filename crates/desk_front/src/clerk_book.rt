ghost use Rattle.std.specs.Prelude.{◌≡◌, ◌≢◌, [], ◌∷◌, ◌++◌, Err, IfOk, OnErr, OnOk, IsErrOf};
ghost use Rattle.desk_clerk.specs.Clerk.{keeper_of, list_from};
ghost use Rattle.desk_edge.specs.Faults.{CountsFaults};
ghost use Rattle.desk_engine.specs.Engine.{lists_of};
ghost use Rattle.desk_front.specs.Sitting.{AnswersEdit, given_for};
ghost use Rattle.desk_history.specs.History.{Begins, number_of};
ghost use Rattle.desk_model.specs.EditText.{edit_text, ticket_code};

use crate::desk_edit::answer_as_editor;
use crate::edited::{EditFailed, Edited};
use crate::editor::Editor;
use crate::given::Given;
use crate::seat::Seat;
use desk_clerk::{Clerk, DeskBoard, DeskSeat};
use desk_edge::Keeper;
use desk_model::Edit;
use desk_publish::Naming;
use desk_text::{Bytes, OutOfMemory};
use std::alloc::Global;
use std::sync::Wait;

/// An editor that has a clerk of its own, and tells the edits that it has answered.
pub struct ClerkBook<'a, R, K: Keeper, J: Naming<DeskBoard>> {
    rt: &'a R,
    clerk: Clerk<K, J>,
    given: Vec<Given>,
}

impl<'a, R: Wait + Sync, K: Keeper, J: Naming<DeskBoard>> ClerkBook<'a, R, K, J> {
    /// An editor that has this clerk and has answered no edit yet. It takes no memory.
    pub fn new(rt: &'a R, alloc: Global, clerk: Clerk<K, J>) -> ClerkBook<'a, R, K, J>
        ensures clerk { result.clerk ≡ clerk }
        ensures given { result.given.items ≡ [] }
    {
        ClerkBook {
            rt,
            clerk,
            given: Vec::new(alloc),
        }
    }

    /// The edits that were answered, in order.
    pub fn given(&self) -> &[Given]
        ensures { result.now ≡ self.now.given.items }
    {
        self.given.as_slice()
    }

    /// The clerk.
    pub fn clerk(&self) -> &Clerk<K, J>
        ensures { result.now ≡ self.now.clerk }
    {
        &self.clerk
    }

    /// Gives the clerk back. It takes no memory.
    pub fn into_clerk(self) -> Clerk<K, J>
        ensures { result ≡ self.entry.clerk }
    {
        let ClerkBook {
            rt: _,
            clerk,
            given: _,
        } = self;
        clerk
    }
}

/// It asks `answer_edit` for each edit, and takes the room for its entry first.
impl<R: Wait + Sync, K: Keeper, J: Naming<DeskBoard>> Editor<DeskSeat<J>>
    for ClerkBook<'_, R, K, J> {
    ghost use Rattle.std.specs.Prelude.{Some};
    ghost use Rattle.desk_clerk.specs.Clerk.{keeper_of};

    ghost NeverFails = { K.NeverFails };

    ghost faults = { λ book. K.faults (keeper_of book.clerk) };

    ghost given = { λ book. Some book.given.items };

    fn edit(
        &mut self,
        alloc: Global,
        seat: &mut DeskSeat<J>,
        edit: Edit,
        out: &mut Bytes,
    ) -> Result<Edited, EditFailed> {
        edit_and_note(
            self.rt,
            alloc,
            &mut self.clerk,
            &mut self.given,
            seat,
            edit,
            out,
        )
    }
}

/// Has the edit answered by the clerk, and notes it in the list of those that were answered. Its entry gets its room first.
fn edit_and_note<R: Wait, K: Keeper, J: Naming<DeskBoard>>(
    rt: &R,
    alloc: Global,
    clerk: &mut Clerk<K, J>,
    given: &mut Vec<Given>,
    seat: &mut DeskSeat<J>,
    edit: Edit,
    out: &mut Bytes,
) -> Result<Edited, EditFailed>
    ensures grown { OnOk result (Begins (list_from (lists_of J.opening.engine) seat.old.list) (list_from (lists_of J.opening.engine) seat.new.list)) }
    ensures answer { IfOk result (λ answer. AnswersEdit (list_from (lists_of J.opening.engine) seat.old.list) (list_from (lists_of J.opening.engine) seat.new.list)
        edit answer out.old out.new) }
    ensures given { IfOk result (λ answer. given.new.items ≡ given.old.items ++ given_for edit (number_of (list_from (lists_of J.opening.engine) seat.new.list)) answer ∷ []) }
    ensures err { OnErr result ((out.new ≡ out.old) × (seat.new ≡ seat.old) × (given.new.items ≡ given.old.items)) }
    ensures faults { CountsFaults (IsErrOf result EditFailed.KeeperFault) (K.faults (keeper_of clerk.old)) (K.faults (keeper_of clerk.new)) }
    ensures sure { K.NeverFails → result ≢ Err EditFailed.KeeperFault }
{
    let Ok((code, text)) = words_of(alloc, &edit) else {
        return Err(EditFailed::OutOfMemory);
    };
    if given.reserve(1).is_err() {
        return Err(EditFailed::OutOfMemory);
    }
    match edit_by(rt, alloc, clerk, seat, edit, out) {
        Ok(answer) => {
            let version = Seat::seen(&*seat);
            given.push_reserved(Given {
                code,
                edit: text,
                version,
                answer,
            });
            Ok(answer)
        }
        Err(fault) => Err(fault),
    }
}

/// The code of the edit's ticket, and its text.
fn words_of(alloc: Global, edit: &Edit) -> Result<(Bytes, Bytes), OutOfMemory>
    ensures { IfOk result (λ words. (words.0 ≡ ticket_code edit.now) × (words.1 ≡ edit_text edit.now)) }
{
    let mut code = Bytes::start(alloc);
    edit.ticket_code(&mut code)?;
    let mut text = Bytes::start(alloc);
    edit.text(&mut text)?;
    Ok((code, text))
}

/// Has the edit answered by the clerk, once it has as many edits as the seat has seen.
fn edit_by<R: Wait, K: Keeper, J: Naming<DeskBoard>>(
    rt: &R,
    alloc: Global,
    clerk: &mut Clerk<K, J>,
    seat: &mut DeskSeat<J>,
    edit: Edit,
    out: &mut Bytes,
) -> Result<Edited, EditFailed>
    ensures grown { OnOk result (Begins (list_from (lists_of J.opening.engine) seat.old.list) (list_from (lists_of J.opening.engine) seat.new.list)) }
    ensures answer { IfOk result (λ answer. AnswersEdit (list_from (lists_of J.opening.engine) seat.old.list) (list_from (lists_of J.opening.engine) seat.new.list)
        edit answer out.old out.new) }
    ensures err { OnErr result ((out.new ≡ out.old) × (seat.new ≡ seat.old)) }
    ensures faults { CountsFaults (IsErrOf result EditFailed.KeeperFault) (K.faults (keeper_of clerk.old)) (K.faults (keeper_of clerk.new)) }
    ensures sure { K.NeverFails → result ≢ Err EditFailed.KeeperFault }
{
    'turns: for _ in rt.forever() {
        if Seat::seen(&*seat) <= clerk.number() {
            return answer_as_editor(rt, alloc, clerk, seat, edit, out);
        }
    }
    unreachable!()
}
