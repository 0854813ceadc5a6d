ghost use Rattle.std.specs.Prelude.{◌≡◌, ◌≢◌, [], ◌∷◌, List, ℕ, Option, Err, IfOk, OnErr, OnOk, IsErrOf};
ghost use Rattle.desk_edge.specs.Faults.{CountsFaults};
ghost use Rattle.desk_front.specs.Sitting.{AnswersEdit, given_for, with_given};
ghost use Rattle.desk_front.specs.declared.given.Given.{Given};
ghost use Rattle.desk_history.specs.History.{Begins, number_of};

use crate::edited::{EditFailed, Edited};
use crate::seat::Seat;
use desk_model::Edit;
use desk_text::Bytes;
use std::alloc::Global;

/// What a connection asks for its edits. It and the seat that it is lent are of one desk, which the seat's type names.
///
/// An editor counts its faults, and may tell the edits that it has answered.
pub trait Editor<S: Seat> {
    // That no editor of this type ever fails.
    ghost NeverFails: { Type 0 };

    // How many faults were counted so far. The count never falls.
    ghost faults: { Self → ℕ };

    // The edits that were answered so far, in order, where they are told.
    ghost given: { Self → Option (List Given) };

    /// Answers an edit at the whole list of that moment, which the seat learns, and appends the body of the reply. It may wait.
    ///
    /// The reply's `version` is the number of that list and its `seen` the number of the seat's list at entry. Where edits are told, the
    /// list of them gains one entry exactly where the edit is answered. After an error `out`, the seat and that list are as before.
    ///
    /// `KeeperFault`: a fault was counted in this call, and the edit isn't kept. `OutOfMemory`: the edit may be kept all the same.
    fn edit(
        &mut self,
        alloc: Global,
        seat: &mut S,
        edit: Edit,
        out: &mut Bytes,
    ) -> Result<Edited, EditFailed>
        ensures grown { OnOk result (Begins (S.list seat.old) (S.list seat.new)) }
        ensures answer { IfOk result (λ answer. AnswersEdit (S.list seat.old) (S.list seat.new) edit answer out.old out.new) }
        ensures given { IfOk result (λ answer. given self.new ≡ with_given (given self.old) (given_for edit (number_of (S.list seat.new)) answer ∷ [])) }
        ensures err { OnErr result ((out.new ≡ out.old) × (seat.new ≡ seat.old) × (given self.new ≡ given self.old)) }
        ensures faults { CountsFaults (IsErrOf result EditFailed.KeeperFault) (faults self.old) (faults self.new) }
        ensures sure { NeverFails → result ≢ Err EditFailed.KeeperFault };
}
