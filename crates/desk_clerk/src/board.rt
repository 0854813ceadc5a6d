ghost use Rattle.std.specs.Prelude.{◌≡◌, OnOk, OnErr};
ghost use Rattle.desk_engine.specs.Engine.{lists_of};
ghost use Rattle.desk_history.specs.Step.{step};

use desk_engine::Engine;
use desk_model::Edit;
use desk_publish::{Board, Naming, OutOfMemory};
use desk_tables::{EditFault, Tables};
use std::alloc::Global;
use std::marker::{Brand, Model};

/// What readers of a desk look at: an engine, which takes in the edits that the clerk has accepted.
#[derive(Drop)]
pub struct DeskBoard {
    engine: Engine,
}

impl DeskBoard {
    /// A board of this engine.
    pub(crate) fn new(engine: Engine) -> DeskBoard
        ensures { result.engine ≡ engine }
    {
        DeskBoard { engine }
    }

    /// The engine. It takes no memory.
    pub fn engine(&self) -> &Engine
        ensures { result.now ≡ self.now.engine }
    {
        &self.engine
    }
}

/// What a board stands for: its tables, whatever room they have. No value of it is made.
pub struct DeskState {
    tables: Tables,
}

impl Model for DeskState {
    ghost use Rattle.desk_model.specs.Lists.{Lists};

    ghost Value = { Lists };

    ghost view = { λ state. state.tables.lists };
}

impl Board for DeskBoard {
    ghost use Rattle.std.specs.Prelude.{◌≡◌};
    ghost use Rattle.desk_engine.specs.Engine.{lists_of};
    ghost use Rattle.desk_clerk.specs.Clerk.{list_from};
    ghost use Rattle.desk_history.specs.History.{IsHistory};
    ghost use Rattle.desk_history.specs.Step.{step};
    ghost use Rattle.desk_model.specs.Lists.{number_at};

    type Entry = Edit;

    type State = DeskState;

    ghost state = { λ board. lists_of board.engine };

    // An entry that a rule refuses changes nothing.
    ghost after = { λ t edit. (step t edit).1 };

    // Edits that are accepted one after the other, from sound tables on.
    ghost MayBePut = { λ opening edits. IsHistory (list_from opening edits) };

    ghost number_of = { number_at };

    fn absorb(&mut self, alloc: Global, entry: &Edit) -> Result<(), OutOfMemory> {
        absorb_into(&mut self.engine, alloc, entry)
    }

    fn number(&self) -> u64 {
        self.engine.tables().number()
    }
}

/// Takes in the edit, where it meets no refusal. `OutOfMemory`: none was left for its plan; then nothing has changed.
pub fn absorb_into(engine: &mut Engine, alloc: Global, entry: &Edit) -> Result<(), OutOfMemory>
    ensures ok { OnOk result (lists_of engine.new ≡ (step (lists_of engine.old) entry.now).1) }
    ensures err { OnErr result (lists_of engine.new ≡ lists_of engine.old) }
{
    entry.in_form();
    match engine.prepare_uncounted(alloc, entry) {
        Ok(plan) => {
            engine.commit(plan);
            Ok(())
        }
        Err(EditFault::Rule(_)) => Ok(()),
        Err(EditFault::OutOfMemory) => Err(OutOfMemory),
    }
}

impl Naming<DeskBoard> for Brand {
    ghost use Rattle.desk_clerk.specs.Board.{blank_board};

    ghost book = { record { number = 0; log_name = 0; cells_name = 0 } };

    ghost opening = { blank_board };
}
