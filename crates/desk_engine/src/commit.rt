ghost use Rattle.std.specs.Prelude.{◌≡◌, unwrap_or};
ghost use Rattle.desk_model.specs.Lists.{Lists};
ghost use Rattle.desk_engine.specs.Planned.{LeavesStored};
ghost use Rattle.desk_engine.specs.Stored.{IsStoredOf};

use crate::stored::Stored;
use crate::stored_plan::StoredPlan;
use crate::years::commit_years;
use desk_model::Codes;

/// Carries out a plan that was made at what is stored as it stands. It isn't refused, and takes no memory.
pub(crate) fn commit_stored(stored: &mut Stored, plan: StoredPlan)
    requires { (u : Lists) × LeavesStored stored.old u plan }
    ensures { (u : Lists) → LeavesStored stored.old u plan → IsStoredOf u stored.new }
{
    let StoredPlan {
        bill,
        nodes,
        room,
        rollups,
        names,
        years,
    } = plan;
    stored.bill.commit(bill);
    stored.index.add_all(nodes.into_vec(), room);
    stored.rollups.commit(rollups);
    commit_years(&mut stored.years, years);
    exchange(&mut stored.names, names);
}

/// Puts the new names in the place of those of before, where there are new ones.
fn exchange(names: &mut Codes, new: Option<Codes>)
    ensures { names.new ≡ unwrap_or new names.old }
{
    if let Some(new) = new {
        *names = new;
    }
}
