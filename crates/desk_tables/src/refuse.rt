ghost use Rattle.std.specs.Prelude.{◌≡◌};
ghost use Rattle.desk_history.specs.Refused.{refuse_if};

use desk_model::{RuleFault, Year};

/// The fault, where the test passes.
pub(crate) fn refuse_if(test: bool, fault: RuleFault) -> Option<RuleFault>
    ensures { result ≡ refuse_if test fault }
{
    if test { Some(fault) } else { None }
}

/// The year as rows keep it.
pub(crate) fn year_number(year: Year) -> u16
    ensures { result ≡ year }
{
    year.get() as u16
}
