ghost use Rattle.std.specs.Prelude.{◌+◌, ◌-◌, ◌*◌, ◌^◌, min};

use crate::entry::Entry;
use crate::rolled::Rolled;
use desk_graph::BillLine;

/// How much a node carries of a substance.
#[derive(Clone, Copy, Debug, PartialEq, Eq)]
pub struct Load {
    /// The substance, as the caller numbers it.
    pub what: u32,
    /// How much of it, in the unit of the weights.
    pub amount: u128,
}

impl Entry for Load {
    ghost number = { λ load. load.what };

    ghost joined = { λ held more. record { what = held.what; amount = min (held.amount + more.amount) (2 ^ 128 - 1) } };

    ghost lifted = { λ line load. record { what = load.what; amount = min (load.amount * line.count) (2 ^ 128 - 1) } };

    ghost listed = { λ rolled. rolled.loads };

    fn number(&self) -> u64 {
        u64::from(self.what)
    }

    fn joined(self, more: Load) -> Load {
        Load {
            what: self.what,
            amount: self.amount.saturating_add(more.amount),
        }
    }

    fn lifted(self, line: BillLine) -> Load {
        Load {
            what: self.what,
            amount: self.amount.saturating_mul(u128::from(line.count)),
        }
    }

    fn listed(rolled: &Rolled) -> &[Load] {
        rolled.loads.as_slice()
    }
}
