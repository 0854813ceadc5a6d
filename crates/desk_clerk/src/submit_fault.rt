use desk_edge::KeepFault;
use desk_tables::RuleFault;
use desk_text::OutOfMemory;

/// Why an edit isn't taken. The tables and what the store keeps are as they were.
#[derive(Debug, Drop)]
pub enum SubmitFault {
    /// It meets a refusal.
    Rule {
        /// The first that it breaks.
        fault: RuleFault,
        /// The number of the tables at which it was judged: how many edits they have accepted.
        whole: u64,
    },
    /// The keeper refused the call; it counted a fault.
    KeeperFault,
    /// There was no memory to judge it or to take it.
    OutOfMemory,
}

impl From<KeepFault> for SubmitFault {
    ghost use Rattle.std.specs.Prelude.{◌≡◌};
    ghost use Rattle.desk_clerk.specs.Faults.{kept_as_submit};

    ghost from_gives = { λ fault e. e ≡ kept_as_submit fault };

    fn from(fault: KeepFault) -> SubmitFault {
        match fault {
            KeepFault::Failed => SubmitFault::KeeperFault,
            KeepFault::OutOfMemory => SubmitFault::OutOfMemory,
        }
    }
}

/// There was no memory.
impl From<OutOfMemory> for SubmitFault {
    ghost use Rattle.std.specs.Prelude.{◌≡◌};
    ghost use Rattle.desk_clerk.specs.declared.submit_fault.SubmitFault.TheVariants as fault;

    ghost from_gives = { λ _ e. e ≡ fault.OutOfMemory };

    fn from(_error: OutOfMemory) -> SubmitFault {
        SubmitFault::OutOfMemory
    }
}
