use desk_edge::{Failed, KeepFault};
use desk_text::OutOfMemory;
use std::alloc::AllocError;

/// Why records aren't written as lines, or lines not taken as records.
#[derive(Clone, Copy, Debug, PartialEq, Eq)]
pub enum ReportFault {
    /// The store refused a call; it counted a fault.
    KeeperFault,
    /// The link refused a call; it counted a fault.
    LinkFault,
    /// The store that is to take the records has some already.
    NotEmpty,
    /// There is no such desk.
    Damaged {
        /// The number of the first line, counted from 1, that isn't the line of a row's record behind the one before it; 0 where all
        /// are, and no sound tables have these records.
        line: u64,
    },
    /// More bytes came than a desk has.
    TooLong,
    /// There was no memory for it.
    OutOfMemory,
}

impl From<KeepFault> for ReportFault {
    ghost use Rattle.std.specs.Prelude.{◌≡◌};
    ghost use Rattle.desk_report.specs.Faults.{kept_as_report};

    ghost from_gives = { λ fault e. e ≡ kept_as_report fault };

    fn from(fault: KeepFault) -> ReportFault {
        match fault {
            KeepFault::Failed => ReportFault::KeeperFault,
            KeepFault::OutOfMemory => ReportFault::OutOfMemory,
        }
    }
}

/// The link refused a call.
impl From<Failed> for ReportFault {
    ghost use Rattle.std.specs.Prelude.{◌≡◌};
    ghost use Rattle.desk_report.specs.declared.report_fault.ReportFault.TheVariants as fault;

    ghost from_gives = { λ _ e. e ≡ fault.LinkFault };

    fn from(_error: Failed) -> ReportFault {
        ReportFault::LinkFault
    }
}

/// There was no memory.
impl From<OutOfMemory> for ReportFault {
    ghost use Rattle.std.specs.Prelude.{◌≡◌};
    ghost use Rattle.desk_report.specs.declared.report_fault.ReportFault.TheVariants as fault;

    ghost from_gives = { λ _ e. e ≡ fault.OutOfMemory };

    fn from(_error: OutOfMemory) -> ReportFault {
        ReportFault::OutOfMemory
    }
}

/// There was no memory.
impl From<AllocError> for ReportFault {
    ghost use Rattle.std.specs.Prelude.{◌≡◌};
    ghost use Rattle.desk_report.specs.declared.report_fault.ReportFault.TheVariants as fault;

    ghost from_gives = { λ _ e. e ≡ fault.OutOfMemory };

    fn from(_error: AllocError) -> ReportFault {
        ReportFault::OutOfMemory
    }
}
