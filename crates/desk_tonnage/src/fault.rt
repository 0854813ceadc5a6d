use desk_text::OutOfMemory;
use std::alloc::AllocError;
use std::error::Error;
use std::fmt;

/// Why units aren't added. What was kept is as it was.
#[derive(Clone, Copy, Debug, PartialEq, Eq)]
pub enum TonnageFault {
    /// The year's units of the product would be more than 1,000,000,000,000.
    UnitsTooLarge,
    /// The year's units would weigh 2^128 micrograms or more.
    YearTooLarge {
        /// The year.
        year: u16,
    },
    /// There is no memory.
    OutOfMemory,
}

/// Why units aren't taken off. What was kept is as it was.
#[derive(Clone, Copy, Debug, PartialEq, Eq)]
pub enum TakeFault {
    /// Fewer units are kept than are to be taken off.
    BelowZero {
        /// How many units are kept: 0 where the product has no entry in the year.
        kept: u64,
    },
}

/// Why products can't have new masses. What was kept is as it was.
#[derive(Clone, Copy, Debug, PartialEq, Eq)]
pub enum MassFault {
    /// Some year's units would weigh 2^128 micrograms or more.
    YearTooLarge {
        /// The least such year.
        year: u16,
    },
}

impl From<OutOfMemory> for TonnageFault {
    ghost use Rattle.std.specs.Prelude.{◌≡◌};
    ghost use Rattle.desk_tonnage.specs.declared.fault.TonnageFault.TheVariants.{OutOfMemory};

    ghost from_gives = { λ _ e. e ≡ OutOfMemory };

    fn from(_error: OutOfMemory) -> TonnageFault {
        TonnageFault::OutOfMemory
    }
}

impl From<AllocError> for TonnageFault {
    ghost use Rattle.std.specs.Prelude.{◌≡◌};
    ghost use Rattle.desk_tonnage.specs.declared.fault.TonnageFault.TheVariants.{OutOfMemory};

    ghost from_gives = { λ _ e. e ≡ OutOfMemory };

    fn from(_error: AllocError) -> TonnageFault {
        TonnageFault::OutOfMemory
    }
}

impl fmt::Display for TonnageFault {
    ghost use Rattle.std.specs.Prelude.{Some};
    ghost use Rattle.desk_tonnage.specs.Faults.{tonnage_fault_words};

    ghost output = { λ fault. Some (tonnage_fault_words fault) };

    fn fmt<W: fmt::Write>(&self, f: &mut fmt::Formatter<W>) -> fmt::Result {
        match self {
            TonnageFault::UnitsTooLarge => f.write_str("more than 1000000000000 units"),
            TonnageFault::YearTooLarge { year } => write!(f, "the units of {year} weigh too much"),
            TonnageFault::OutOfMemory => f.write_str("out of memory"),
        }
    }
}

impl Error for TonnageFault {}

impl fmt::Display for TakeFault {
    ghost use Rattle.std.specs.Prelude.{Some};
    ghost use Rattle.desk_tonnage.specs.Faults.{take_fault_words};

    ghost output = { λ fault. Some (take_fault_words fault) };

    fn fmt<W: fmt::Write>(&self, f: &mut fmt::Formatter<W>) -> fmt::Result {
        match self {
            TakeFault::BelowZero { kept } => write!(f, "only {kept} units are kept"),
        }
    }
}

impl Error for TakeFault {}

impl fmt::Display for MassFault {
    ghost use Rattle.std.specs.Prelude.{Some};
    ghost use Rattle.desk_tonnage.specs.Faults.{mass_fault_words};

    ghost output = { λ fault. Some (mass_fault_words fault) };

    fn fmt<W: fmt::Write>(&self, f: &mut fmt::Formatter<W>) -> fmt::Result {
        match self {
            MassFault::YearTooLarge { year } => write!(f, "the units of {year} weigh too much"),
        }
    }
}

impl Error for MassFault {}
