use desk_graph::{NodeId, OutOfMemory};
use std::alloc::AllocError;
use std::error::Error;
use std::fmt;

/// Why new values are refused. What is kept is as it was.
#[derive(Clone, Copy, Debug, PartialEq, Eq)]
pub enum RollFault {
    /// A node would weigh 2^128 or more.
    WeightTooLarge {
        /// Of all these nodes the one with the least label.
        node: NodeId,
    },
    /// The nodes that have lines would have more than 4,194,304 marks together.
    MarksFull,
    /// There is no memory.
    OutOfMemory,
}

impl From<OutOfMemory> for RollFault {
    ghost use Rattle.std.specs.Prelude.{◌≡◌};
    ghost use Rattle.desk_rollup.specs.declared.fault.RollFault.TheVariants.{OutOfMemory};

    ghost from_gives = { λ _ e. e ≡ OutOfMemory };

    fn from(_error: OutOfMemory) -> RollFault {
        RollFault::OutOfMemory
    }
}

impl fmt::Display for RollFault {
    ghost use Rattle.std.specs.Prelude.{Some};
    ghost use Rattle.desk_rollup.specs.Faults.{roll_fault_words};

    ghost output = { λ fault. Some (roll_fault_words fault) };

    fn fmt<W: fmt::Write>(&self, f: &mut fmt::Formatter<W>) -> fmt::Result {
        match self {
            RollFault::WeightTooLarge { node: _ } => f.write_str(
                "a node would weigh 2^128 or more",
            ),
            RollFault::MarksFull => f.write_str("the nodes would have more than 4194304 marks"),
            RollFault::OutOfMemory => f.write_str("out of memory"),
        }
    }
}

impl Error for RollFault {}
