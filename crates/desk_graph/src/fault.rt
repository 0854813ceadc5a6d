use crate::memory::OutOfMemory;
use crate::path::Path;
use std::alloc::{AllocError, AllocFailed};
use std::error::Error;
use std::fmt;

/// Why a bill takes no new node.
#[derive(Clone, Copy, Debug, PartialEq, Eq)]
pub enum NodeFault {
    /// A node has the label.
    Taken,
    /// The bill has 24,576 nodes.
    Full,
}

/// Why a new node can't be planned.
#[derive(Clone, Copy, Debug, PartialEq, Eq)]
pub enum PlanFault {
    /// The bill wouldn't take the node.
    Node {
        /// Why it wouldn't.
        fault: NodeFault,
    },
    /// There is no memory.
    OutOfMemory,
}

/// Why a bill takes no line. The bill is as it was.
#[derive(Debug, Drop)]
pub enum LineFault {
    /// The child is the parent or reaches it.
    Closes {
        /// The chain from the child to the parent.
        chain: Path,
    },
    /// The bill would have more than 131,072 lines.
    Full,
    /// There is no memory.
    OutOfMemory,
}

impl From<OutOfMemory> for LineFault {
    ghost use Rattle.std.specs.Prelude.{◌≡◌};
    ghost use Rattle.desk_graph.specs.declared.fault.LineFault.TheVariants.{OutOfMemory};

    ghost from_gives = { λ _ e. e ≡ OutOfMemory };

    fn from(_error: OutOfMemory) -> LineFault {
        LineFault::OutOfMemory
    }
}

impl From<AllocError> for LineFault {
    ghost use Rattle.std.specs.Prelude.{◌≡◌};
    ghost use Rattle.desk_graph.specs.declared.fault.LineFault.TheVariants.{OutOfMemory};

    ghost from_gives = { λ _ e. e ≡ OutOfMemory };

    fn from(_error: AllocError) -> LineFault {
        LineFault::OutOfMemory
    }
}

impl<T: Drop> From<AllocFailed<T>> for PlanFault {
    ghost use Rattle.std.specs.Prelude.{◌≡◌};
    ghost use Rattle.desk_graph.specs.declared.fault.PlanFault.TheVariants.{OutOfMemory};

    ghost from_gives = { λ _ e. e ≡ OutOfMemory };

    fn from(_error: AllocFailed<T>) -> PlanFault {
        PlanFault::OutOfMemory
    }
}

impl fmt::Display for NodeFault {
    ghost use Rattle.std.specs.Prelude.{Some};
    ghost use Rattle.desk_graph.specs.Faults.{node_fault_words};

    ghost output = { λ fault. Some (node_fault_words fault) };

    fn fmt<W: fmt::Write>(&self, f: &mut fmt::Formatter<W>) -> fmt::Result {
        match self {
            NodeFault::Taken => f.write_str("a node has the label"),
            NodeFault::Full => f.write_str("the bill has 24576 nodes"),
        }
    }
}

impl Error for NodeFault {}

impl fmt::Display for PlanFault {
    ghost use Rattle.std.specs.Prelude.{Some};
    ghost use Rattle.desk_graph.specs.Faults.{plan_fault_words};

    ghost output = { λ fault. Some (plan_fault_words fault) };

    fn fmt<W: fmt::Write>(&self, f: &mut fmt::Formatter<W>) -> fmt::Result {
        match self {
            PlanFault::Node { fault } => fault.fmt(f),
            PlanFault::OutOfMemory => f.write_str("out of memory"),
        }
    }
}

impl Error for PlanFault {}

impl fmt::Display for LineFault {
    ghost use Rattle.std.specs.Prelude.{Some};
    ghost use Rattle.desk_graph.specs.Faults.{line_fault_words};

    ghost output = { λ fault. Some (line_fault_words fault) };

    fn fmt<W: fmt::Write>(&self, f: &mut fmt::Formatter<W>) -> fmt::Result {
        match self {
            LineFault::Closes { chain: _ } => f.write_str("the line would close a cycle"),
            LineFault::Full => f.write_str("the bill would have more than 131072 lines"),
            LineFault::OutOfMemory => f.write_str("out of memory"),
        }
    }
}

impl Error for LineFault {}
