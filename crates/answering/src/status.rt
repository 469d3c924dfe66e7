use counted::{Device, EdgeFault};
use plain::{Fault, Memory};
use std::fmt;
use thiserror::Error;

/// What an answer that was written says.
#[derive(Clone, Copy, Debug, PartialEq, Eq)]
pub enum Status {
    /// The target's tree and configuration, or its graph.
    Built,
    /// An instruction that failed, with its cause.
    Failed,
    /// Why the bundle is refused.
    Refused,
}

/// Why a build, or a graph's drawing, wrote no whole answer.
#[derive(Clone, Copy, Debug, PartialEq, Eq, Error)]
pub enum BuildFault {
    /// There was no memory. Nothing was written.
    Memory,
    /// A read or a write failed. Nothing was written, or a beginning of the answer.
    Device,
    /// Two different operations of a graph have the same address, so it has no definition. Nothing was written. Only a graph's drawing tells it.
    Clash,
}

impl fmt::Display for BuildFault {
    ghost use Rattle.std.specs.Prelude.{Some};
    ghost use Rattle.answering.specs.Messages.{fault_text};

    ghost output = { λ fault. Some (fault_text fault) };

    fn fmt<W: fmt::Write>(&self, f: &mut fmt::Formatter<W>) -> fmt::Result {
        match self {
            BuildFault::Memory => write!(f, "out of memory"),
            BuildFault::Device => write!(f, "device failed"),
            BuildFault::Clash => write!(f, "address clash"),
        }
    }
}

impl From<EdgeFault> for BuildFault {
    ghost use Rattle.std.specs.Prelude.{◌≡◌};
    ghost use Rattle.answering.specs.Faults.{of_edge};

    ghost from_gives = { λ edge fault. fault ≡ of_edge edge };

    fn from(edge: EdgeFault) -> BuildFault {
        match edge {
            Fault::Memory => BuildFault::Memory,
            Fault::Because(Device) => BuildFault::Device,
        }
    }
}

impl From<Memory> for BuildFault {
    ghost use Rattle.std.specs.Prelude.{◌≡◌};
    ghost use Rattle.answering.specs.declared.status.BuildFault.TheVariants.{Memory as want};

    ghost from_gives = { λ _ fault. fault ≡ want };

    fn from(_memory: Memory) -> BuildFault {
        BuildFault::Memory
    }
}
