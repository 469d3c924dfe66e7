// Why what the program tells of a bundle isn't whole.
ghost use Rattle.std.specs.Prelude.{◌≡◌};
ghost use Rattle.program.specs.Faults.{as_told};

use build::{BuildFault, Status};
use counted::{Device, EdgeFault};
use plain::{Fault, Memory};

/// Why what is told of a bundle wasn't written whole.
#[derive(Clone, Copy, Debug, PartialEq, Eq)]
pub(crate) enum TellFault {
    /// There was no memory. Nothing was written.
    Memory,
    /// A read or a write failed. Nothing was written, or a beginning of what is told.
    Device,
    /// Two different operations of a graph have the same address, or the same digest, so it has no definition. Nothing was written.
    Clash,
    /// BuildKit can't be told which files of the context are left out: the path of one has control characters, or others beyond ASCII. Nothing was
    /// written. Only what writes a definition for BuildKit tells it.
    Unspeakable,
}

impl From<BuildFault> for TellFault {
    ghost use Rattle.std.specs.Prelude.{◌≡◌};
    ghost use Rattle.program.specs.Faults.{of_build};

    ghost from_gives = { λ fault told. told ≡ of_build fault };

    fn from(fault: BuildFault) -> TellFault {
        match fault {
            BuildFault::Memory => TellFault::Memory,
            BuildFault::Device => TellFault::Device,
            BuildFault::Clash => TellFault::Clash,
        }
    }
}

impl From<EdgeFault> for TellFault {
    ghost use Rattle.std.specs.Prelude.{◌≡◌};
    ghost use Rattle.program.specs.Faults.{of_edge};

    ghost from_gives = { λ edge fault. fault ≡ of_edge edge };

    fn from(edge: EdgeFault) -> TellFault {
        match edge {
            Fault::Memory => TellFault::Memory,
            Fault::Because(Device) => TellFault::Device,
        }
    }
}

impl From<Memory> for TellFault {
    ghost use Rattle.std.specs.Prelude.{◌≡◌};
    ghost use Rattle.program.specs.declared.fault.TellFault.TheVariants.{Memory as want};

    ghost from_gives = { λ _ fault. fault ≡ want };

    fn from(_memory: Memory) -> TellFault {
        TellFault::Memory
    }
}

/// How a build or the drawing of a graph ended, as what is told of a bundle ends.
pub(crate) fn as_told(ended: Result<Status, BuildFault>) -> Result<Status, TellFault>
    ensures { result ≡ as_told ended }
{
    match ended {
        Ok(status) => Ok(status),
        Err(fault) => Err(TellFault::from(fault)),
    }
}
