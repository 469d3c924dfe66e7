use counted::{Device, EdgeFault};
use paths::PathFault;
use plain::{Fault, Memory};
use std::alloc::{AllocError, AllocFailed};
use std::fmt;
use thiserror::Error;
use trees::TreeFault;

/// Why a folder's bundle wasn't written.
#[derive(Clone, Copy, Debug, PartialEq, Eq, Error)]
pub enum PackFault {
    /// There was no memory. Nothing was written.
    Memory,
    /// A write failed. A beginning of the bundle was written.
    Device,
    /// Something in the folder is neither a file nor a folder, can't be read, lies too deep or has a name that no path has. Nothing was
    /// written.
    Ended,
}

impl fmt::Display for PackFault {
    ghost use Rattle.std.specs.Prelude.{Some};
    ghost use Rattle.packing.specs.Ends.{fault_text};

    ghost output = { λ fault. Some (fault_text fault) };

    fn fmt<W: fmt::Write>(&self, f: &mut fmt::Formatter<W>) -> fmt::Result {
        match self {
            PackFault::Memory => write!(f, "out of memory"),
            PackFault::Device => write!(f, "device failed"),
            PackFault::Ended => write!(f, "cannot pack"),
        }
    }
}

impl From<Memory> for PackFault {
    ghost use Rattle.std.specs.Prelude.{◌≡◌};
    ghost use Rattle.packing.specs.declared.fault.PackFault.TheVariants.{Memory as want};

    ghost from_gives = { λ _ fault. fault ≡ want };

    fn from(_memory: Memory) -> PackFault {
        PackFault::Memory
    }
}

impl From<AllocError> for PackFault {
    ghost use Rattle.std.specs.Prelude.{◌≡◌};
    ghost use Rattle.packing.specs.declared.fault.PackFault.TheVariants.{Memory as want};

    ghost from_gives = { λ _ fault. fault ≡ want };

    fn from(_error: AllocError) -> PackFault {
        PackFault::Memory
    }
}

impl<T: Drop> From<AllocFailed<T>> for PackFault {
    ghost use Rattle.std.specs.Prelude.{◌≡◌};
    ghost use Rattle.packing.specs.declared.fault.PackFault.TheVariants.{Memory as want};

    ghost from_gives = { λ _ fault. fault ≡ want };

    fn from(_error: AllocFailed<T>) -> PackFault {
        PackFault::Memory
    }
}

impl From<EdgeFault> for PackFault {
    ghost use Rattle.std.specs.Prelude.{◌≡◌};
    ghost use Rattle.packing.specs.Ends.{of_edge};

    ghost from_gives = { λ edge fault. fault ≡ of_edge edge };

    fn from(edge: EdgeFault) -> PackFault {
        match edge {
            Fault::Memory => PackFault::Memory,
            Fault::Because(Device) => PackFault::Device,
        }
    }
}

impl From<PathFault> for PackFault {
    ghost use Rattle.packing.specs.Ends.{IsBefore};

    ghost from_gives = { λ _ fault. IsBefore fault };

    fn from(fault: PathFault) -> PackFault {
        match fault {
            Fault::Memory => PackFault::Memory,
            Fault::Because(_) => PackFault::Ended,
        }
    }
}

impl From<TreeFault> for PackFault {
    ghost use Rattle.packing.specs.Ends.{IsBefore};

    ghost from_gives = { λ _ fault. IsBefore fault };

    fn from(fault: TreeFault) -> PackFault {
        match fault {
            Fault::Memory => PackFault::Memory,
            Fault::Because(_) => PackFault::Ended,
        }
    }
}
