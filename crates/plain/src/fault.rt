use crate::Memory;
use std::alloc::{AllocError, AllocFailed};
use std::fmt;
use thiserror::Error;

/// Why a call gives no answer: a reason of its own, or want of memory.
///
/// It is the one such type of the workspace: `?` turns each want of memory into `Memory`, and the reasons of a call are an enum of the
/// crate that has the call, as `pub type PathFault = Fault<PathLimit>`.
#[derive(Debug, PartialEq, Eq, Drop, Error)]
#[error_bound(Why: fmt::Display)]
pub enum Fault<Why> {
    /// There is no answer, for this reason.
    #[error(transparent)]
    Because(Why),
    /// There was no memory for the answer. Nothing is said of what was asked.
    #[error("out of memory")]
    Memory,
}

impl<Why> From<Memory> for Fault<Why> {
    ghost use Rattle.std.specs.Prelude.{◌≡◌};
    ghost use Rattle.plain.specs.declared.fault.Fault.TheVariants.{Memory as want};

    ghost from_gives = { λ _ fault. fault ≡ want };

    fn from(_memory: Memory) -> Fault<Why> {
        Fault::Memory
    }
}

impl<Why> From<AllocError> for Fault<Why> {
    ghost use Rattle.std.specs.Prelude.{◌≡◌};
    ghost use Rattle.plain.specs.declared.fault.Fault.TheVariants.{Memory as want};

    ghost from_gives = { λ _ fault. fault ≡ want };

    fn from(_error: AllocError) -> Fault<Why> {
        Fault::Memory
    }
}

impl<Why, T: Drop> From<AllocFailed<T>> for Fault<Why> {
    ghost use Rattle.std.specs.Prelude.{◌≡◌};
    ghost use Rattle.plain.specs.declared.fault.Fault.TheVariants.{Memory as want};

    ghost from_gives = { λ _ fault. fault ≡ want };

    fn from(_error: AllocFailed<T>) -> Fault<Why> {
        Fault::Memory
    }
}
