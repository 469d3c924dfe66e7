use std::alloc::{AllocError, AllocFailed};
use std::fmt;
use thiserror::Error;

/// There was no memory for a growth: a growth was asked for and refused.
///
/// It is the one such error of the whole workspace. Both of std's errors become it by `?`.
#[derive(Clone, Copy, Debug, PartialEq, Eq, Error)]
pub struct Memory;

impl fmt::Display for Memory {
    ghost use Rattle.std.specs.Prelude.{Some, codes};

    ghost output = { λ _. Some (codes "out of memory") };

    fn fmt<W: fmt::Write>(&self, f: &mut fmt::Formatter<W>) -> fmt::Result {
        write!(f, "out of memory")
    }
}

impl From<AllocError> for Memory {
    fn from(_error: AllocError) -> Memory {
        Memory
    }
}

impl<T: Drop> From<AllocFailed<T>> for Memory {
    fn from(_error: AllocFailed<T>) -> Memory {
        Memory
    }
}
