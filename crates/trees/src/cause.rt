use crate::Tree;
use plain::{Exact, Fault, Memory};
use std::alloc::Global;
use std::fmt;
use thiserror::Error;

/// Why an instruction of a build fails. The names are those that an answer prints.
#[derive(Clone, Copy, Debug, PartialEq, Eq, Error)]
pub enum Cause {
    /// A source isn't there: a COPY's pattern has no match, or the folder that a RUN binds is missing.
    F1,
    /// A file stands where a directory is needed: on the way to a path, or where a directory is to be placed.
    F2,
    /// One COPY places two entries onto one path, and they aren't both directories.
    F3,
    /// A directory stands where a file is to be placed.
    F4,
    /// A path would have more than 64 components.
    F5,
    /// A command ended with this status, from 1 to 255.
    Exit(u8),
}

/// Why a call on a tree gives nothing: what was asked fails for this cause, or there was no memory.
pub type TreeFault = Fault<Cause>;

/// A tree, or the cause why there is none: what an instruction comes to, whatever memory there is.
pub type TreeOrCause = Result<Tree, Cause>;

impl Exact for Cause {
    fn same(&self, other: &Cause) -> bool {
        match (*self, *other) {
            (Cause::F1, Cause::F1) => true,
            (Cause::F2, Cause::F2) => true,
            (Cause::F3, Cause::F3) => true,
            (Cause::F4, Cause::F4) => true,
            (Cause::F5, Cause::F5) => true,
            (Cause::Exit(status), Cause::Exit(other_status)) => status == other_status,
            _ => false,
        }
    }

    fn copy(&self, _alloc: Global) -> Result<Cause, Memory> {
        Ok(*self)
    }
}

impl fmt::Display for Cause {
    ghost use Rattle.std.specs.Prelude.{Some};
    ghost use Rattle.trees.specs.Cause.{cause_text};

    ghost output = { λ cause. Some (cause_text cause) };

    fn fmt<W: fmt::Write>(&self, f: &mut fmt::Formatter<W>) -> fmt::Result {
        match self {
            Cause::F1 => write!(f, "F1"),
            Cause::F2 => write!(f, "F2"),
            Cause::F3 => write!(f, "F3"),
            Cause::F4 => write!(f, "F4"),
            Cause::F5 => write!(f, "F5"),
            Cause::Exit(status) => write!(f, "exit {status}"),
        }
    }
}
