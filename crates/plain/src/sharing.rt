use crate::{Exact, Memory};
use std::alloc::Global;

/// How the content of a cache mount is shared between the commands that use it at one time
/// (Dockerfile reference, `RUN --mount=type=cache,sharing=..`).
#[derive(Clone, Copy, Debug, PartialEq, Eq)]
pub enum Sharing {
    /// Several may use it at once.
    Shared,
    /// Each of those that use it at once has a content of its own.
    Private,
    /// One uses it at a time, and others wait.
    Locked,
}

impl Exact for Sharing {
    fn same(&self, other: &Sharing) -> bool {
        matches!(
            (self, other),
            (Sharing::Shared, Sharing::Shared)
                | (Sharing::Private, Sharing::Private)
                | (Sharing::Locked, Sharing::Locked)
        )
    }

    fn copy(&self, _alloc: Global) -> Result<Sharing, Memory> {
        Ok(*self)
    }
}
