use crate::{Exact, Memory};
use std::alloc::Global;

/// The owner of a file or a directory, by the numbers of its user and its group.
#[derive(Clone, Copy, Debug, PartialEq, Eq)]
pub struct Owner {
    pub user: u32,
    pub group: u32,
}

impl Exact for Owner {
    fn same(&self, other: &Owner) -> bool {
        self.user == other.user && self.group == other.group
    }

    fn copy(&self, _alloc: Global) -> Result<Owner, Memory> {
        Ok(*self)
    }
}
