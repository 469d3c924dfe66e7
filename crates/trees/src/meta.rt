ghost use Rattle.std.specs.Prelude.{◌≡◌};
ghost use Rattle.trees.specs.TreeMap.{directory_meta, file_meta};

use plain::{Exact, Memory, Mode};
use std::alloc::Global;

/// What stands beside the content of an entry: its mode, and the numbers of its owner and group.
#[derive(Clone, Copy, Debug, PartialEq, Eq)]
pub struct Meta {
    pub mode: Mode,
    pub uid: u32,
    pub gid: u32,
}

impl Meta {
    /// 0755, owner 0:0: a directory for which nothing else is said, as a missing parent that is made on the way.
    pub fn directory() -> Meta
        ensures { result ≡ directory_meta }
    {
        Meta {
            mode: Mode::directory(),
            uid: 0,
            gid: 0,
        }
    }

    /// 0644, owner 0:0: a file for which nothing else is said.
    pub fn file() -> Meta
        ensures { result ≡ file_meta }
    {
        Meta {
            mode: Mode::file(),
            uid: 0,
            gid: 0,
        }
    }
}

impl Exact for Meta {
    fn same(&self, other: &Meta) -> bool {
        self.mode.same(&other.mode) && self.uid == other.uid && self.gid == other.gid
    }

    fn copy(&self, _alloc: Global) -> Result<Meta, Memory> {
        Ok(*self)
    }
}
