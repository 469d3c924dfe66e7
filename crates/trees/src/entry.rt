ghost use Rattle.std.specs.Prelude.{◌≡◌, Some};
ghost use Rattle.trees.specs.TreeMap.{is_directory, meta_of};

use crate::{Content, Meta};
use plain::{Exact, Memory};
use std::alloc::Global;

/// What stands at a path of a tree.
#[derive(Debug, Drop)]
pub enum Entry {
    /// A directory. What is in it are the entries at the paths below its own.
    Directory(Meta),
    /// A file, with all its bytes.
    File(Meta, Content),
}

impl Entry {
    /// Whether it is a directory.
    pub fn is_directory(&self) -> bool
        ensures { result ≡ is_directory (Some self.now) }
    {
        matches!(self, Entry::Directory(_))
    }

    /// Its mode and owner.
    pub fn meta(&self) -> Meta
        ensures { result ≡ meta_of self.now }
    {
        match self {
            Entry::Directory(meta) => *meta,
            Entry::File(meta, _) => *meta,
        }
    }
}

impl Exact for Entry {
    fn same(&self, other: &Entry) -> bool {
        match (self, other) {
            (Entry::Directory(meta), Entry::Directory(other_meta)) => meta.same(other_meta),
            (Entry::File(meta, content), Entry::File(other_meta, other_content)) => {
                meta.same(other_meta) && content.same(other_content)
            }
            _ => false,
        }
    }

    fn copy(&self, alloc: Global) -> Result<Entry, Memory> {
        match self {
            Entry::Directory(meta) => Ok(Entry::Directory(*meta)),
            Entry::File(meta, content) => Ok(Entry::File(*meta, content.copy(alloc)?)),
        }
    }
}
