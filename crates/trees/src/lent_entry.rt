ghost use Rattle.std.specs.Prelude.{◌≡◌, Some, IfOk};
ghost use Rattle.trees.specs.TreeMap.{is_directory, meta_of};
ghost use Rattle.trees.specs.Rows.{entry_of};

use crate::{Content, Entry, Meta};
use plain::{Exact, Memory};
use std::alloc::Global;

/// What stands at a path of a tree, lent. The mode and the owner are given as they are there: entries that a COPY put others on may be held
/// without these.
#[derive(Clone, Copy, Debug)]
pub enum LentEntry<'a> {
    /// A directory. What is in it are the entries at the paths below its own.
    Directory(Meta),
    /// A file, with all its bytes.
    File(Meta, &'a Content),
}

impl<'a> LentEntry<'a> {
    /// Whether it is a directory.
    pub fn is_directory(&self) -> bool
        ensures { result ≡ is_directory (Some (entry_of self.now)) }
    {
        matches!(self, LentEntry::Directory(_))
    }

    /// Its mode and owner.
    pub fn meta(&self) -> Meta
        ensures { result ≡ meta_of (entry_of self.now) }
    {
        match self {
            LentEntry::Directory(meta) => *meta,
            LentEntry::File(meta, _) => *meta,
        }
    }

    /// An entry of its own, which shares the bytes of a file.
    pub fn to_entry(&self, alloc: Global) -> Result<Entry, Memory>
        ensures { IfOk result (λ entry. entry ≡ entry_of self.now) }
    {
        match self {
            LentEntry::Directory(meta) => Ok(Entry::Directory(*meta)),
            LentEntry::File(meta, content) => Ok(Entry::File(*meta, content.copy(alloc)?)),
        }
    }
}
