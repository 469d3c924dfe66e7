// What a COPY is asked, and what it does to a tree path by path.

ghost use Rattle.std.specs.Prelude.{◌≡◌, ◌↔◌, IsTrue, IfOk};
ghost use Rattle.trees.specs.declared.entry.Entry.{Entry as EntryValue};
ghost use Rattle.trees.specs.Rows.{entry_of};
ghost use Rattle.trees.specs.Copy.{parent_meta, placed_meta, placed_entry};
ghost use Rattle.trees.specs.PrivateCopy.{keeping};

use crate::{Content, Entry, LentEntry, Meta};
use paths::{LongPath, Name, Path};
use plain::{Exact, Items, Memory, Mode, Owner};
use std::alloc::Global;

/// What the flags of a COPY and the text of its destination say.
#[derive(Clone, Copy, Debug)]
pub struct CopyOptions {
    /// Whether files go into the destination because its text says so: it ends in `/`, or its last component is `.` or `..`.
    pub into: bool,
    /// The owner of `--chown`, that of missing parents too; without it an entry keeps its own, and parents are 0:0.
    pub owner: Option<Owner>,
    /// The mode of `--chmod`, which isn't put on missing parents; without it an entry keeps its own.
    pub mode: Option<Mode>,
}

/// A source of a COPY, already looked up.
#[derive(Drop)]
pub enum Source {
    /// The paths of the tree copied from that a pattern matches, in path order. None at all, or a path at which nothing stands,
    /// is a missing source (`F1`).
    Found(Items<Path>),
    /// A file of its own, as a heredoc gives it: its name and its bytes. It is 0644 and 0:0, unless the options say otherwise.
    Data(Name, Content),
}

/// What a COPY does at one path.
#[derive(Drop)]
pub(crate) enum Change {
    /// It places an entry there, whose path may still turn out to be too deep.
    Place(LongPath, Entry),
    /// It makes a directory, the destination, where nothing stands.
    Make(Path),
}

impl Exact for CopyOptions {
    fn same(&self, other: &CopyOptions) -> bool {
        self.into == other.into && self.owner.same(&other.owner) && self.mode.same(&other.mode)
    }

    fn copy(&self, _alloc: Global) -> Result<CopyOptions, Memory> {
        Ok(*self)
    }
}

impl CopyOptions {
    /// The mode and owner of a missing parent.
    pub(crate) fn parent_meta(&self) -> Meta
        ensures { result ≡ parent_meta self.now }
    {
        let meta = Meta::directory();
        match self.owner {
            None => meta,
            Some(owner) => Meta {
                mode: meta.mode,
                uid: owner.user,
                gid: owner.group,
            },
        }
    }

    /// The mode and owner with which an entry that has these is placed.
    pub(crate) fn placed_meta(&self, own: Meta) -> Meta
        ensures { result ≡ placed_meta self.now own }
    {
        let owned = match self.owner {
            None => own,
            Some(owner) => Meta {
                mode: own.mode,
                uid: owner.user,
                gid: owner.group,
            },
        };
        match self.mode {
            None => owned,
            Some(mode) => Meta {
                mode,
                uid: owned.uid,
                gid: owned.gid,
            },
        }
    }

    /// An entry, lent with the mode and owner with which it is placed.
    pub(crate) fn lent_entry<'a>(&self, entry: &'a Entry) -> LentEntry<'a>
        ensures { entry_of result ≡ placed_entry self.now entry.now }
    {
        match entry {
            Entry::Directory(meta) => LentEntry::Directory(self.placed_meta(*meta)),
            Entry::File(meta, content) => LentEntry::File(self.placed_meta(*meta), content),
        }
    }

    /// A copy of an entry, with the mode and owner with which it is placed.
    pub(crate) fn placed_entry(&self, alloc: Global, entry: &Entry) -> Result<Entry, Memory>
        ensures { IfOk result (λ placed. placed ≡ placed_entry self.now entry.now) }
    {
        self.lent_entry(entry).to_entry(alloc)
    }

    /// Whether two entries are equal once each is placed as its options say.
    pub(crate) fn places_same(&self, entry: &Entry, others: &CopyOptions, other: &Entry) -> bool
        ensures { IsTrue result ↔ (placed_entry self.now entry.now ≡ placed_entry others.now other.now) }
    {
        match (entry, other) {
            (Entry::Directory(meta), Entry::Directory(other_meta)) => {
                self.placed_meta(*meta)
                    .same(&others.placed_meta(*other_meta))
            }
            (Entry::File(meta, content), Entry::File(other_meta, other_content)) => {
                self.placed_meta(*meta)
                    .same(&others.placed_meta(*other_meta))
                    && content.same(other_content)
            }
            _ => false,
        }
    }

    /// Options by which each entry keeps its mode and owner.
    pub(crate) fn keeping() -> CopyOptions
        ensures { result ≡ keeping }
    {
        CopyOptions {
            into: false,
            owner: None,
            mode: None,
        }
    }

    /// Whether entries are placed with their own modes and owners.
    pub(crate) fn is_keeping(&self) -> bool
        ensures { IsTrue result → (entry : EntryValue) → placed_entry self.now entry ≡ entry }
    {
        self.owner.is_none() && self.mode.is_none()
    }

    /// These options and then later ones, as one.
    pub(crate) fn then(&self, later: &CopyOptions) -> CopyOptions
        ensures { (entry : EntryValue) → placed_entry result entry ≡ placed_entry later.now (placed_entry self.now entry) }
    {
        CopyOptions {
            into: false,
            owner: later.owner.or(self.owner),
            mode: later.mode.or(self.mode),
        }
    }
}
