// Which paths are kept, folder by folder, for whoever walks a tree of files from its root.
//
// What the lines decide of a folder is handed down to what lies in it, and of the lines that are tried one after another only those are tried there
// which the folder's names leave. So a walk costs what `Ignore::kept` costs for all its paths, though it may end at each folder that is left out.
ghost use Rattle.std.specs.Prelude.{◌≡◌, ◌↔◌, IsTrue, IfOk, [], false};
ghost use Rattle.std.specs.List.{list_any};
ghost use Rattle.ignorefile.specs.Kept.{Kept, KeepsNothing};
ghost use Rattle.ignorefile.specs.PrivateIndex.{IsIndex};
ghost use Rattle.ignorefile.specs.PrivateRanks.{IsDecided};
ghost use Rattle.ignorefile.specs.PrivateWalk.{may_except_below};

use crate::ignore::{Ignore, count_shared, lets};
use crate::index::{Index, Left};
use crate::line::Line;
use paths::Path;
use plain::{Memory, Text};
use std::alloc::Global;
use std::marker::Model;

/// A path, and which line of an ignore file decides of it. Contracts see the lines and the path.
#[derive(Drop)]
pub struct Decided<'a> {
    lines: &'a [Line],
    index: &'a Index,
    path: Path,
    /// The rank of the line that decides.
    rank: usize,
}

impl<'a> Model for Decided<'a> {
    ghost use Rattle.ignorefile.specs.Walk.{DecidedValue};
    ghost use Rattle.ignorefile.specs.PrivateIndex.{IsIndex};
    ghost use Rattle.ignorefile.specs.PrivateRanks.{IsDecided};

    ghost Value = { DecidedValue };

    ghost view = { λ d. record { lines = d.lines.now; path = d.path } };

    ghost invariant = { λ d.
        IsIndex d.lines.now d.index.now.by_name.entries d.index.now.by_folder.entries d.index.now.by_begin d.index.now.by_count d.index.now.others
        × IsDecided d.lines.now d.path d.rank };
}

/// An ignore file as it bears on what lies right in a folder. Contracts see its lines.
#[derive(Drop)]
pub struct FolderLines<'b, 'a> {
    folder: &'b Path,
    lines: &'a [Line],
    index: &'a Index,
    /// The rank of the line that decides of the folder.
    rank: usize,
    /// The lines that the folder's names leave.
    left: Left,
}

impl<'b, 'a> Model for FolderLines<'b, 'a> {
    ghost use Rattle.std.specs.Prelude.{List};
    ghost use Rattle.ignorefile.specs.declared.line.Line.{Line};
    ghost use Rattle.ignorefile.specs.PrivateIndex.{IsIndex};
    ghost use Rattle.ignorefile.specs.PrivateRanks.{IsDecided};
    ghost use Rattle.ignorefile.specs.PrivateLeft.{IsLeft};

    ghost Value = { List Line };

    ghost view = { λ f. f.lines.now };

    ghost invariant = { λ f.
        IsIndex f.lines.now f.index.now.by_name.entries f.index.now.by_folder.entries f.index.now.by_begin f.index.now.by_count f.index.now.others
        × IsDecided f.lines.now f.folder.now f.rank
        × IsLeft f.lines.now f.index.now f.folder.now f.left };
}

impl Ignore {
    /// The root of a tree of files, from which a walk goes down. It takes no memory.
    pub fn at_root(&self, alloc: Global) -> Decided<'_>
        ensures lines { result.lines ≡ self.now }
        ensures path { result.path ≡ [] }
    {
        let path = Path::root(alloc);
        let rank = self.rank(&path);
        Decided {
            lines: self.lines.as_slice(),
            index: &self.index,
            path,
            rank,
        }
    }
}

impl<'a> Decided<'a> {
    /// The path that is decided of.
    pub fn path(&self) -> &Path
        ensures { result.now ≡ self.now.path }
    {
        &self.path
    }

    /// Whether the path is kept, as `Ignore::keeps` says it. It takes no memory.
    pub fn is_kept(&self) -> bool
        ensures { IsTrue result ↔ Kept self.now.lines self.now.path }
    {
        lets(self.lines, self.rank)
    }

    /// Whether a line may keep something at this path or below it. No name below it is known, so what may be kept need not be; what isn't, is
    /// left out. It takes no memory.
    pub fn may_keep(&self) -> bool
        ensures { result ≡ false → KeepsNothing self.now.lines self.now.path }
    {
        if self.is_kept() {
            return true;
        }
        excepts_below(self.lines, self.path.components())
    }

    /// The lines as they bear on what lies right in the folder at this path.
    pub fn folder(&self, alloc: Global) -> Result<FolderLines<'_, 'a>, Memory>
        ensures { IfOk result (λ lines. lines ≡ self.now.lines) }
    {
        let left = self
            .index
            .left_in(alloc, self.lines, self.path.components())?;
        Ok(FolderLines {
            folder: &self.path,
            lines: self.lines,
            index: self.index,
            rank: self.rank,
            left,
        })
    }
}

impl<'b, 'a> FolderLines<'b, 'a> {
    /// What the lines decide of a path; quickly, if it lies right in the folder. It takes no memory.
    pub fn decide(&self, path: Path) -> Decided<'a>
        ensures lines { result.lines ≡ self.now }
        ensures path { result.path ≡ path }
    {
        let rank = self.rank_of(&path);
        Decided {
            lines: self.lines,
            index: self.index,
            path,
            rank,
        }
    }

    /// The rank of the line that decides of a path.
    fn rank_of(&self, path: &Path) -> usize
        ensures { IsDecided self.now path.now result }
    {
        let names = path.components();
        let above = self.folder.components();
        if names.len() == above.len() + 1 && count_shared(above, names) == above.len() {
            self.index
                .verdict_left(self.lines, &self.left, names, self.rank)
        } else {
            self.index.rank(self.lines, names)
        }
    }
}

/// Whether a line is an exception that may relate to paths below this one.
fn excepts_below(lines: &[Line], names: &[Text]) -> bool
    ensures { result ≡ list_any (may_except_below names.now) lines.now }
{
    lines.iter().any(|line| line.may_except_below(names))
}
