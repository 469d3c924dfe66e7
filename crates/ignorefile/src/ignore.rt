ghost use Rattle.std.specs.Prelude.{◌≡◌, ◌↔◌, ◌≤◌, ◌-◌, IsTrue, IfOk, [], length, take};
ghost use Rattle.std.specs.List.{AllZip};
ghost use Rattle.ignorefile.specs.Kept.{Kept, IsDeciding, LetsKeep};
ghost use Rattle.ignorefile.specs.File.{IsIgnoreRead, ignore_of};
ghost use Rattle.ignorefile.specs.PrivateRanks.{IsDecided, Lets, IsShared};

use crate::IgnoreFault;
use crate::file::read_lines;
use crate::index::{Index, add, folder_of};
use crate::line::Line;
use crate::positions::Positions;
use paths::Path;
use plain::{Exact, Items, Memory, Text};
use std::alloc::Global;
use std::collections::BTreeMap;
use std::marker::Model;

/// An ignore file. Contracts see its lines.
#[derive(Drop)]
pub struct Ignore {
    pub(crate) lines: Items<Line>,
    pub(crate) index: Index,
}

impl Model for Ignore {
    ghost use Rattle.std.specs.Prelude.{List};
    ghost use Rattle.ignorefile.specs.declared.line.Line.{Line};
    ghost use Rattle.ignorefile.specs.PrivateIndex.{IsIndex};

    ghost Value = { List Line };

    ghost view = { λ i. i.lines };

    ghost invariant = { λ i. IsIndex i.lines i.index.by_name.entries i.index.by_folder.entries i.index.by_begin i.index.by_count i.index.others };
}

/// Whether a line of this rank lets a path be kept.
pub(crate) fn lets(lines: &[Line], rank: usize) -> bool
    requires { rank ≤ length lines.now }
    ensures { IsTrue result ↔ Lets lines.now rank }
{
    if rank == 0 {
        return true;
    }
    lines[rank - 1].exception
}

/// How many first names two paths share.
pub(crate) fn count_shared(these: &[Text], those: &[Text]) -> usize
    ensures { IsShared these.now those.now result }
{
    let most = these.len().min(those.len());
    for index in 0..most {
        if !these[index].same(&those[index]) {
            return index;
        }
    }
    most
}

impl Ignore {
    /// An ignore file without lines, which keeps every path. It takes no memory.
    pub fn none(alloc: Global) -> Ignore
        ensures { result ≡ [] }
    {
        Ignore {
            lines: Items::new(alloc),
            index: Index {
                by_name: BTreeMap::new(alloc),
                by_begin: Positions::new(alloc),
                by_folder: BTreeMap::new(alloc),
                by_count: Positions::new(alloc),
                others: Items::new(alloc),
            },
        }
    }

    /// The ignore file of these lines.
    fn from_lines(alloc: Global, lines: Vec<Line>) -> Result<Ignore, Memory>
        ensures { IfOk result (λ ignore. ignore ≡ lines.items) }
    {
        let mut by_name = BTreeMap::new(alloc);
        let mut by_begin = Positions::new(alloc);
        let mut by_folder = BTreeMap::new(alloc);
        let mut by_count = Positions::new(alloc);
        let mut others = Items::new(alloc);
        let rows = lines.as_slice();
        for position in 0..rows.len() {
            let line = &rows[position];
            match line.last_name() {
                Some(name) => add(alloc, &mut by_name, name, position)?,
                None => match line.last_begin() {
                    Some(byte) => by_begin.enter(alloc, byte as usize, position)?,
                    None => match line.folder_name() {
                        Some(name) => add(alloc, &mut by_folder, name, position)?,
                        None => match line.count() {
                            Some(count) => by_count.enter(alloc, count, position)?,
                            None => others.push(position)?,
                        },
                    },
                },
            }
        }
        Ok(Ignore {
            lines: Items::from_vec(lines),
            index: Index {
                by_name,
                by_begin,
                by_folder,
                by_count,
                others,
            },
        })
    }

    /// The ignore file of these bytes. They are lines that end by LF, of which a CR just before that LF is dropped, behind a byte
    /// order mark or none. A line with `#` in column one is a comment; blanks around others are dropped, and empty ones say nothing.
    /// A `!` makes an exception, and blanks behind it are dropped. The rest is a pattern as `Glob::read` takes it, but that a component
    /// that is just `**` stands for any number of components, also none (own: in every position); one without components, as `/`,
    /// says nothing.
    ///
    /// It fails with the first bad line: one that isn't UTF-8, also in a comment, whose pattern is malformed, or that is a `!` alone.
    pub fn read(alloc: Global, bytes: &[u8]) -> Result<Ignore, IgnoreFault>
        ensures { IsIgnoreRead (ignore_of bytes.now) result }
    {
        let lines = read_lines(alloc, bytes)?;
        let ignore = Ignore::from_lines(alloc, lines)?;
        Ok(ignore)
    }

    /// The rank of the line that decides of a path.
    pub(crate) fn rank(&self, path: &Path) -> usize
        ensures { IsDecided self.now path.now result }
    {
        self.index.rank(self.lines.as_slice(), path.components())
    }

    /// Whether a path is kept: no line relates to it or to a folder that it lies in, or the last one that does is an exception. It
    /// takes no memory.
    pub fn keeps(&self, path: &Path) -> bool
        ensures { IsTrue result ↔ Kept self.now path.now }
    {
        lets(self.lines.as_slice(), self.rank(path))
    }

    /// Which line decides of a path: the position of the last one that relates to it or to a folder that it lies in; none where no line
    /// does. Positions count the lines that have a pattern. It takes no memory.
    pub fn deciding(&self, path: &Path) -> Option<usize>
        ensures line { IsDeciding self.now path.now result }
        ensures kept { Kept self.now path.now ↔ LetsKeep self.now result }
    {
        let rank = self.rank(path);
        if rank == 0 {
            return None;
        }
        Some(rank - 1)
    }

    /// Which of these rows have a path that is kept, in their order: `keeps` of each. Rows in path order are fastest, since what is
    /// decided of a folder, and what its names leave of the lines, is handed down to those after it that lie in it.
    pub fn kept<T>(&self, alloc: Global, rows: &[(Path, T)]) -> Result<Vec<bool>, Memory>
        ensures { IfOk result (λ flags. AllZip (λ row flag. IsTrue flag ↔ Kept self.now row.0) rows.now flags.items) }
    {
        let lines = self.lines.as_slice();
        let index = &self.index;
        let mut flags = Vec::with_capacity(alloc, rows.len())?;
        let mut decided = [index.verdict(lines, &[], 0); 65];
        let mut left = index.left_in(alloc, lines, &[])?;
        let mut last: &[Text] = &[];
        for row in rows {
            let names = row.0.components();
            let shared = count_shared(last, names);
            let folder = folder_of(names);
            if shared < folder.len() || folder.len() != folder_of(last).len() {
                left = index.left_in(alloc, lines, folder)?;
            }
            index.hand_down(lines, &left, names, shared, &mut decided);
            flags.push(lets(lines, decided[names.len()]))?;
            last = names;
        }
        Ok(flags)
    }
}
