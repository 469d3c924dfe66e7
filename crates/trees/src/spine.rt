// The folders that are open while a tree is built from rows in the order of a walk: those on the way from the root to the last row. A row
// closes the ones that it isn't in, each once, and opens its own. No row is looked for from the root, and a name is copied once. `growing.rt`
// does so from the last row to the first, as the tree of a whole list is defined, and goes on if a row doesn't follow.
ghost use Rattle.std.specs.Prelude.{◌≡◌, ◌++◌, ◌∷◌, [], true, IfOk, OnOk, Some, None, not};
ghost use Rattle.std.specs.Arc.{arc_value};
ghost use Rattle.std.specs.FinMap.Entries.{is_sorted};
ghost use Rattle.paths.specs.Order.{name_cmp};
ghost use Rattle.trees.specs.TreeMap.{is_directory};
ghost use Rattle.trees.specs.Builder.{comes_next};
ghost use Rattle.trees.specs.PrivateNode.{node_of, lists_of, are_full};
ghost use Rattle.trees.specs.PrivateSpine.{ArePutAway, held, opened, Rise, IsSpine, Forks, IsHeld, AreShut, Adds};

use crate::inner::lifted;
use crate::names::Names;
use crate::node::Node;
use crate::part::{Part, most_names};
use crate::{Entry, Meta};
use plain::{Exact, Memory, Text};
use std::alloc::Global;
use std::cmp::Ordering;
use std::marker::Model;
use std::sync::Arc;

/// A folder whose rows aren't all there yet, or a file that is the last row.
#[derive(Drop)]
pub(crate) struct OpenFolder {
    /// What it is called in the folder above. The root has no name.
    name: Text,
    entry: Entry,
    /// The children that are closed, in full parts.
    parts: Vec<Part>,
    /// The children after those.
    rows: Vec<(Text, Node)>,
    /// How many names the longest path among these children and below them has.
    depth: usize,
}

impl Model for OpenFolder {
    ghost use Rattle.std.specs.Prelude.{◌++◌};
    ghost use Rattle.trees.specs.PrivateNode.{flat, lists_of};
    ghost use Rattle.trees.specs.PrivateSpine.{OpenValue, open_code, AreParted};

    ghost Value = { OpenValue };

    ghost coded = { open_code };

    ghost view = { λ o. record { name = o.name; top = o.entry; kids = flat (lists_of o.parts.items) ++ o.rows.items } };

    ghost invariant = { λ o. AreParted (lists_of o.parts.items) o.rows.items o.depth };
}

impl OpenFolder {
    /// A folder with nothing in it yet. It takes no memory.
    fn new(alloc: Global, name: Text, entry: Entry) -> OpenFolder
        ensures { result ≡ record { name = name; top = entry; kids = [] } }
    {
        OpenFolder {
            name,
            entry,
            parts: Vec::new(alloc),
            rows: Vec::new(alloc),
            depth: 0,
        }
    }

    /// What it is called, lent.
    fn name(&self) -> &Text
        ensures { result.now ≡ self.now.name }
    {
        &self.name
    }

    /// Whether its entry is a directory.
    fn is_directory(&self) -> bool
        ensures { result ≡ is_directory (Some self.now.top) }
    {
        self.entry.is_directory()
    }

    /// Its name, and the node that has its entry and its children.
    pub(crate) fn into_kid(self, alloc: Global) -> Result<(Text, Node), Memory>
        ensures { IfOk result (λ kid. kid ≡ (self.name, node_of self.top self.kids)) }
    {
        let OpenFolder {
            name,
            entry,
            mut parts,
            mut rows,
            depth,
        } = self;
        if rows.is_empty() && parts.is_empty() {
            return Ok((name, Node::leaf(entry)));
        }
        put_away(alloc, &mut parts, &mut rows)?;
        let node = Node::of_parts(alloc, entry, parts, depth)?;
        Ok((name, node))
    }

    /// One child more, after all others: a folder that is closed.
    fn hold(self, alloc: Global, last: OpenFolder) -> Result<OpenFolder, Memory>
        requires { is_sorted name_cmp (self.kids ++ (last.name, node_of last.top last.kids) ∷ []) ≡ true }
        ensures { IfOk result (λ more. more ≡ held self last) }
    {
        let kid = last.into_kid(alloc)?;
        let OpenFolder {
            name,
            entry,
            mut parts,
            mut rows,
            depth,
        } = self;
        let deepest = depth.max(lifted(kid.1.depth(), 1));
        make_room(alloc, &mut parts, &mut rows)?;
        rows.push(kid)?;
        Ok(OpenFolder {
            name,
            entry,
            parts,
            rows,
            depth: deepest,
        })
    }
}

/// Moves all rows into a part of their own, if there are as many as a part has.
fn make_room(
    alloc: Global,
    parts: &mut Vec<Part>,
    rows: &mut Vec<(Text, Node)>,
) -> Result<(), Memory>
    requires full { are_full (lists_of parts.old.items) ≡ true }
    requires rise { is_sorted name_cmp rows.old.items ≡ true }
    ensures { OnOk result (ArePutAway (lists_of parts.old.items) rows.old.items (lists_of parts.new.items) rows.new.items) }
{
    if rows.len() < most_names(parts.len()) {
        return Ok(());
    }
    put_away(alloc, parts, rows)
}

/// Moves all rows into a part of their own, if there are any.
fn put_away(
    alloc: Global,
    parts: &mut Vec<Part>,
    rows: &mut Vec<(Text, Node)>,
) -> Result<(), Memory>
    requires full { are_full (lists_of parts.old.items) ≡ true }
    requires rise { is_sorted name_cmp rows.old.items ≡ true }
    ensures moved { OnOk result (ArePutAway (lists_of parts.old.items) rows.old.items (lists_of parts.new.items) rows.new.items) }
    ensures none_left { OnOk result (rows.new.items ≡ []) }
{
    if rows.is_empty() {
        return Ok(());
    }
    let part = part_of(alloc, rows)?;
    parts.push(part)?;
    Ok(())
}

/// Takes all rows as a part. It has no room that it doesn't need.
fn part_of(alloc: Global, rows: &mut Vec<(Text, Node)>) -> Result<Part, Memory>
    requires { is_sorted name_cmp rows.old.items ≡ true }
    ensures part { IfOk result (λ part. arc_value part ≡ rows.old.items) }
    ensures none_left { OnOk result (rows.new.items ≡ []) }
{
    let mut exact = Vec::with_capacity(alloc, rows.len())?;
    exact.append(rows)?;
    let part = Arc::new(alloc, Names::of_rows(exact))?;
    Ok(part)
}

/// How many of the open folders have to be closed before a path, seen from the first of them, is opened. `None` if it doesn't come after
/// the last row, or lies below it and that is a file.
fn fork(folders: &[OpenFolder], path: &[Text]) -> Option<usize>
    requires { IsSpine folders.now }
    ensures { Forks folders.now path.now result }
{
    let [folder, below @ ..] = folders else {
        return None;
    };
    let [name, rest @ ..] = path else {
        return None;
    };
    match below {
        [] => { if folder.is_directory() { Some(0) } else { None } }
        [child, ..] => match child.name().cmp(name) {
            Ordering::Less => Some(below.len()),
            Ordering::Equal => fork(below, rest),
            Ordering::Greater => None,
        },
    }
}

/// Closes the last folder: it becomes a child of the one above it.
fn close_last(alloc: Global, folders: &mut Vec<OpenFolder>) -> Result<(), Memory>
    requires { Rise folders.old.items }
    ensures { OnOk result (IsHeld folders.old.items folders.new.items) }
{
    let Some(last) = folders.pop() else {
        return Ok(());
    };
    let Some(above) = folders.pop() else {
        return Ok(());
    };
    let folder = above.hold(alloc, last)?;
    folders.push(folder)?;
    Ok(())
}

/// Closes so many folders, the last first.
pub(crate) fn close(
    alloc: Global,
    folders: &mut Vec<OpenFolder>,
    count: usize,
) -> Result<(), Memory>
    requires { Rise folders.old.items }
    ensures { OnOk result (AreShut folders.old.items folders.new.items count) }
{
    let mut closed = 0;
    'closing: while closed < count {
        close_last(alloc, folders)?;
        closed += 1;
    }
    Ok(())
}

/// Opens folders from a name down the rest of a path, the last with an entry. The others are directories, 0755 and 0:0.
fn open_down(
    alloc: Global,
    folders: &mut Vec<OpenFolder>,
    name: Text,
    rest: &[Text],
    entry: Entry,
) -> Result<(), Memory>
    ensures { OnOk result (folders.new.items ≡ folders.old.items ++ opened name rest.now entry) }
{
    let [next, more @ ..] = rest else {
        folders.push(OpenFolder::new(alloc, name, entry))?;
        return Ok(());
    };
    let implied = Entry::Directory(Meta::directory());
    folders.push(OpenFolder::new(alloc, name, implied))?;
    open_down(alloc, folders, next.copy(alloc)?, more, entry)
}

/// Whether an entry is a file that is to be the root.
fn is_root_file(path: &[Text], entry: &Entry) -> bool
    ensures { comes_next None (path.now, entry.now) ≡ not result }
{
    match path {
        [] => !entry.is_directory(),
        [_, ..] => false,
    }
}

/// Opens the root and what the first row is in, unless that row is a file that is to be the root.
fn begin(
    alloc: Global,
    folders: &mut Vec<OpenFolder>,
    path: &[Text],
    entry: Entry,
) -> Result<bool, Memory>
    requires { folders.old.items ≡ [] }
    ensures { IfOk result (λ added. Adds folders.old.items folders.new.items path.now entry added) }
{
    if is_root_file(path, &entry) {
        return Ok(false);
    }
    open_down(alloc, folders, Text::from_str(alloc, "")?, path, entry)?;
    Ok(true)
}

/// Opens a row's folders in place of those that it isn't in, if it may come next. What is open is as it was if it may not.
pub(crate) fn add(
    alloc: Global,
    folders: &mut Vec<OpenFolder>,
    path: &[Text],
    entry: Entry,
) -> Result<bool, Memory>
    requires { IsSpine folders.old.items }
    ensures { IfOk result (λ added. Adds folders.old.items folders.new.items path.now entry added) }
{
    if folders.is_empty() {
        return begin(alloc, folders, path, entry);
    }
    let Some(count) = fork(folders.as_slice(), path) else {
        return Ok(false);
    };
    close(alloc, folders, count)?;
    let shared = folders.len() - 1;
    let [name, rest @ ..] = &path[shared..] else {
        return Ok(false);
    };
    open_down(alloc, folders, name.copy(alloc)?, rest, entry)?;
    Ok(true)
}
