// A COPY of folders to where nothing lies: what is below them is laid over each other and hung in as a whole, and not placed entry by entry.
// It is shared; what `--chown` and `--chmod` put on it stands beside the pointer to it.

ghost use Rattle.std.specs.Prelude.{◌≡◌, ◌≤◌, ℕ, Bool, true, Some, List, [], ◌∷◌, ◌++◌, length, is_some, IsTrue, IfOk, OnOk};
ghost use Rattle.std.specs.FinMap.{get};
ghost use Rattle.paths.specs.Path.{IsClean};
ghost use Rattle.trees.specs.declared.meta.Meta.{Meta as MetaValue};
ghost use Rattle.trees.specs.declared.copy.Change.{Change};
ghost use Rattle.trees.specs.TreeMap.{IsTree};
ghost use Rattle.trees.specs.Copy.{parent_meta, changes_of, source_changes, paths_changes, path_changes, goes_into, first_cause};
ghost use Rattle.trees.specs.PrivateCopy.{AppliesChanges, IsFreeBelow, IsLaidPlaced, IsSunk, Comes, IsFoundOf, HangsIn};
ghost use Rattle.trees.specs.PrivateNode.{map_of};

use crate::apply::{make, make_cause};
use crate::lent_node::LentNode;
use crate::node::Node;
use crate::placing::place_each;
use crate::{Cause, CopyOptions, Entry, Meta, Source, Tree, TreeFault};
use paths::Path;
use plain::limits::MOST_COMPONENTS;
use plain::{Fault, Memory};
use std::alloc::Global;

/// What becomes of matches that are joined, so that they can be hung in as one folder.
#[derive(Clone, Copy)]
enum Joined {
    /// All of them are.
    All,
    /// A path gets too deep, and nothing before it is a reason to fail.
    TooDeep,
    /// Entries have to be placed one by one.
    Other,
}

/// What is found of a COPY as a whole.
#[derive(Drop)]
enum Whole {
    /// The folder that it hangs in: its matches are directories, nothing lies below its destination, none of their paths gets too deep
    /// there, and where two of them meet, they meet in directories.
    Folder(Node),
    /// All this, but that a path gets too deep.
    Deep,
    /// Entries have to be placed one by one.
    Neither,
}

/// Places what a COPY places. After a fault the root is left half done.
pub(crate) fn place_sources(
    alloc: Global,
    root: &mut Node,
    options: &CopyOptions,
    from: &Tree,
    dest: &Path,
    sources: &[Source],
) -> Result<(), TreeFault>
    requires { IsTree (map_of root.old) }
    ensures { AppliesChanges (parent_meta options.now) (changes_of options.now (goes_into (map_of root.old) dest.now options.now) from.now dest.now sources.now) (map_of root.old) (map_of root.new) result }
{
    let parent = options.parent_meta();
    match whole_folder(alloc, root, options, from, dest, sources)? {
        Whole::Folder(folder) => hang_in(alloc, root, &parent, dest, &folder),
        Whole::Deep => Err(Fault::Because(deep_cause(root, dest))),
        Whole::Neither => place_each(alloc, root, options, from, dest, sources),
    }
}

/// Why a COPY fails that goes too deep and whose destination nothing lies below.
fn deep_cause(root: &Node, dest: &Path) -> Cause
    ensures { (meta : MetaValue) (changes : List Change) → IsSunk dest.now changes → IsFreeBelow (map_of root.now) dest.now → first_cause meta (map_of root.now) [] changes ≡ Some result }
{
    match make_cause(root, dest.components()) {
        Some(cause) => cause,
        None => Cause::F5,
    }
}

/// What a COPY is as a whole.
fn whole_folder(
    alloc: Global,
    root: &Node,
    options: &CopyOptions,
    from: &Tree,
    dest: &Path,
    sources: &[Source],
) -> Result<Whole, Memory>
    requires { IsTree (map_of root.now) }
    ensures { IfOk result (λ found. (into : Bool) → IsFoundOf (map_of root.now) dest.now (changes_of options.now into from.now dest.now sources.now) found) }
{
    if !is_free_below(root, dest) {
        return Ok(Whole::Neither);
    }
    let mut joined = Node::leaf(Entry::Directory(Meta::directory()));
    match join_sources(alloc, &mut joined, options, from, dest, sources)? {
        Joined::All => {}
        Joined::TooDeep => return Ok(Whole::Deep),
        Joined::Other => return Ok(Whole::Neither),
    }
    // Where no source has a match, a COPY doesn't even make its destination.
    if joined.lent().is_bare() {
        return Ok(Whole::Neither);
    }
    Ok(Whole::Folder(joined))
}

/// Lays the matches of all sources over what is joined so far, and answers what becomes of them. Where they aren't all joined, what is
/// joined is half done.
fn join_sources(
    alloc: Global,
    joined: &mut Node,
    options: &CopyOptions,
    from: &Tree,
    dest: &Path,
    sources: &[Source],
) -> Result<Joined, Memory>
    requires { IsClean dest.now }
    ensures { IfOk result (λ came. (into : Bool) → Comes dest.now (changes_of options.now into from.now dest.now sources.now) (map_of joined.old) (map_of joined.new) came) }
{
    for source in sources {
        match join_source(alloc, joined, options, from, dest, source)? {
            Joined::All => {}
            Joined::TooDeep => return Ok(Joined::TooDeep),
            Joined::Other => return Ok(Joined::Other),
        }
    }
    Ok(Joined::All)
}

/// Does the same with one source.
fn join_source(
    alloc: Global,
    joined: &mut Node,
    options: &CopyOptions,
    from: &Tree,
    dest: &Path,
    source: &Source,
) -> Result<Joined, Memory>
    requires { IsClean dest.now }
    ensures { IfOk result (λ came. (into : Bool) → Comes dest.now (source_changes options.now into from.now dest.now source.now) (map_of joined.old) (map_of joined.new) came) }
{
    match source {
        Source::Found(paths) => { join_paths(alloc, joined, options, from, dest, paths.as_slice()) }
        Source::Data(_, _) => Ok(Joined::Other),
    }
}

/// Does the same with these matches.
fn join_paths(
    alloc: Global,
    joined: &mut Node,
    options: &CopyOptions,
    from: &Tree,
    dest: &Path,
    paths: &[Path],
) -> Result<Joined, Memory>
    requires { IsClean dest.now }
    ensures { IfOk result (λ came. (into : Bool) → Comes dest.now (paths_changes options.now into from.now dest.now paths.now) (map_of joined.old) (map_of joined.new) came) }
{
    for path in paths {
        match join_match(alloc, joined, options, from, dest, path)? {
            Joined::All => {}
            Joined::TooDeep => return Ok(Joined::TooDeep),
            Joined::Other => return Ok(Joined::Other),
        }
    }
    Ok(Joined::All)
}

/// Does the same with one match.
fn join_match(
    alloc: Global,
    joined: &mut Node,
    options: &CopyOptions,
    from: &Tree,
    dest: &Path,
    path: &Path,
) -> Result<Joined, Memory>
    requires { IsClean dest.now }
    ensures { IfOk result (λ came. (into : Bool) → Comes dest.now (path_changes options.now into from.now dest.now path.now) (map_of joined.old) (map_of joined.new) came) }
{
    let Some(folder) = from.node_at(path) else {
        return Ok(Joined::Other);
    };
    if !folder.is_directory() || joined.lent().meets(&folder) {
        return Ok(Joined::Other);
    }
    if fits(&folder, dest) {
        lay_placed(alloc, joined, options, &folder)?;
        return Ok(Joined::All);
    }
    if folder.is_deeper(MOST_COMPONENTS - dest.depth()) {
        return Ok(Joined::TooDeep);
    }
    Ok(Joined::Other)
}

/// Lays a folder over what is joined so far, with the modes and owners of a COPY.
fn lay_placed(
    alloc: Global,
    joined: &mut Node,
    options: &CopyOptions,
    folder: &LentNode<'_>,
) -> Result<(), Memory>
    ensures { OnOk result (IsLaidPlaced options.now (map_of joined.old) folder.now (map_of joined.new)) }
{
    joined.lay_over(alloc, &folder.placed(options))?;
    Ok(())
}

/// Whether nothing lies below a path.
fn is_free_below(root: &Node, path: &Path) -> bool
    requires { IsTree (map_of root.now) }
    ensures free { IsTrue result → IsFreeBelow (map_of root.now) path.now }
    ensures clean { IsClean path.now }
{
    match root.lent().node_at(path.components()) {
        None => true,
        Some(node) => node.is_bare(),
    }
}

/// Whether no path of a folder gets too deep below a destination.
fn fits(folder: &LentNode<'_>, dest: &Path) -> bool
    requires { IsClean dest.now }
    ensures { IsTrue result → (rest : List (List ℕ)) → is_some (get (map_of folder.now) rest) ≡ true → length (dest.now ++ rest) ≤ 64 }
{
    folder.depth() <= MOST_COMPONENTS - dest.depth()
}

/// Makes the destination, and shares what is below a folder below it, in place of what was there. After a fault the root is left half done.
fn hang_in(
    alloc: Global,
    root: &mut Node,
    parent: &Meta,
    dest: &Path,
    folder: &Node,
) -> Result<(), TreeFault>
    requires { IsTree (map_of root.old) }
    ensures { HangsIn parent.now dest.now (map_of folder.now) (map_of root.old) (map_of root.new) result }
{
    make(alloc, root, parent, dest)?;
    root.fill(alloc, dest.components(), &folder.lent())?;
    Ok(())
}
