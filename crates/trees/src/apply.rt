// The changes of a COPY are made on a node, one after another.

ghost use Rattle.std.specs.Prelude.{◌≡◌, Some, None, is_some, not, IfOk, IfErr};
ghost use Rattle.std.specs.FinMap.{get};
ghost use Rattle.trees.specs.declared.copy.Change.TheVariants.{Place};
ghost use Rattle.trees.specs.TreeMap.{IsTree};
ghost use Rattle.trees.specs.Cause.{ChangesTree};
ghost use Rattle.trees.specs.Make.{make_cause, made_with};
ghost use Rattle.trees.specs.Copy.{is_repeated, change_cause};
ghost use Rattle.trees.specs.PrivateCopy.{AppliesChange, AppliesMore, kind_in};
ghost use Rattle.trees.specs.PrivateNode.{map_of};

use crate::copy::Change;
use crate::landing::Landing;
use crate::node::Node;
use crate::put::cause_at;
use crate::{Cause, Entry, Meta, TreeFault};
use paths::Path;
use plain::{Fault, Text};
use std::alloc::Global;
use std::cmp::Reverse;
use std::collections::BTreeMap;

/// Each path at which a COPY placed an entry, and whether that is a directory. A COPY mostly places in the order of the paths, and the map finds the
/// place before its first key in one comparison a level, and that after its last key by comparing with all keys on the way: so the greatest path is first.
pub(crate) type Placed = BTreeMap<Reverse<Path>, bool>;

/// Makes the changes, one after another, after what was placed before. After a fault the root is left half done.
pub(crate) fn apply_all(
    alloc: Global,
    root: &mut Node,
    placed: &mut Placed,
    parent: &Meta,
    changes: Vec<Change>,
) -> Result<(), TreeFault>
    requires { IsTree (map_of root.old) }
    ensures { AppliesMore parent.now changes.items (kind_in placed.old.entries) (map_of root.old)
        (kind_in placed.new.entries) (map_of root.new) result }
{
    for change in changes {
        apply(alloc, root, placed, parent, change)?;
    }
    Ok(())
}

/// Makes one change.
fn apply(
    alloc: Global,
    root: &mut Node,
    placed: &mut Placed,
    parent: &Meta,
    change: Change,
) -> Result<(), TreeFault>
    requires { IsTree (map_of root.old) }
    ensures { AppliesChange parent.now change (kind_in placed.old.entries) (map_of root.old)
        (kind_in placed.new.entries) (map_of root.new) result }
{
    match change {
        Change::Make(path) => make(alloc, root, parent, &path),
        Change::Place(path, entry) => match path.into_path() {
            None => Err(Fault::Because(Cause::F5)),
            Some(path) => place(alloc, root, placed, parent, path, entry),
        },
    }
}

/// Places an entry at a path that isn't too deep.
fn place(
    alloc: Global,
    root: &mut Node,
    placed: &mut Placed,
    parent: &Meta,
    path: Path,
    entry: Entry,
) -> Result<(), TreeFault>
    requires { IsTree (map_of root.old) }
    ensures { AppliesChange parent.now (Place path entry) (kind_in placed.old.entries) (map_of root.old)
        (kind_in placed.new.entries) (map_of root.new) result }
{
    let path = Reverse(path);
    if let Some(cause) = placement_cause(root, placed, &path, &entry) {
        return Err(Fault::Because(cause));
    }
    let is_directory = entry.is_directory();
    root.plant(alloc, path.0.components(), *parent, entry)?;
    placed.insert(path, is_directory)?;
    Ok(())
}

/// Why an entry can't be placed at a path that isn't too deep, if it can't.
fn placement_cause(
    root: &Node,
    placed: &Placed,
    path: &Reverse<Path>,
    entry: &Entry,
) -> Option<Cause>
    ensures { result ≡ change_cause (kind_in placed.now.entries) (get (map_of root.now)) (Place path.now.0 entry.now) }
{
    let parts = path.0.components();
    if is_repeated(placed, path, entry) {
        return Some(Cause::F3);
    }
    cause_at(root, parts, entry)
}

/// Whether an entry is placed where one was placed before, and they aren't both directories.
fn is_repeated(placed: &Placed, path: &Reverse<Path>, entry: &Entry) -> bool
    ensures { result ≡ is_repeated (kind_in placed.now.entries path.now.0) entry.now }
{
    match placed.get(path) {
        None => false,
        Some(was_directory) => !(*was_directory && entry.is_directory()),
    }
}

/// Makes a directory with its parents, all of this meta, where nothing stands. After a fault the root is as it was.
pub(crate) fn make(
    alloc: Global,
    root: &mut Node,
    meta: &Meta,
    path: &Path,
) -> Result<(), TreeFault>
    requires { IsTree (map_of root.old) }
    ensures result { ChangesTree (made_with meta.now (map_of root.old) path.now) (map_of root.old) (map_of root.new) result }
    ensures tree { IsTree (map_of root.new) }
{
    let parts = path.components();
    match is_unmade(root, parts) {
        Err(cause) => Err(Fault::Because(cause)),
        Ok(false) => Ok(()),
        Ok(true) => {
            root.plant(alloc, parts, *meta, Entry::Directory(*meta))?;
            Ok(())
        }
    }
}

/// Why a directory can't be made, if it can't.
pub(crate) fn make_cause(root: &Node, path: &[Text]) -> Option<Cause>
    ensures { result ≡ make_cause (get (map_of root.now)) path.now }
{
    match is_unmade(root, path) {
        Err(cause) => Some(cause),
        Ok(_) => None,
    }
}

/// Whether nothing stands yet where a directory is to be made, or why it can't be made.
fn is_unmade(root: &Node, path: &[Text]) -> Result<bool, Cause>
    ensures cause { IfOk result (λ unmade. make_cause (get (map_of root.now)) path.now ≡ None) }
    ensures there { IfOk result (λ unmade. is_some (get (map_of root.now) path.now) ≡ not unmade) }
    ensures err { IfErr result (λ cause. make_cause (get (map_of root.now)) path.now ≡ Some cause) }
{
    match root.lent().landing(path) {
        Landing::Blocked => Err(Cause::F2),
        Landing::Free => Ok(true),
        Landing::At(there) => {
            if there.is_directory() {
                Ok(false)
            } else {
                Err(Cause::F2)
            }
        }
    }
}
