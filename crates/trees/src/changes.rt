// From a source of a COPY to its changes. Nothing is placed here: the tree copied from and the options say all.

ghost use Rattle.std.specs.Prelude.{◌≡◌, ◌++◌, ◌∷◌, [], drop, length, ◌-◌, IfOk, OnOk};
ghost use Rattle.std.specs.List.{list_any};
ghost use Rattle.paths.specs.Name.{IsComponent};
ghost use Rattle.trees.specs.declared.entry.Entry.TheVariants.{File};
ghost use Rattle.trees.specs.declared.copy.Change.TheVariants.{Place};
ghost use Rattle.trees.specs.TreeMap.{file_meta};
ghost use Rattle.trees.specs.Copy.{file_path, path_changes, placed_entry, is_missing, is_absent, goes_into};
ghost use Rattle.trees.specs.PrivateNode.{map_of};

use crate::copy::Change;
use crate::node::Node;
use crate::{Content, CopyOptions, Entry, Meta, Source, Tree};
use paths::{LongPath, Name, Path};
use plain::{Exact, Memory, Text};
use std::alloc::Global;

/// Whether one of the sources isn't there.
pub(crate) fn is_any_missing(from: &Tree, sources: &[Source]) -> bool
    ensures { result ≡ list_any (is_missing from.now) sources.now }
{
    for source in sources {
        if is_missing(from, source) {
            return true;
        }
    }
    false
}

/// Whether a source isn't there.
fn is_missing(from: &Tree, source: &Source) -> bool
    ensures { result ≡ is_missing from.now source.now }
{
    match source {
        Source::Found(paths) => paths.is_empty() || is_any_absent(from, paths.as_slice()),
        Source::Data(_, _) => false,
    }
}

/// Whether nothing stands at one of these paths.
fn is_any_absent(from: &Tree, paths: &[Path]) -> bool
    ensures { result ≡ list_any (is_absent from.now) paths.now }
{
    for path in paths {
        if is_absent(from, path) {
            return true;
        }
    }
    false
}

/// Whether nothing stands at a path.
fn is_absent(from: &Tree, path: &Path) -> bool
    ensures { result ≡ is_absent from.now path.now }
{
    match from.get(path) {
        None => true,
        Some(_) => false,
    }
}

/// Whether files go into the destination.
pub(crate) fn goes_into(root: &Node, dest: &Path, options: &CopyOptions) -> bool
    ensures { result ≡ goes_into (map_of root.now) dest.now options.now }
{
    if options.into {
        return true;
    }
    match root.lent().kind(dest.components()) {
        Some(true) => true,
        _ => false,
    }
}

/// The changes of one match, in order.
pub(crate) fn path_changes(
    alloc: Global,
    options: &CopyOptions,
    into: bool,
    from: &Tree,
    dest: &Path,
    path: &Path,
) -> Result<Vec<Change>, Memory>
    ensures { IfOk result (λ changes. changes.items ≡ path_changes options.now into from.now dest.now path.now) }
{
    let mut changes = Vec::new(alloc);
    push_path(alloc, options, into, from, dest, path, &mut changes)?;
    Ok(changes)
}

/// The one change of a source that is a file of its own.
pub(crate) fn data_changes(
    alloc: Global,
    options: &CopyOptions,
    into: bool,
    dest: &Path,
    name: &Name,
    content: &Content,
) -> Result<Vec<Change>, Memory>
    ensures { IfOk result (λ changes. changes.items ≡ Place (file_path into dest.now (name.now ∷ [])) (placed_entry options.now (File file_meta content.now)) ∷ []) }
{
    let path = file_path(alloc, into, dest, name.as_text())?;
    let entry = Entry::File(options.placed_meta(Meta::file()), content.copy(alloc)?);
    let mut changes = Vec::new(alloc);
    changes.push(Change::Place(path, entry))?;
    Ok(changes)
}

/// Adds the changes of one match.
fn push_path(
    alloc: Global,
    options: &CopyOptions,
    into: bool,
    from: &Tree,
    dest: &Path,
    path: &Path,
    changes: &mut Vec<Change>,
) -> Result<(), Memory>
    ensures { OnOk result (changes.new.items ≡ changes.old.items ++ path_changes options.now into from.now dest.now path.now) }
{
    let Some(node) = from.node_at(path) else {
        return Ok(());
    };
    if node.is_directory() {
        changes.push(Change::Make(dest.copy(alloc)?))?;
        return node.push_changes(alloc, options, &LongPath::of(alloc, dest)?, changes);
    }
    let place = match_path(alloc, into, dest, path)?;
    changes.push(Change::Place(place, node.placed(options).entry().to_entry(alloc)?))?;
    Ok(())
}

/// Where a file that is a match goes.
fn match_path(alloc: Global, into: bool, dest: &Path, path: &Path) -> Result<LongPath, Memory>
    ensures { IfOk result (λ place. place ≡ file_path into dest.now (drop (length path.now - 1) path.now)) }
{
    match path.components() {
        [] => LongPath::of(alloc, dest),
        [.., name] => file_path(alloc, into, dest, name),
    }
}

/// Where a file of this name goes.
fn file_path(alloc: Global, into: bool, dest: &Path, name: &Text) -> Result<LongPath, Memory>
    requires { IsComponent name.now }
    ensures { IfOk result (λ place. place ≡ file_path into dest.now (name.now ∷ [])) }
{
    let place = LongPath::of(alloc, dest)?;
    if into {
        place.child(alloc, name)
    } else {
        Ok(place)
    }
}
