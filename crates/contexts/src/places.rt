ghost use Rattle.std.specs.Prelude.{◌≡◌, ◌<◌, ◌↔◌, ◌⊎◌, true, [], IsTrue, IfOk, is_some, length, get_or};
ghost use Rattle.std.specs.FinMap.{get};
ghost use Rattle.trees.specs.TreeMap.{IsTree};
ghost use Rattle.contexts.specs.Context.{IsListing, owned, owned_meta};
ghost use Rattle.contexts.specs.PrivatePlaces.{IsPlaced, AreWanted, AreFolders, HasModes, AreApart};

use paths::Path;
use plain::Memory;
use std::alloc::Global;
use trees::{Entry, Meta, Tree};

/// An entry as a context has it: owned by 0:0.
fn owned(entry: Entry) -> Entry
    ensures { result ≡ owned entry }
{
    match entry {
        Entry::Directory(meta) => Entry::Directory(owned_meta(meta)),
        Entry::File(meta, content) => Entry::File(owned_meta(meta), content),
    }
}

/// The same mode, owned by 0:0.
fn owned_meta(meta: Meta) -> Meta
    ensures { result ≡ owned_meta meta }
{
    Meta {
        mode: meta.mode,
        uid: 0,
        gid: 0,
    }
}

/// Whether the row at this position is wanted: its flag says so, or it is the root.
fn is_wanted(flags: &[bool], position: usize, path: &Path) -> bool
    requires { position < length flags.now }
    ensures { IsTrue result ↔ ((path.now ≡ []) ⊎ (get_or flags.now position true ≡ true)) }
{
    flags[position] || path.is_root()
}

/// The rows that are wanted, owned by 0:0, in their order, and the directories among the others, the last first.
fn part_rows(
    alloc: Global,
    rows: Vec<(Path, Entry)>,
    flags: &[bool],
) -> Result<(Vec<(Path, Entry)>, Vec<(Path, Meta)>), Memory>
    requires listing { IsListing rows.items }
    requires flagged { length flags.now ≡ length rows.items }
    ensures wanted { IfOk result (λ parts. AreWanted rows.items flags.now 0 parts.0.items) }
    ensures folders { IfOk result (λ parts. AreFolders rows.items flags.now 0 parts.1.items) }
{
    let mut left = rows;
    let mut wanted = Vec::with_capacity(alloc, flags.len())?;
    let mut folders = Vec::new(alloc);
    while let Some((path, entry)) = left.pop() {
        if is_wanted(flags, left.len(), &path) {
            wanted.push((path, owned(entry)))?;
        } else if let Entry::Directory(meta) = entry {
            folders.push((path, meta))?;
        }
    }
    wanted.reverse();
    Ok((wanted, folders))
}

/// The tree of the rows that are wanted, and the directories among the others.
pub(crate) fn place_rows(
    alloc: Global,
    rows: Vec<(Path, Entry)>,
    flags: &[bool],
) -> Result<(Tree, Vec<(Path, Meta)>), Memory>
    requires listing { IsListing rows.items }
    requires flagged { length flags.now ≡ length rows.items }
    ensures tree { IfOk result (λ made. IsPlaced rows.items flags.now 0 made.0) }
    ensures folders { IfOk result (λ made. AreFolders rows.items flags.now 0 made.1.items) }
{
    let (wanted, folders) = part_rows(alloc, rows, flags)?;
    let tree = Tree::of_rows(alloc, wanted)?;
    Ok((tree, folders))
}

/// Whether something stands at a path of a tree. That it is a tree is known from its root.
fn stands(tree: &Tree, path: &Path) -> bool
    ensures value { result ≡ is_some (get tree.now path.now) }
    ensures tree { IsTree tree.now }
{
    let _root = tree.root();
    tree.get(path).is_some()
}

/// Gives the directories that stand in a tree their modes.
pub(crate) fn set_modes(
    alloc: Global,
    before: Tree,
    folders: Vec<(Path, Meta)>,
) -> Result<Tree, Memory>
    requires { AreApart folders.items before }
    ensures { IfOk result (λ tree. HasModes folders.items 0 before tree) }
{
    let mut tree = before;
    let mut left = folders;
    while let Some((path, meta)) = left.pop() {
        if stands(&tree, &path) {
            tree.place(alloc, &path, Entry::Directory(owned_meta(meta)))?;
        }
    }
    Ok(tree)
}
