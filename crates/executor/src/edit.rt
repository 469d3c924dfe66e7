ghost use Rattle.std.specs.Prelude.{◌≡◌, [], ◌∷◌, ◌++◌, IfOk};
ghost use Rattle.std.specs.FinMap.{get};
ghost use Rattle.trees.specs.Cause.{ChangesTree};
ghost use Rattle.trees.specs.Put.{written};
ghost use Rattle.executor.specs.declared.edit.Change.TheVariants.{Bump};
ghost use Rattle.executor.specs.Edits.{bytes_of, bytes_or_none, changed};

use paths::Path;
use plain::{Bytes, Memory};
use std::alloc::Global;
use trees::{Content, LentEntry, Tree, TreeFault};

/// What a command makes of the path that it names.
#[derive(Drop)]
pub(crate) enum Change {
    /// A file that holds these bytes.
    Write(Bytes),
    /// A file with a `+` more, which is made if it is missing.
    Bump,
    /// Nothing stands there any more, nor below it.
    Remove,
}

/// The change that a command makes, and where.
#[derive(Drop)]
pub(crate) struct Edit {
    pub path: Path,
    pub change: Change,
}

/// Makes a change in a tree. After a fault the tree is as it was.
pub(crate) fn change_tree(
    alloc: Global,
    tree: &mut Tree,
    path: &Path,
    change: Change,
) -> Result<(), TreeFault>
    ensures { ChangesTree (changed tree.old path.now change) tree.old tree.new result }
{
    match change {
        Change::Write(bytes) => write(alloc, tree, path, bytes),
        Change::Bump => bump(alloc, tree, path),
        Change::Remove => tree.remove(alloc, path),
    }
}

/// Adds a `+` to a file, which is made if it is missing.
fn bump(alloc: Global, tree: &mut Tree, path: &Path) -> Result<(), TreeFault>
    ensures { ChangesTree (changed tree.old path.now Bump) tree.old tree.new result }
{
    let bytes = bumped(alloc, tree, path)?;
    write(alloc, tree, path, bytes)
}

/// The bytes of a file with a `+` more; the `+` alone where no file stands there.
fn bumped(alloc: Global, tree: &Tree, path: &Path) -> Result<Bytes, Memory>
    ensures { IfOk result (λ bytes. bytes ≡ bytes_or_none (bytes_of (get tree.now path.now)) ++ 43 ∷ []) }
{
    let before = match tree.get(path) {
        Some(LentEntry::File(_, content)) => content.as_slice(),
        _ => &[],
    };
    // A list that grows takes twice the room, and a file keeps what its list took.
    let mut bytes = Vec::with_capacity(alloc, before.len().saturating_add(1))?;
    bytes.extend_from_slice(before)?;
    bytes.push(b'+')?;
    Ok(Bytes::from_vec(bytes))
}

/// Writes a file. One that stands there keeps its mode and owner.
fn write(alloc: Global, tree: &mut Tree, path: &Path, bytes: Bytes) -> Result<(), TreeFault>
    ensures { ChangesTree (written tree.old path.now bytes) tree.old tree.new result }
{
    let content = Content::new(alloc, bytes)?;
    tree.write(alloc, path, content)
}
