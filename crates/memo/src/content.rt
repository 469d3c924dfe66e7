ghost use Rattle.std.specs.Prelude.{◌≡◌, ◌≤◌, ◌+◌, ◌-◌, ◌^◌, IfOk};
ghost use Rattle.trees.specs.Rows.{entry_of};
ghost use Rattle.memo.specs.Content.{capped, entry_bytes, tree_bytes, trees_bytes};

use plain::Memory;
use std::alloc::Global;
use trees::{LentEntry, Tree};

/// So many bytes and those of all files of each of some trees; `usize::MAX` if they are more.
pub(crate) fn count_trees(alloc: Global, trees: &[Tree], bytes: usize) -> Result<usize, Memory>
    ensures { IfOk result (λ count. count ≡ capped (bytes + trees_bytes trees.now)) }
{
    let mut count = bytes;
    for tree in trees {
        count = count_tree(alloc, tree, count)?;
    }
    note_fits(count);
    Ok(count)
}

/// So many bytes and those of all files of a tree; `usize::MAX` if they are more.
fn count_tree(alloc: Global, tree: &Tree, bytes: usize) -> Result<usize, Memory>
    ensures { IfOk result (λ count. count ≡ capped (bytes + tree_bytes tree.now)) }
{
    let mut count = bytes;
    let mut walk = tree.walk(alloc)?;
    while let Some(entry) = walk.next() {
        count = count.saturating_add(entry_bytes(entry));
    }
    note_fits(count);
    Ok(count)
}

/// The bytes of an entry of a tree.
fn entry_bytes(entry: LentEntry<'_>) -> usize
    ensures { result ≡ entry_bytes (entry_of entry.entry) }
{
    match entry {
        LentEntry::Directory(_) => 0,
        LentEntry::File(_, content) => content.as_slice().len(),
    }
}

/// Does nothing: after it, the proof knows that the count is a machine number.
fn note_fits(_count: usize)
    ensures { _count ≤ 2 ^ 64 - 1 }
{}
