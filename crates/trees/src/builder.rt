ghost use Rattle.std.specs.Prelude.{◌≡◌, IfOk};
ghost use Rattle.trees.specs.Builder.{none_built, AddsRow};

use crate::spine::{OpenFolder, add, close};
use crate::{Entry, Tree};
use paths::Path;
use plain::Memory;
use std::alloc::Global;
use std::marker::Model;

/// A tree that is built from rows in the order of a walk: a folder before what is in it, names rising. For contracts it is the tree so far,
/// and the row that came last.
///
/// No row is looked for from the root, and none is kept: a folder's node is made once a row comes that isn't in it.
#[derive(Drop)]
pub struct TreeBuilder {
    /// What is open on the way from the root to the last row, whose own entry is the last of these.
    folders: Vec<OpenFolder>,
}

impl Model for TreeBuilder {
    ghost use Rattle.trees.specs.TreeMap.{IsTree};
    ghost use Rattle.trees.specs.Builder.{Built, built_code};
    ghost use Rattle.trees.specs.PrivateSpine.{whole, last_of, IsSpine};

    ghost Value = { Built };

    ghost coded = { built_code };

    ghost view = { λ b. record { tree = whole b.folders.items; last = last_of b.folders.items } };

    ghost invariant = { λ b. IsSpine b.folders.items × IsTree (whole b.folders.items) };
}

impl TreeBuilder {
    /// No row yet. It takes no memory.
    pub fn new(alloc: Global) -> TreeBuilder
        ensures { result ≡ none_built }
    {
        TreeBuilder {
            folders: Vec::new(alloc),
        }
    }

    /// Adds a row, if it may come next, and answers whether it does: its path comes after that of the last row, and doesn't lie below it
    /// if that row is a file's. The first row may be any but a file at the root. Directories on the way that no row lists are made, 0755 and 0:0.
    ///
    /// If it may not come next, nothing changes. After `Memory` it is as if no row had come.
    pub fn add(&mut self, alloc: Global, path: &Path, entry: Entry) -> Result<bool, Memory>
        ensures { AddsRow self.old (path.now, entry) self.new result }
    {
        match add(alloc, &mut self.folders, path.components(), entry) {
            Ok(added) => Ok(added),
            Err(memory) => {
                self.folders.clear();
                Err(memory)
            }
        }
    }

    /// The tree of the rows that came.
    pub fn into_tree(self, alloc: Global) -> Result<Tree, Memory>
        ensures { IfOk result (λ tree. tree ≡ self.tree) }
    {
        let TreeBuilder { mut folders } = self;
        if folders.is_empty() {
            return Ok(Tree::empty(alloc));
        }
        let below_root = folders.len() - 1;
        close(alloc, &mut folders, below_root)?;
        match folders.pop() {
            None => Ok(Tree::empty(alloc)),
            Some(root) => {
                let (_, node) = root.into_kid(alloc)?;
                Ok(Tree::of_root(node))
            }
        }
    }
}
