ghost use Rattle.std.specs.Prelude.{◌≡◌, IfOk};
ghost use Rattle.contexts.specs.Context.{IsListing, IsContext};

use crate::flags::flag_rows;
use crate::places::{place_rows, set_modes};
use ignorefile::Ignore;
use paths::Path;
use plain::Memory;
use std::alloc::Global;
use std::marker::Model;
use std::thread::Threads;
use trees::{Entry, Tree};

/// The tree of a build's own folder. Contracts see that tree.
#[derive(Drop)]
pub struct Context {
    tree: Tree,
}

impl Model for Context {
    ghost use Rattle.trees.specs.TreeMap.{TreeMap};
    ghost use Rattle.trees.specs.PrivateNode.{tree_code};

    ghost Value = { TreeMap };

    ghost coded = { tree_code };

    ghost view = { λ context. context.tree };
}

impl Context {
    /// The context of a folder's entries and its ignore file: the root, the entries that the file keeps, and the directories on the
    /// way to one of them, which have their listed modes, else 0755. All are owned by 0:0, whatever the list says.
    ///
    /// No path may be there twice, and what stands on the way to another path, or at the root, has to be a directory.
    pub fn build(
        alloc: Global,
        rt: &(impl Threads + Sync),
        rows: Vec<(Path, Entry)>,
        ignore: Ignore,
    ) -> Result<Context, Memory>
        requires { IsListing rows.items }
        ensures { IfOk result (λ context. IsContext rows.items ignore context) }
    {
        let flags = flag_rows(rt, alloc, &ignore, rows.as_slice())?;
        let (tree, folders) = place_rows(alloc, rows, flags.as_slice())?;
        let tree = set_modes(alloc, tree, folders)?;
        Ok(Context { tree })
    }

    /// The context whose tree this is, as it stands: for who has a tree that was filtered before, such as a bundle's.
    pub fn of_tree(tree: Tree) -> Context
        ensures { result ≡ tree }
    {
        Context { tree }
    }

    /// The tree, lent.
    pub fn tree(&self) -> &Tree
        ensures { result.now ≡ self.now }
    {
        &self.tree
    }

    /// The tree.
    pub fn into_tree(self) -> Tree
        ensures { result ≡ self }
    {
        let Context { tree } = self;
        tree
    }
}
