ghost use Rattle.std.specs.Prelude.{◌≡◌, Some, None, [], IfOk, OnOk, OnErr, MatchOption, option_map};
ghost use Rattle.std.specs.FinMap.{get, entries};
ghost use Rattle.trees.specs.declared.entry.Entry.TheVariants.{Directory};
ghost use Rattle.trees.specs.TreeMap.{IsTree, directory_meta, empty_tree};
ghost use Rattle.trees.specs.Cause.{GivesTree, ChangesTree};
ghost use Rattle.trees.specs.Rows.{lent_rows, entry_of};
ghost use Rattle.trees.specs.Put.{cause_at, placed, put_into, written};
ghost use Rattle.trees.specs.Whole.{tree_of, ArePlaceable};
ghost use Rattle.trees.specs.Make.{made};
ghost use Rattle.trees.specs.Remove.{removed};
ghost use Rattle.trees.specs.Subtree.{subtree};
ghost use Rattle.trees.specs.Over.{over, merged};
ghost use Rattle.trees.specs.Copy.{copied};
ghost use Rattle.trees.specs.PrivateNode.{map_of, IsBelow};

use crate::apply::make;
use crate::changes::is_any_missing;
use crate::folder::place_sources;
use crate::growing::grow;
use crate::lent_node::LentNode;
use crate::node::Node;
use crate::put::{cause_at, written_meta};
use crate::{Branch, Cause, Content, CopyOptions, Entry, LentEntry, Meta, Source, TreeFault, Walk};
use paths::Path;
use plain::{Exact, Fault, Memory};
use std::alloc::Global;
use std::marker::Model;

/// A tree of files: for contracts a finite map from paths to entries, in which the root and all parents are directories.
#[derive(Drop)]
pub struct Tree {
    root: Node,
}

impl Model for Tree {
    ghost use Rattle.trees.specs.TreeMap.{TreeMap, IsTree};
    ghost use Rattle.trees.specs.PrivateNode.{tree_code, map_of};

    ghost Value = { TreeMap };

    ghost coded = { tree_code };

    ghost view = { λ t. map_of t.root };

    ghost invariant = { λ t. IsTree (map_of t.root) };
}

impl Tree {
    /// Just the root, a directory with 0755 and owner 0:0: what `FROM scratch` begins with. It takes no memory.
    pub fn empty(alloc: Global) -> Tree
        ensures { result ≡ empty_tree }
    {
        Tree {
            root: Node::leaf(Entry::Directory(Meta::directory())),
        }
    }

    /// The tree of a list of rows, placed as by [`place`](Tree::place), the last first: each entry stands at its path, and directories on the way
    /// that no row lists are made, 0755 and 0:0, as the root is.
    ///
    /// Rows in the order of a walk, a folder before what is in it and names rising, are placed folder by folder, with no walk from the
    /// root for each; from the first that isn't in that order, seen from the end, each is placed by itself. The caller knows, as for
    /// `place`, that nothing stands in a row's way.
    pub fn of_rows(alloc: Global, rows: Vec<(Path, Entry)>) -> Result<Tree, Memory>
        requires { ArePlaceable rows.items }
        ensures { IfOk result (λ tree. tree ≡ tree_of rows.items) }
    {
        let mut left = rows;
        let Some((path, entry)) = left.pop() else {
            return Ok(Tree::empty(alloc));
        };
        let root = grow(alloc, &mut left, &path, 0, entry)?;
        let mut tree = Tree { root };
        while let Some((path, entry)) = left.pop() {
            tree.place(alloc, &path, entry)?;
        }
        Ok(tree)
    }

    /// The tree of a node.
    pub(crate) fn of_root(root: Node) -> Tree
        requires { IsTree (map_of root) }
        ensures { result ≡ map_of root }
    {
        Tree { root }
    }

    /// The mode and owner of the root, which is a directory in every tree, as the parents of all that it has are.
    pub fn root(&self) -> Meta
        ensures value { get self.now [] ≡ Some (Directory result) }
        ensures tree { IsTree self.now }
    {
        self.root.lent().meta()
    }

    /// The entry at a path, if there is one. It takes no memory.
    pub fn get(&self, path: &Path) -> Option<LentEntry<'_>>
        ensures { option_map entry_of result ≡ get self.now path.now }
    {
        self.root.lent().find(path.components())
    }

    /// The node at a path, if something stands there.
    pub(crate) fn node_at(&self, path: &Path) -> Option<LentNode<'_>>
        ensures at { MatchOption result (get self.now path.now ≡ None) (λ node. IsBelow self.now path.now (map_of node)) }
        ensures tree { IsTree self.now }
    {
        self.root.lent().node_at(path.components())
    }

    /// All entries with their paths, in path order, the root first. Paths are made, and the entries are lent.
    pub fn entries(&self, alloc: Global) -> Result<Vec<(Path, LentEntry<'_>)>, Memory>
        ensures { IfOk result (λ rows. lent_rows rows.items ≡ entries self.now) }
    {
        let mut rows = Vec::new(alloc);
        self.root
            .lent()
            .push_rows(alloc, &Path::root(alloc), &mut rows)?;
        Ok(rows)
    }

    /// A walk through all entries, in path order, the root first. Entries and names are lent, and no path is made: what memory it wants is
    /// taken here.
    pub fn walk(&self, alloc: Global) -> Result<Walk<'_>, Memory>
        ensures { IfOk result (λ walk. walk.left ≡ entries self.now) }
    {
        Walk::of(alloc, &self.root)
    }

    /// The whole tree, lent as a branch.
    pub fn branch(&self) -> Branch<'_>
        ensures { result ≡ self.now }
    {
        Branch::of(self.root.lent())
    }

    /// What lies under a path, as a tree of its own: the directory at the path is its root. Of the root it is a copy of the tree.
    ///
    /// It fails with `F1` where nothing stands at the path, as where a file stands on the way to it, and with `F2` where a file
    /// stands there (own; it is what a bind mount of `RUN` asks).
    pub fn subtree(&self, alloc: Global, path: &Path) -> Result<Tree, TreeFault>
        ensures { GivesTree (subtree self.now path.now) result }
    {
        match self.root.lent().node_at(path.components()) {
            None => Err(Fault::Because(Cause::F1)),
            Some(node) => {
                if !node.is_directory() {
                    return Err(Fault::Because(Cause::F2));
                }
                let root = node.copy(alloc)?;
                Ok(Tree { root })
            }
        }
    }
}

impl Tree {
    /// Puts one entry at a path. Missing parents are made, 0755 and 0:0. A file that stands there is replaced; a directory that
    /// stands there takes mode and owner and keeps what is below it.
    ///
    /// It fails with `F2` where a file stands on the way, or where the entry is a directory and a file stands there; else with
    /// `F4` where the entry is a file and a directory stands there, as at the root. After any fault the tree is as it was.
    pub fn put(&mut self, alloc: Global, path: &Path, entry: Entry) -> Result<(), TreeFault>
        ensures { ChangesTree (put_into self.old path.now entry) self.old self.new result }
    {
        match cause_at(&self.root, path.components(), &entry) {
            Some(cause) => Err(Fault::Because(cause)),
            None => {
                self.place(alloc, path, entry)?;
                Ok(())
            }
        }
    }

    /// Writes a file at a path. One that stands there keeps its mode and owner, and a new one is 0644 and 0:0. Missing parents are made,
    /// 0755 and 0:0.
    ///
    /// It fails with `F2` where a file stands on the way, and with `F4` where a directory stands there, as at the root. After any fault the
    /// tree is as it was.
    pub fn write(&mut self, alloc: Global, path: &Path, content: Content) -> Result<(), TreeFault>
        ensures { ChangesTree (written self.old path.now content) self.old self.new result }
    {
        match written_meta(&self.root, path.components()) {
            Err(cause) => Err(Fault::Because(cause)),
            Ok(meta) => {
                self.place(alloc, path, Entry::File(meta, content))?;
                Ok(())
            }
        }
    }

    /// Puts one entry at a path as [`put`](Tree::put) does, in one walk down the tree, where nothing stands in its way: no file
    /// stands on the way to the path, and what stands there, if anything does, is of the entry's kind.
    ///
    /// The caller knows that of what it placed before, as of the rows of one tree's list in whatever order; where it doesn't, `put`
    /// looks first. Where there is no memory, nothing has changed.
    pub fn place(&mut self, alloc: Global, path: &Path, entry: Entry) -> Result<(), Memory>
        requires { cause_at (get self.old) path.now entry ≡ None }
        ensures ok { OnOk result (self.new ≡ placed directory_meta self.old path.now entry) }
        ensures err { OnErr result (self.new ≡ self.old) }
    {
        self.root
            .plant(alloc, path.components(), Meta::directory(), entry)
    }

    /// Makes a directory with its parents, 0755 and 0:0, where nothing stands; where a directory stands, nothing changes.
    ///
    /// It fails with `F2` where a file stands at the path or on the way to it. After any fault the tree is as it was.
    pub fn mkdirs(&mut self, alloc: Global, path: &Path) -> Result<(), TreeFault>
        ensures { ChangesTree (made self.old path.now) self.old self.new result }
    {
        make(alloc, &mut self.root, &Meta::directory(), path)
    }

    /// Takes away what stands at a path, with all that lies below it.
    ///
    /// It fails with `F1` where nothing stands there, and at the root. After any fault the tree is as it was.
    pub fn remove(&mut self, alloc: Global, path: &Path) -> Result<(), TreeFault>
        ensures { ChangesTree (removed self.old path.now) self.old self.new result }
    {
        let parts = path.components();
        if parts.is_empty() {
            return Err(Fault::Because(Cause::F1));
        }
        match self.root.lent().kind(parts) {
            None => Err(Fault::Because(Cause::F1)),
            Some(_) => {
                self.root.cut(alloc, parts)?;
                Ok(())
            }
        }
    }

    /// Places what a COPY places, all of it or nothing: the sources are looked up in `from`, and `dest` is the destination.
    ///
    /// It fails with `F1` where a source isn't there, else with the cause of the first entry that can't be placed: `F5` its path has
    /// more than 64 components; `F3` this COPY placed an entry there before, and they aren't both directories; `F2` and `F4` as for
    /// [`put`](Tree::put). After any fault the tree is as it was.
    pub fn copy_into(
        &mut self,
        alloc: Global,
        from: &Tree,
        sources: &[Source],
        dest: &Path,
        options: &CopyOptions,
    ) -> Result<(), TreeFault>
        ensures { ChangesTree (copied self.old from.now sources.now dest.now options.now) self.old self.new result }
    {
        let tree = self
            .copy(alloc)?
            .copied(alloc, from, sources, dest, options)?;
        *self = tree;
        Ok(())
    }
}

impl Tree {
    /// This tree with what a COPY places in it, as [`copy_into`](Tree::copy_into) does it, out of this tree itself: nothing of it is
    /// copied, and after a fault it is gone.
    pub fn copied(
        self,
        alloc: Global,
        from: &Tree,
        sources: &[Source],
        dest: &Path,
        options: &CopyOptions,
    ) -> Result<Tree, TreeFault>
        ensures { GivesTree (copied self from.now sources.now dest.now options.now) result }
    {
        if is_any_missing(from, sources) {
            return Err(Fault::Because(Cause::F1));
        }
        let Tree { mut root } = self;
        place_sources(alloc, &mut root, options, from, dest, sources)?;
        Ok(Tree { root })
    }

    /// The upper tree laid over the lower one: the upper's entry where it has one; else the lower's where no file of the upper
    /// stands on the way to it. The upper's root and directories win too, with their modes and owners.
    pub fn over(alloc: Global, lower: &Tree, upper: &Tree) -> Result<Tree, Memory>
        ensures { IfOk result (λ tree. tree ≡ over lower.now upper.now) }
    {
        lower.copy(alloc)?.under(alloc, upper)
    }

    /// The upper tree laid over this one, out of this tree itself: nothing of it is copied, and after `Memory` it is gone.
    pub fn under(self, alloc: Global, upper: &Tree) -> Result<Tree, Memory>
        ensures { IfOk result (λ tree. tree ≡ over self upper.now) }
    {
        let Tree { mut root } = self;
        root.lay_over(alloc, &upper.root.lent())?;
        Ok(Tree { root })
    }

    /// Trees laid over each other from the left, the first at the bottom; of none, the empty tree.
    pub fn merged(alloc: Global, trees: &[Tree]) -> Result<Tree, Memory>
        ensures { IfOk result (λ tree. tree ≡ merged trees.now) }
    {
        let [first, rest @ ..] = trees else {
            return Ok(Tree::empty(alloc));
        };
        let mut tree = first.copy(alloc)?;
        for upper in rest {
            tree = tree.under(alloc, upper)?;
        }
        Ok(tree)
    }
}

impl Exact for Tree {
    fn same(&self, other: &Tree) -> bool {
        self.root.lent().same(&other.root.lent())
    }

    fn copy(&self, alloc: Global) -> Result<Tree, Memory> {
        let root = self.root.copy(alloc)?;
        Ok(Tree { root })
    }
}
