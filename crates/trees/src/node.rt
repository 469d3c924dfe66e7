ghost use Rattle.std.specs.Prelude.{◌≡◌, ◌↔◌, ◌<◌, ◌≤◌, ◌+◌, ℕ, true, false, Some, None, List, [], ◌∷◌, ◌++◌, is_some, drop, length, IsTrue, IfOk, OnOk, OnErr, MatchOption, option_copied, option_and_then};
ghost use Rattle.std.specs.FinMap.{get, empty, entries};
ghost use Rattle.trees.specs.TreeMap.{is_directory};
ghost use Rattle.trees.specs.Over.{over};
ghost use Rattle.trees.specs.PrivateNode.{map_of, joined, node_of, IsDepth, IsDeeper, IsPlanted, IsCut, IsFilled, are_parts, lists_of, kids_of};
ghost use Rattle.trees.specs.PrivateHeld.{held_value};
ghost use Rattle.trees.specs.PrivateSeen.{seen};

use crate::inner::Inner;
use crate::lent_kids::LentKids;
use crate::lent_node::LentNode;
use crate::part::Part;
use crate::{CopyOptions, Entry, Meta};
use plain::{Exact, Memory, Text};
use std::alloc::Global;
use std::marker::Model;
use std::sync::Arc;

/// An entry, with all that stands below it by the names of its directory. A file has no children.
///
/// Most nodes are files, so one takes no more than its entry, and what else a node with children has lies behind a pointer that its copies
/// share, with what COPYs put on all of it beside the pointer. What nobody else points to, and nothing is put on, is changed where it stands;
/// else a copy is changed and takes its place.
#[derive(Drop)]
#[cycle(nodes)]
pub(crate) struct Node {
    held: Held,
}

/// What a node holds.
#[derive(Drop)]
#[cycle(nodes)]
pub(crate) enum Held {
    /// An entry with nothing below it. It takes no memory of its own.
    Leaf(Entry),
    /// What copies of the node share, and the mode and owner that COPYs put on all of it. `into` says nothing here.
    Folder(Arc<Inner, Global>, CopyOptions),
}

impl Model for Node {
    ghost use Rattle.std.specs.Prelude.{◌+◌};
    ghost use Rattle.trees.specs.PrivateNode.{NodeValue, node_code};
    ghost use Rattle.trees.specs.PrivateHeld.{held_value};

    ghost Value = { NodeValue };

    ghost coded = { node_code };

    ghost view = { λ n. held_value n.held };

    ghost size = { λ v. v.height + v.height + 1 };

    ghost use Rattle.trees.specs.PrivateFall.{node_falls};

    ghost size_decreases = { λ a h. node_falls a };
}

impl Node {
    /// An entry with nothing below it. It takes no memory.
    pub(crate) fn leaf(entry: Entry) -> Node
        ensures { result ≡ node_of entry [] }
    {
        Node {
            held: Held::Leaf(entry),
        }
    }

    /// An entry with the children of these parts, no path among and below which has more names than so many.
    pub(crate) fn of_parts(
        alloc: Global,
        entry: Entry,
        parts: Vec<Part>,
        depth: usize,
    ) -> Result<Node, Memory>
        requires parts { are_parts (lists_of parts.items) ≡ true }
        requires depth { IsDepth depth (joined (kids_of parts)) }
        ensures { IfOk result (λ n. n ≡ node_of entry (kids_of parts)) }
    {
        Node::of_inner(alloc, Inner::of_parts(entry, parts, depth))
    }

    /// A node with children.
    pub(crate) fn of_inner(alloc: Global, inner: Inner) -> Result<Node, Memory>
        ensures { IfOk result (λ n. n ≡ inner) }
    {
        let shared = Arc::new(alloc, inner)?;
        Ok(Node {
            held: Held::Folder(shared, CopyOptions::keeping()),
        })
    }

    /// What it holds, lent.
    pub(crate) fn held(&self) -> &Held
        ensures { held_value result.now ≡ self.now }
    {
        &self.held
    }

    /// This node, lent. Nothing is put on it from above.
    pub(crate) fn lent(&self) -> LentNode<'_>
        ensures { result ≡ self.now }
    {
        LentNode::of(self, CopyOptions::keeping())
    }

    /// How many names the longest path below this node has. A number greater than that of any path of a tree says nothing.
    pub(crate) fn depth(&self) -> usize
        ensures { IsDepth result self.now.below }
    {
        match &self.held {
            Held::Leaf(_) => 0,
            Held::Folder(inner, _) => inner.depth(),
        }
    }

    /// Directories down a path, each with the meta of a parent, that end in an entry.
    pub(crate) fn chain(
        alloc: Global,
        path: &[Text],
        parent: Meta,
        entry: Entry,
    ) -> Result<Node, Memory>
        ensures { IfOk result (λ n. IsPlanted (λ _. None) (map_of n) path.now parent entry) }
    {
        match path {
            [] => Ok(Node::leaf(entry)),
            [name, rest @ ..] => {
                let kid = Node::chain(alloc, rest, parent, entry)?;
                let top = Entry::Directory(parent);
                Node::of_inner(alloc, Inner::one(alloc, top, name, kid, path.len())?)
            }
        }
    }

    /// Puts an entry at a path below this node. Missing parents are made; a directory that stands at the path keeps what is
    /// below it.
    #[cycle(planting)]
    pub(crate) fn plant(
        &mut self,
        alloc: Global,
        path: &[Text],
        parent: Meta,
        entry: Entry,
    ) -> Result<(), Memory>
        ensures ok { OnOk result (IsPlanted (get (map_of self.old)) (map_of self.new) path.now parent entry) }
        ensures err { OnErr result (map_of self.new ≡ map_of self.old) }
    {
        let Held::Folder(shared, options) = &mut self.held else {
            return self.plant_leaf(alloc, path, parent, entry);
        };
        if options.is_keeping() {
            if let Some(inner) = Arc::get_mut(shared) {
                return inner.plant(alloc, path, parent, entry);
            }
        }
        let mut inner = shared.placed(alloc, options)?;
        inner.plant(alloc, path, parent, entry)?;
        *self = Node::of_inner(alloc, inner)?;
        Ok(())
    }

    /// Does so where nothing is below this node.
    fn plant_leaf(
        &mut self,
        alloc: Global,
        path: &[Text],
        parent: Meta,
        entry: Entry,
    ) -> Result<(), Memory>
        requires { self.old.below ≡ empty }
        ensures ok { OnOk result (IsPlanted (get (map_of self.old)) (map_of self.new) path.now parent entry) }
        ensures err { OnErr result (map_of self.new ≡ map_of self.old) }
    {
        match path {
            [] => {
                *self = Node::leaf(entry);
                Ok(())
            }
            [name, rest @ ..] => {
                let top = self.lent().entry().to_entry(alloc)?;
                let first = Node::chain(alloc, rest, parent, entry)?;
                *self = Node::of_inner(alloc, Inner::one(alloc, top, name, first, path.len())?)?;
                Ok(())
            }
        }
    }

    /// Gives this node another entry. What is below it stays. Where there is no memory, nothing has changed.
    fn set_entry(&mut self, alloc: Global, entry: Entry) -> Result<(), Memory>
        ensures top { OnOk result (self.new.top ≡ entry) }
        ensures below { self.new.below ≡ self.old.below }
        ensures err { OnErr result (self.new.top ≡ self.old.top) }
    {
        let Held::Folder(shared, options) = &mut self.held else {
            *self = Node::leaf(entry);
            return Ok(());
        };
        if options.is_keeping() {
            if let Some(inner) = Arc::get_mut(shared) {
                inner.set_entry(entry);
                return Ok(());
            }
        }
        let inner = shared.with_entry(alloc, entry, options)?;
        *self = Node::of_inner(alloc, inner)?;
        Ok(())
    }
}

impl Node {
    /// The same node as a COPY places it. What is below it is shared.
    pub(crate) fn placed(&self, alloc: Global, options: &CopyOptions) -> Result<Node, Memory>
        ensures { IfOk result (λ n. n ≡ seen options.now self.now) }
    {
        match &self.held {
            Held::Leaf(entry) => Ok(Node::leaf(options.placed_entry(alloc, entry)?)),
            Held::Folder(inner, put_on) => {
                let shared = Arc::try_clone(inner)?;
                Ok(Node {
                    held: Held::Folder(shared, put_on.then(options)),
                })
            }
        }
    }

    /// A node that stands for the same map and shares what is below it.
    pub(crate) fn copy(&self, alloc: Global) -> Result<Node, Memory>
        ensures { IfOk result (λ n. n ≡ self.now) }
    {
        match &self.held {
            Held::Leaf(entry) => Ok(Node::leaf(entry.copy(alloc)?)),
            Held::Folder(inner, put_on) => {
                let shared = Arc::try_clone(inner)?;
                Ok(Node {
                    held: Held::Folder(shared, *put_on),
                })
            }
        }
    }

    /// Lays another node over this one, and answers whether this one is less deep than before. Where there is no memory, it is left
    /// half done.
    #[cycle(laying)]
    pub(crate) fn lay_over(&mut self, alloc: Global, upper: &LentNode<'_>) -> Result<bool, Memory>
        ensures { OnOk result (map_of self.new ≡ over (map_of self.old) (map_of upper.now)) }
    {
        let before = self.depth();
        if !upper.is_directory() {
            *self = upper.copy(alloc)?;
            return Ok(before > 0);
        }
        let Some(uppers) = upper.children() else {
            self.set_entry(alloc, upper.entry().to_entry(alloc)?)?;
            return Ok(false);
        };
        let Held::Folder(shared, options) = &mut self.held else {
            *self = upper.copy(alloc)?;
            return Ok(false);
        };
        // Folders of files are mostly laid over others of the same names: they are shared then, and no name is copied.
        if LentKids::of(shared.kids(), *options).is_hidden_by(&uppers) {
            *self = upper.copy(alloc)?;
            return Ok(self.depth() < before);
        }
        if options.is_keeping() {
            if let Some(inner) = Arc::get_mut(shared) {
                return inner.lay_over(alloc, upper, &uppers);
            }
        }
        let mut inner = shared.placed(alloc, options)?;
        let is_less = inner.lay_over(alloc, upper, &uppers)?;
        *self = Node::of_inner(alloc, inner)?;
        Ok(is_less)
    }

    /// Puts what is below a folder below the node at a path, if there is one, in place of what was below that. All of it is shared.
    #[cycle(filling)]
    pub(crate) fn fill(
        &mut self,
        alloc: Global,
        path: &[Text],
        folder: &LentNode<'_>,
    ) -> Result<(), Memory>
        ensures { OnOk result (IsFilled (get (map_of self.old)) (get (map_of self.new)) path.now folder.now.below) }
    {
        if path.is_empty() {
            return self.hold(alloc, folder);
        }
        let Held::Folder(shared, options) = &mut self.held else {
            return Ok(());
        };
        if options.is_keeping() {
            if let Some(inner) = Arc::get_mut(shared) {
                return inner.fill(alloc, path, folder);
            }
        }
        let mut inner = shared.placed(alloc, options)?;
        inner.fill(alloc, path, folder)?;
        *self = Node::of_inner(alloc, inner)?;
        Ok(())
    }

    /// Puts what is below a folder below this node, in place of what was there.
    fn hold(&mut self, alloc: Global, folder: &LentNode<'_>) -> Result<(), Memory>
        ensures top { OnOk result (self.new.top ≡ self.old.top) }
        ensures below { OnOk result (self.new.below ≡ folder.now.below) }
    {
        // A folder with the same entry is shared as a whole, and otherwise the parts of its children are, or what is below them.
        if self.lent().has_entry_of(folder) {
            *self = folder.copy(alloc)?;
            return Ok(());
        }
        let entry = self.lent().entry().to_entry(alloc)?;
        *self = folder.with_entry(alloc, entry)?;
        Ok(())
    }

    /// Takes away what stands at a path below this node, with all below it. Where there is no memory, nothing has changed.
    #[cycle(cutting)]
    pub(crate) fn cut(&mut self, alloc: Global, path: &[Text]) -> Result<(), Memory>
        requires { 0 < length path.now }
        ensures ok { OnOk result (IsCut (get (map_of self.old)) (get (map_of self.new)) path.now) }
        ensures err { OnErr result (map_of self.new ≡ map_of self.old) }
    {
        let Held::Folder(shared, options) = &mut self.held else {
            return Ok(());
        };
        if options.is_keeping() {
            if let Some(inner) = Arc::get_mut(shared) {
                return inner.cut(alloc, path);
            }
        }
        let mut inner = shared.placed(alloc, options)?;
        inner.cut(alloc, path)?;
        *self = Node::of_inner(alloc, inner)?;
        Ok(())
    }
}
