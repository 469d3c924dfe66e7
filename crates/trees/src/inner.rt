// A node that has children: what copies of it share.
ghost use Rattle.std.specs.Prelude.{◌≡◌, ◌<◌, ◌≤◌, ◌+◌, true, Some, [], ◌∷◌, IfOk, OnOk, OnErr, length};
ghost use Rattle.std.specs.Arc.{arc_value};
ghost use Rattle.std.specs.FinMap.{get};
ghost use Rattle.plain.specs.Limits.{most_components};
ghost use Rattle.trees.specs.Over.{over};
ghost use Rattle.trees.specs.TreeMap.{is_directory};
ghost use Rattle.trees.specs.PrivateNode.{map_of, joined, node_of, IsDepth, IsPlanted, IsCut, IsFilled, are_parts, lists_of, kids_of};
ghost use Rattle.trees.specs.PrivateSeen.{seen};
ghost use Rattle.trees.specs.PrivateCopy.{keeping};

use crate::children::Children;
use crate::lent_kids::LentKids;
use crate::lent_node::LentNode;
use crate::node::Node;
use crate::part::Part;
use crate::{CopyOptions, Entry, Meta};
use plain::limits::MOST_COMPONENTS;
use plain::{Exact, Memory, Text};
use std::alloc::Global;
use std::marker::Model;
use std::sync::Arc;

/// A depth that says nothing: no path of a tree has so many names.
const UNKNOWN: usize = MOST_COMPONENTS + 1;

/// An entry with children, or one whose children were taken away.
///
/// Nodes share it until one of them is changed. So a small tree may stand for more paths than can be gone through, and it knows how deep
/// it is.
#[derive(Drop)]
#[cycle(nodes)]
pub(crate) struct Inner {
    entry: Entry,
    kids: Children,
    /// How many names the longest path below this node has.
    depth: usize,
}

impl Model for Inner {
    ghost use Rattle.std.specs.Prelude.{◌+◌};
    ghost use Rattle.trees.specs.PrivateNode.{NodeValue, node_code, node_of, joined, IsDepth};
    ghost use Rattle.std.proofs.Common.{arith};

    ghost Value = { NodeValue };

    ghost coded = { node_code };

    ghost view = { λ n. node_of n.entry n.kids };

    ghost invariant = { λ n. IsDepth n.depth (joined n.kids) };

    ghost size = { λ v. v.height + v.height };

    ghost size_decreases = { λ a h. omega arith };
}

impl Inner {
    /// An entry with one child, no path at and below which has more names than so many.
    pub(crate) fn one(
        alloc: Global,
        entry: Entry,
        name: &Text,
        kid: Node,
        depth: usize,
    ) -> Result<Inner, Memory>
        requires { IsDepth depth (joined ((name.now, kid) ∷ [])) }
        ensures { IfOk result (λ n. n ≡ node_of entry ((name.now, kid) ∷ [])) }
    {
        let kids = Children::one(alloc, name, kid)?;
        Ok(Inner { entry, kids, depth })
    }

    /// An entry with the children of these parts, no path among and below which has more names than so many.
    pub(crate) fn of_parts(entry: Entry, parts: Vec<Part>, depth: usize) -> Inner
        requires parts { are_parts (lists_of parts.items) ≡ true }
        requires depth { IsDepth depth (joined (kids_of parts)) }
        ensures { result ≡ node_of entry (kids_of parts) }
    {
        Inner {
            entry,
            kids: Children::of_parts(parts),
            depth,
        }
    }

    /// The same children below another entry, as a COPY places them. Their parts are shared if it keeps modes and owners, and else what is
    /// below them.
    pub(crate) fn with_entry(
        &self,
        alloc: Global,
        entry: Entry,
        options: &CopyOptions,
    ) -> Result<Inner, Memory>
        ensures top { IfOk result (λ n. n.top ≡ entry) }
        ensures below { IfOk result (λ n. n.below ≡ (seen options.now self.now).below) }
    {
        let kids = self.kids_placed(alloc, options)?;
        Ok(Inner {
            entry,
            kids,
            depth: self.depth,
        })
    }

    /// The children as a COPY places them.
    fn kids_placed(&self, alloc: Global, options: &CopyOptions) -> Result<Children, Memory>
        ensures { IfOk result (λ kids. node_of (seen options.now self.now).top kids ≡ seen options.now self.now) }
    {
        if options.is_keeping() {
            self.kids.copy(alloc)
        } else {
            self.kids.placed(alloc, options)
        }
    }

    /// This node's entry, lent.
    pub(crate) fn entry(&self) -> &Entry
        ensures { result.now ≡ self.now.top }
    {
        &self.entry
    }

    /// What stands right below this node, lent.
    pub(crate) fn kids(&self) -> &Children
        ensures { node_of self.now.top result.now ≡ self.now }
    {
        &self.kids
    }

    /// How many names the longest path below this node has. A number greater than that of any path of a tree says nothing.
    pub(crate) fn depth(&self) -> usize
        ensures { IsDepth result self.now.below }
    {
        self.depth
    }

    /// Gives this node another entry.
    pub(crate) fn set_entry(&mut self, entry: Entry)
        ensures top { self.new.top ≡ entry }
        ensures below { self.new.below ≡ self.old.below }
    {
        self.entry = entry;
    }

    /// The same node as a COPY places it. What is below its children is shared.
    pub(crate) fn placed(&self, alloc: Global, options: &CopyOptions) -> Result<Inner, Memory>
        ensures { IfOk result (λ n. n ≡ seen options.now self.now) }
    {
        let entry = options.placed_entry(alloc, &self.entry)?;
        let kids = self.kids_placed(alloc, options)?;
        Ok(Inner {
            entry,
            kids,
            depth: self.depth,
        })
    }

    /// Puts an entry at a path below this node, as [`Node::plant`] does.
    #[cycle(planting)]
    pub(crate) fn plant(
        &mut self,
        alloc: Global,
        path: &[Text],
        parent: Meta,
        entry: Entry,
    ) -> Result<(), Memory>
        ensures ok { OnOk result (IsPlanted (get (map_of self.old)) (map_of self.new) path.now parent entry) }
        ensures err { OnErr result (map_of self.new ≡ map_of self.old) }
    {
        match path {
            [] => {
                self.entry = entry;
                Ok(())
            }
            [name, rest @ ..] => {
                self.depth = self.depth.max(path.len());
                self.kids.plant(alloc, name, rest, parent, entry)
            }
        }
    }

    /// Lays a directory with children over this node, as [`Node::lay_over`] does.
    #[cycle(laying)]
    pub(crate) fn lay_over(
        &mut self,
        alloc: Global,
        upper: &LentNode<'_>,
        uppers: &LentKids<'_>,
    ) -> Result<bool, Memory>
        requires directory { is_directory (Some upper.now.top) ≡ true }
        requires kids { node_of upper.now.top uppers.now ≡ upper.now }
        ensures { OnOk result (map_of self.new ≡ over (map_of self.old) (map_of upper.now)) }
    {
        let before = self.depth;
        self.entry = upper.entry().to_entry(alloc)?;
        let deepest = before.max(upper.depth());
        // Where there is no memory, what is half done may be anything.
        self.depth = UNKNOWN;
        let is_less = self.kids.lay_over(alloc, uppers)?;
        self.depth = depth_of(&self.kids, deepest, is_less);
        Ok(self.depth < before)
    }

    /// Puts what is below a folder below the node at a path that isn't this node's own, as [`Node::fill`] does.
    #[cycle(filling)]
    pub(crate) fn fill(
        &mut self,
        alloc: Global,
        path: &[Text],
        folder: &LentNode<'_>,
    ) -> Result<(), Memory>
        requires { 0 < length path.now }
        ensures { OnOk result (IsFilled (get (map_of self.old)) (get (map_of self.new)) path.now folder.now.below) }
    {
        let [name, rest @ ..] = path else {
            return Ok(());
        };
        let deepest = self.depth.max(lifted(folder.depth(), path.len()));
        // Where there is no memory, what is half done may be anything.
        self.depth = UNKNOWN;
        self.kids.fill(alloc, name, rest, folder)?;
        self.depth = deepest;
        Ok(())
    }

    /// Takes away what stands at a path below this node, as [`Node::cut`] does.
    #[cycle(cutting)]
    pub(crate) fn cut(&mut self, alloc: Global, path: &[Text]) -> Result<(), Memory>
        requires { 0 < length path.now }
        ensures ok { OnOk result (IsCut (get (map_of self.old)) (get (map_of self.new)) path.now) }
        ensures err { OnErr result (map_of self.new ≡ map_of self.old) }
    {
        match path {
            [] => Ok(()),
            [name, rest @ ..] => {
                let is_deepest = self.is_deepest(name);
                self.kids.cut(alloc, name, rest)?;
                self.depth = depth_of(&self.kids, self.depth, is_deepest);
                Ok(())
            }
        }
    }

    /// Whether no child is deeper than the one of a name. It is asked only to save going through all of them.
    fn is_deepest(&self, name: &Text) -> bool {
        match self.kids.get(name) {
            Some(kid) => lifted(kid.depth(), 1) >= self.depth,
            None => false,
        }
    }
}

/// How deep children are that are no deeper than `deepest`, and as deep as that unless one of them is less deep than before.
fn depth_of(kids: &Children, deepest: usize, is_less: bool) -> usize
    requires { IsDepth deepest (joined kids.now) }
    ensures { IsDepth result (joined kids.now) }
{
    if is_less {
        kids.depth(deepest)
    } else {
        deepest
    }
}

/// How deep it is below a node where it is so deep so many names further down.
pub(crate) fn lifted(depth: usize, names: usize) -> usize
    ensures { result ≤ most_components → depth + names ≤ result }
{
    if depth > MOST_COMPONENTS || names > MOST_COMPONENTS {
        return UNKNOWN;
    }
    depth + names
}
