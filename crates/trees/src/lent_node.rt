// A node as it is seen from where it hangs: with the modes and owners that COPYs put on the folders above it.
ghost use Rattle.std.specs.Prelude.{◌≡◌, ◌↔◌, ◌++◌, ◌∷◌, List, ℕ, [], Some, None, true, false, drop, is_some, IsTrue, IfOk, OnOk, MatchOption, option_and_then, option_map};
ghost use Rattle.std.specs.FinMap.{get, empty, entries};
ghost use Rattle.paths.specs.Path.{IsClean};
ghost use Rattle.trees.specs.TreeMap.{is_directory, meta_of};
ghost use Rattle.trees.specs.Rows.{lent_rows, entry_of};
ghost use Rattle.trees.specs.Over.{over};
ghost use Rattle.trees.specs.Copy.{placed_entry, placements, kind_of};
ghost use Rattle.trees.specs.PrivateNode.{map_of, node_of, IsDepth, IsDeeper, IsBelow, rows_under};
ghost use Rattle.trees.specs.PrivateHeld.{kids_of_lent};
ghost use Rattle.trees.specs.PrivateSeen.{seen};
ghost use Rattle.trees.specs.PrivateWalk.{rows_of, AreKidsFrom};
ghost use Rattle.trees.specs.PrivateLanding.{Lands};
ghost use Rattle.trees.specs.PrivateCopy.{MeetInDirectories};

use crate::copy::Change;
use crate::kids::Kids;
use crate::landing::Landing;
use crate::lent_kids::LentKids;
use crate::node::{Held, Node};
use crate::{CopyOptions, Entry, LentEntry, Meta};
use paths::{LongPath, Path};
use plain::{Exact, Memory, Text};
use std::alloc::Global;
use std::marker::Model;

/// A node, lent, and what COPYs put on it and on all that is below it from above. So a COPY that gives a folder other owners takes no step
/// through it: who reads it gets each entry with its owner.
#[derive(Drop)]
pub(crate) struct LentNode<'a> {
    node: &'a Node,
    options: CopyOptions,
}

impl<'a> Model for LentNode<'a> {
    ghost use Rattle.trees.specs.PrivateNode.{NodeValue, node_code};
    ghost use Rattle.trees.specs.PrivateSeen.{seen};

    ghost Value = { NodeValue };

    ghost coded = { node_code };

    ghost view = { λ n. seen n.options n.node.now };
}

impl<'a> LentNode<'a> {
    /// This node, with the mode and the owner that these options put on it and on all below it.
    pub(crate) fn of(node: &'a Node, options: CopyOptions) -> LentNode<'a>
        ensures { result ≡ seen options node.now }
    {
        LentNode { node, options }
    }

    /// The same node as a COPY places it.
    pub(crate) fn placed(&self, options: &CopyOptions) -> LentNode<'a>
        ensures { result ≡ seen options.now self.now }
    {
        LentNode::of(self.node, self.options.then(options))
    }

    /// What stands right below this node, if it takes memory.
    pub(crate) fn children(&self) -> Option<LentKids<'a>>
        ensures { node_of self.now.top (kids_of_lent result) ≡ self.now }
    {
        let node = self.node;
        match node.held() {
            Held::Leaf(_) => None,
            Held::Folder(inner, put_on) => {
                Some(LentKids::of(inner.kids(), put_on.then(&self.options)))
            }
        }
    }

    /// How many names the longest path below this node has. A number greater than that of any path of a tree says nothing.
    pub(crate) fn depth(&self) -> usize
        ensures { IsDepth result self.now.below }
    {
        self.node.depth()
    }

    /// The entry that it holds, and what COPYs put on that.
    fn stored(&self) -> (CopyOptions, &'a Entry)
        ensures { placed_entry result.0 result.1.now ≡ self.now.top }
    {
        let node = self.node;
        match node.held() {
            Held::Leaf(entry) => (self.options, entry),
            Held::Folder(inner, put_on) => (put_on.then(&self.options), inner.entry()),
        }
    }

    /// This node's entry.
    pub(crate) fn entry(&self) -> LentEntry<'a>
        ensures { entry_of result ≡ self.now.top }
    {
        let (options, entry) = self.stored();
        options.lent_entry(entry)
    }

    /// The mode and owner of this node's entry.
    pub(crate) fn meta(&self) -> Meta
        ensures { result ≡ meta_of self.now.top }
    {
        let (options, entry) = self.stored();
        options.placed_meta(entry.meta())
    }

    /// Whether this node's entry is a directory.
    pub(crate) fn is_directory(&self) -> bool
        ensures { result ≡ is_directory (Some self.now.top) }
    {
        let (_, entry) = self.stored();
        entry.is_directory()
    }

    /// Whether nothing is below this node.
    pub(crate) fn is_bare(&self) -> bool
        ensures bare { IsTrue result → self.now.below ≡ empty }
        ensures full { result ≡ false → (name : List ℕ) × (is_some (get self.now.below (name ∷ [])) ≡ true) }
    {
        match self.children() {
            None => true,
            Some(kids) => kids.is_none(),
        }
    }

    /// Whether a path below this node has more names than so many. It goes down where it is deep enough.
    #[cycle(sounding)]
    pub(crate) fn is_deeper(&self, most: usize) -> bool
        ensures { IsTrue result → IsDeeper most self.now.below }
    {
        match self.children() {
            None => false,
            Some(kids) => self.depth() > most && kids.is_deeper(most),
        }
    }

    /// What stands right below this node, in the order of the names.
    pub(crate) fn kids(&self) -> Kids<'a>
        ensures { entries (map_of self.now) ≡ ([], self.now.top) ∷ rows_of result }
    {
        match self.children() {
            None => Kids::none(),
            Some(kids) => kids.iter(),
        }
    }

    /// What stands right below this node under names that don't come before a text, in the order of the names.
    pub(crate) fn kids_from(&self, front: &Text) -> Kids<'a>
        ensures { AreKidsFrom self.now front.now result }
    {
        match self.children() {
            None => Kids::none(),
            Some(kids) => kids.iter_from(front),
        }
    }

    /// What stands right below this node under a name.
    pub(crate) fn child(&self, name: &Text) -> Option<LentNode<'a>>
        ensures { (rest : List (List ℕ)) → get (map_of self.now) (name.now ∷ rest) ≡ option_and_then (λ child. get (map_of child) rest) result }
    {
        match self.children() {
            None => None,
            Some(kids) => kids.get(name),
        }
    }

    /// The entry at a path below this node.
    pub(crate) fn find(&self, path: &[Text]) -> Option<LentEntry<'a>>
        ensures { option_map entry_of result ≡ get (map_of self.now) path.now }
    {
        match path {
            [] => Some(self.entry()),
            [name, rest @ ..] => match self.child(name) {
                Some(kid) => kid.find(rest),
                None => None,
            },
        }
    }

    /// Whether what stands at a path below this node is a directory, if anything stands there.
    pub(crate) fn kind(&self, path: &[Text]) -> Option<bool>
        ensures { result ≡ kind_of (get (map_of self.now) path.now) }
    {
        match self.node_at(path) {
            None => None,
            Some(node) => Some(node.is_directory()),
        }
    }

    /// The node at a path below this one.
    pub(crate) fn node_at(&self, path: &[Text]) -> Option<LentNode<'a>>
        ensures { MatchOption result (get (map_of self.now) path.now ≡ None) (λ node. IsBelow (map_of self.now) path.now (map_of node)) }
    {
        match path {
            [] => Some(LentNode::of(self.node, self.options)),
            [name, rest @ ..] => match self.child(name) {
                Some(kid) => kid.node_at(rest),
                None => None,
            },
        }
    }

    /// What a walk down to a path below this node finds. This node's own entry is on the way to all of them but its own.
    pub(crate) fn landing(&self, path: &[Text]) -> Landing<'a>
        ensures { Lands (get (map_of self.now)) path.now result }
    {
        match path {
            [] => Landing::At(self.entry()),
            [name, rest @ ..] => {
                if !self.is_directory() {
                    return Landing::Blocked;
                }
                match self.child(name) {
                    Some(kid) => kid.landing(rest),
                    None => Landing::Free,
                }
            }
        }
    }

    /// Whether the entries of the two are equal.
    pub(crate) fn has_entry_of(&self, other: &LentNode<'_>) -> bool
        ensures { IsTrue result ↔ (self.now.top ≡ other.now.top) }
    {
        let (options, entry) = self.stored();
        let (others, other_entry) = other.stored();
        options.places_same(entry, &others, other_entry)
    }

    /// Whether the two stand for the same map.
    #[cycle(comparing)]
    pub(crate) fn same(&self, other: &LentNode<'_>) -> bool
        ensures { IsTrue result ↔ (map_of self.now ≡ map_of other.now) }
    {
        if !self.has_entry_of(other) {
            return false;
        }
        let Some(kids) = self.children() else {
            return other.is_bare();
        };
        match other.children() {
            None => kids.is_none(),
            Some(others) => kids.same(&others),
        }
    }

    /// A node of its own that stands for the same map and shares what is below it.
    pub(crate) fn copy(&self, alloc: Global) -> Result<Node, Memory>
        ensures { IfOk result (λ n. n ≡ self.now) }
    {
        self.node.placed(alloc, &self.options)
    }

    /// A node with another entry and the same below it. The parts of its children are shared, or, if a COPY put a mode or an owner on it,
    /// what is below each child.
    pub(crate) fn with_entry(&self, alloc: Global, entry: Entry) -> Result<Node, Memory>
        ensures top { IfOk result (λ n. n.top ≡ entry) }
        ensures below { IfOk result (λ n. n.below ≡ self.now.below) }
    {
        let node = self.node;
        match node.held() {
            Held::Leaf(_) => Ok(Node::leaf(entry)),
            Held::Folder(inner, put_on) => {
                let options = put_on.then(&self.options);
                let other = inner.with_entry(alloc, entry, &options)?;
                Node::of_inner(alloc, other)
            }
        }
    }

    /// Adds a row for each entry, in path order, this node's own path being `at`.
    #[cycle(listing)]
    pub(crate) fn push_rows(
        &self,
        alloc: Global,
        at: &Path,
        rows: &mut Vec<(Path, LentEntry<'a>)>,
    ) -> Result<(), Memory>
        requires { (q : List (List ℕ)) → is_some (get (map_of self.now) q) ≡ true → IsClean (at.now ++ q) }
        ensures { OnOk result (lent_rows rows.new.items ≡ lent_rows rows.old.items ++ rows_under at.now (entries (map_of self.now))) }
    {
        rows.push((at.copy(alloc)?, self.entry()))?;
        match self.children() {
            None => Ok(()),
            Some(kids) => kids.push_rows(alloc, at, rows),
        }
    }

    /// Adds a change for each entry below this node, in path order: it is placed below `at`, at its path from this node.
    #[cycle(changing)]
    pub(crate) fn push_changes(
        &self,
        alloc: Global,
        options: &CopyOptions,
        at: &LongPath,
        changes: &mut Vec<Change>,
    ) -> Result<(), Memory>
        requires { (q : List (List ℕ)) → is_some (get (map_of self.now) q) ≡ true → IsClean q }
        ensures { OnOk result (changes.new.items ≡ changes.old.items ++ placements options.now at.now (drop 1 (entries (map_of self.now)))) }
    {
        match self.children() {
            None => Ok(()),
            Some(kids) => kids.push_changes(alloc, options, at, changes),
        }
    }

    /// Whether nothing of another node is left once this one is laid over it: this one is a file, or nothing is below the other.
    pub(crate) fn hides(&self, lower: &LentNode<'_>) -> bool
        ensures { IsTrue result → over (map_of lower.now) (map_of self.now) ≡ map_of self.now }
    {
        !self.is_directory() || lower.is_bare()
    }

    /// Whether something stands at one path below both, unless it is a directory in both. The names of the other are looked up here, and
    /// only where both have a folder does it go on below.
    #[cycle(meeting)]
    pub(crate) fn meets(&self, other: &LentNode<'_>) -> bool
        ensures { result ≡ false → MeetInDirectories self.now.below other.now.below }
    {
        let Some(kids) = self.children() else {
            return false;
        };
        match other.children() {
            None => false,
            Some(others) => kids.meets(&others),
        }
    }
}
