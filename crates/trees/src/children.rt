ghost use Rattle.std.specs.Prelude.{◌≡◌, ◌↔◌, ℕ, true, false, Some, None, List, [], ◌∷◌, ◌++◌, is_some, IsTrue, IfOk, IfErr, OnOk, OnErr, option_copied};
ghost use Rattle.std.specs.Borrow.{sem};
ghost use Rattle.std.specs.List.Sorted.{IsStrictlySortedBy};
ghost use Rattle.std.specs.Map.{lookup, keys_of};
ghost use Rattle.std.specs.BTreeMap.{is_at};
ghost use Rattle.std.specs.FinMap.{get, empty, entries, find};
ghost use Rattle.plain.specs.declared.fault.Fault.TheVariants.{Because};
ghost use Rattle.paths.specs.Order.{name_cmp};
ghost use Rattle.trees.specs.declared.children.Absent.{Absent};
ghost use Rattle.trees.specs.Branch.{from_name};
ghost use Rattle.trees.specs.PrivateNode.{joined, IsDepth, AreKids, ArePlanted, AreCut, AreFilled, AreLaid, are_parts, lists_of, kids_of};
ghost use Rattle.trees.specs.PrivateLent.{LendsKid};
ghost use Rattle.trees.specs.PrivateSeen.{seen_kids};

use crate::inner::lifted;
use crate::kids::Kids;
use crate::lent_kids::LentKids;
use crate::lent_node::LentNode;
use crate::node::Node;
use crate::part::{
    Part, has_room, make_room, part_of_one, place, placed_parts, put, share, take_away,
};
use crate::{CopyOptions, Entry, Meta};
use plain::{Exact, Fault, Memory, Text};
use std::alloc::Global;
use std::marker::Model;
use std::sync::Arc;

/// There is no child of a name.
#[derive(Clone, Copy, Debug, PartialEq, Eq)]
pub(crate) struct Absent;

/// What stands below a node: its children by their names, in parts that copies share.
///
/// No part is empty, and all names of a part come before all of the next. A change copies the pointers to the parts and the part that
/// it reaches, whose nodes share what is below them; a part that nobody shares is changed in place. So it costs the folders on its way,
/// and of each but one part.
#[derive(Drop)]
#[cycle(nodes)]
pub(crate) struct Children {
    parts: Vec<Part>,
}

impl Model for Children {
    ghost use Rattle.std.specs.Prelude.{◌≡◌, ◌+◌, true, ℕ, List};
    ghost use Rattle.trees.specs.PrivateNode.{NodeValue, kids_code, lists_of, kids_of, are_parts, height_of};

    ghost Value = { List (List ℕ × NodeValue) };

    ghost coded = { kids_code };

    ghost view = { λ c. kids_of c.parts };

    ghost invariant = { λ c. are_parts (lists_of c.parts.items) ≡ true };

    ghost size = { λ v. height_of v + height_of v + 1 };

    ghost use Rattle.trees.specs.PrivateFall.{children_fall};

    ghost size_decreases = { λ a h. children_fall a };
}

impl Children {
    /// One child.
    pub(crate) fn one(alloc: Global, name: &Text, kid: Node) -> Result<Children, Memory>
        ensures { IfOk result (λ kids. kids ≡ (name.now, kid) ∷ []) }
    {
        let part = part_of_one(alloc, name, kid)?;
        let mut parts = Vec::new(alloc);
        parts.push(part)?;
        Ok(Children { parts })
    }

    /// The children of these parts.
    pub(crate) fn of_parts(parts: Vec<Part>) -> Children
        requires { are_parts (lists_of parts.items) ≡ true }
        ensures { result ≡ kids_of parts }
    {
        Children { parts }
    }

    /// The child of a name.
    pub(crate) fn get(&self, name: &Text) -> Option<&Node>
        ensures value { option_copied result ≡ lookup (is_at (name_cmp name.now)) self.now }
    {
        let at = place(self.parts.as_slice(), name);
        match self.parts.get(at) {
            Some(part) => part.get(name),
            None => None,
        }
    }

    /// The same children, each part of which is shared.
    pub(crate) fn copy(&self, alloc: Global) -> Result<Children, Memory>
        ensures { IfOk result (λ kids. kids ≡ self.now) }
    {
        let parts = share(alloc, self.parts.as_slice())?;
        Ok(Children { parts })
    }

    /// All children as these options place them, in the order of their names.
    pub(crate) fn iter(&self, options: CopyOptions) -> Kids<'_>
        ensures all { result ≡ seen_kids options self.now }
        ensures ordered { IsStrictlySortedBy name_cmp (keys_of self.now) }
    {
        Kids::of_begun(&[], self.parts.as_slice(), options)
    }

    /// The children whose names don't come before a text, as these options place them, in the order of their names. It costs no walk through
    /// those that do.
    pub(crate) fn iter_from(&self, front: &Text, options: CopyOptions) -> Kids<'_>
        ensures from { result ≡ seen_kids options (from_name front.now self.now) }
        ensures ordered { IsStrictlySortedBy name_cmp (keys_of self.now) }
    {
        let parts = self.parts.as_slice();
        let at = place(parts, front);
        match parts.get(at) {
            Some(part) => Kids::of_begun(part.rows_from(front), &parts[at + 1..], options),
            None => Kids::none(),
        }
    }

    /// How many names the longest path among these children and below them has, if they are no deeper than `most`. It goes through them
    /// until one of them is as deep as that.
    pub(crate) fn depth(&self, most: usize) -> usize
        requires { IsDepth most (joined self.now) }
        ensures { IsDepth result (joined self.now) }
    {
        let mut depth: usize = 0;
        let mut kids = self.iter(CopyOptions::keeping());
        while let Some((_, kid)) = kids.next() {
            depth = depth.max(lifted(kid.depth(), 1));
            if depth >= most {
                return most;
            }
        }
        depth
    }

    /// Whether there are none.
    pub(crate) fn is_none(&self) -> bool
        ensures { IsTrue result ↔ (self.now ≡ []) }
    {
        self.parts.is_empty()
    }

    /// The child of a name, lent to be changed: where others share its part, a copy takes the part's place first. The children stay as they are until it is.
    pub(crate) fn own_mut(&mut self, name: &Text) -> Result<&mut Node, Fault<Absent>>
        ensures* lends { sem 𝓛 (LendsKid self.entry name.now result) }
        ensures kid { IfOk result (λ kid. find name_cmp name.now self.old ≡ Some kid.now) }
        ensures absent { IfErr result (λ fault. (why : Absent) → fault ≡ Because why → find name_cmp name.now self.old ≡ None) }
    {
        let at = place(self.parts.as_slice(), name);
        let Some(part) = self.parts.get_mut(at) else {
            return Err(Fault::Because(Absent));
        };
        let names = match Arc::make_mut(part) {
            Ok(names) => names,
            Err(_) => return Err(Fault::Memory),
        };
        match names.get_mut(name) {
            Some(kid) => Ok(kid),
            None => Err(Fault::Because(Absent)),
        }
    }

    /// Puts a child under a name. Where there is no memory, nothing has changed.
    pub(crate) fn insert(&mut self, alloc: Global, name: &Text, kid: Node) -> Result<(), Memory>
        ensures ok { OnOk result (AreKids self.old self.new name.now (Some kid)) }
        ensures err { OnErr result (self.new ≡ self.old) }
    {
        if self.parts.is_empty() {
            let part = part_of_one(alloc, name, kid)?;
            self.parts.push(part)?;
            return Ok(());
        }
        let first = place(self.parts.as_slice(), name);
        if has_room(&self.parts[first], self.parts.len()) {
            return put(alloc, &mut self.parts[first], name, kid);
        }
        make_room(alloc, &mut self.parts, first, name)?;
        let at = place(self.parts.as_slice(), name);
        put(alloc, &mut self.parts[at], name, kid)
    }

    /// Takes the child of a name away, if there is one. Where there is no memory, nothing has changed.
    pub(crate) fn remove(&mut self, alloc: Global, name: &Text) -> Result<(), Memory>
        ensures ok { OnOk result (AreKids self.old self.new name.now None) }
        ensures err { OnErr result (self.new ≡ self.old) }
    {
        let at = place(self.parts.as_slice(), name);
        let Some(part) = self.parts.get_mut(at) else {
            return Ok(());
        };
        let none_left = take_away(alloc, part, name)?;
        if none_left {
            self.parts.remove(at);
        }
        Ok(())
    }
}

impl Children {
    /// Puts an entry at a path that goes on from a name. Missing parents are made. Where there is no memory, nothing has changed.
    #[cycle(planting)]
    pub(crate) fn plant(
        &mut self,
        alloc: Global,
        name: &Text,
        rest: &[Text],
        parent: Meta,
        entry: Entry,
    ) -> Result<(), Memory>
        ensures ok { OnOk result (ArePlanted (joined self.old) (joined self.new) name.now rest.now parent entry) }
        ensures err { OnErr result (joined self.new ≡ joined self.old) }
    {
        let parts = self.parts.len();
        let at = place(self.parts.as_slice(), name);
        let Some(part) = self.parts.get_mut(at) else {
            let kid = Node::chain(alloc, rest, parent, entry)?;
            return self.insert(alloc, name, kid);
        };
        let names = Arc::make_mut(part)?;
        if let Some(kid) = names.get_mut(name) {
            return kid.plant(alloc, rest, parent, entry);
        }
        let kid = Node::chain(alloc, rest, parent, entry)?;
        if has_room(names, parts) {
            return names.put(alloc, name, kid);
        }
        self.insert(alloc, name, kid)
    }

    /// Takes away what stands at a path that goes on from a name, with all below it. Where there is no memory, nothing has changed.
    #[cycle(cutting)]
    pub(crate) fn cut(&mut self, alloc: Global, name: &Text, rest: &[Text]) -> Result<(), Memory>
        ensures ok { OnOk result (AreCut (joined self.old) (joined self.new) name.now rest.now) }
        ensures err { OnErr result (joined self.new ≡ joined self.old) }
    {
        if rest.is_empty() {
            return self.remove(alloc, name);
        }
        match self.own_mut(name) {
            Ok(kid) => kid.cut(alloc, rest),
            Err(Fault::Because(_)) => Ok(()),
            Err(Fault::Memory) => Err(Memory),
        }
    }

    /// Puts what is below a folder below the node at a path that goes on from a name, as [`Node::fill`] does.
    #[cycle(filling)]
    pub(crate) fn fill(
        &mut self,
        alloc: Global,
        name: &Text,
        rest: &[Text],
        folder: &LentNode<'_>,
    ) -> Result<(), Memory>
        ensures { OnOk result (AreFilled (joined self.old) (joined self.new) name.now rest.now folder.now.below) }
    {
        match self.own_mut(name) {
            Ok(kid) => kid.fill(alloc, rest, folder),
            Err(Fault::Because(_)) => Ok(()),
            Err(Fault::Memory) => Err(Memory),
        }
    }

    /// The same names, each with its node as a COPY places it.
    pub(crate) fn placed(&self, alloc: Global, options: &CopyOptions) -> Result<Children, Memory>
        ensures { IfOk result (λ kids. kids ≡ seen_kids options.now self.now) }
    {
        let parts = placed_parts(alloc, options, self.parts.as_slice())?;
        Ok(Children { parts })
    }

    /// Lays other children over these, and answers whether one of these is less deep than before. Where there is no memory, they are
    /// left half done.
    #[cycle(laying)]
    pub(crate) fn lay_over(&mut self, alloc: Global, upper: &LentKids<'_>) -> Result<bool, Memory>
        ensures { OnOk result (AreLaid self.old upper.now self.new) }
    {
        let mut is_less = false;
        let mut uppers = upper.iter();
        while let Some((name, kid)) = uppers.next() {
            match self.own_mut(name) {
                Ok(below) => {
                    if below.lay_over(alloc, &kid)? {
                        is_less = true;
                    }
                }
                Err(Fault::Because(_)) => self.insert(alloc, name, kid.copy(alloc)?)?,
                Err(Fault::Memory) => return Err(Memory),
            }
        }
        Ok(is_less)
    }
}
