// The children of a folder as they are seen from where it hangs.
ghost use Rattle.std.specs.Prelude.{◌≡◌, ◌↔◌, ◌++◌, ◌∷◌, List, ℕ, [], true, false, drop, is_some, IsTrue, IfOk, OnOk};
ghost use Rattle.std.specs.List.Sorted.{IsStrictlySortedBy};
ghost use Rattle.std.specs.Map.{keys_of, lookup};
ghost use Rattle.std.specs.BTreeMap.{is_at};
ghost use Rattle.std.specs.FinMap.{get, entries};
ghost use Rattle.paths.specs.Path.{IsClean};
ghost use Rattle.paths.specs.Order.{name_cmp};
ghost use Rattle.trees.specs.Branch.{from_name};
ghost use Rattle.trees.specs.Rows.{lent_rows};
ghost use Rattle.trees.specs.Copy.{placements};
ghost use Rattle.trees.specs.PrivateNode.{joined, IsDeeper, AreLaid, rows_under};
ghost use Rattle.trees.specs.PrivateSeen.{seen_kids};
ghost use Rattle.trees.specs.PrivateCopy.{MeetInDirectories};

use crate::children::Children;
use crate::copy::Change;
use crate::kids::Kids;
use crate::lent_node::LentNode;
use crate::{CopyOptions, LentEntry};
use paths::{LongPath, Path};
use plain::{Exact, Memory, Text};
use std::alloc::Global;
use std::marker::Model;

/// The children of a folder, lent, and what COPYs put on them and on all that is below them.
#[derive(Drop)]
pub(crate) struct LentKids<'a> {
    kids: &'a Children,
    options: CopyOptions,
}

impl<'a> Model for LentKids<'a> {
    ghost use Rattle.std.specs.Prelude.{◌≡◌, true, ℕ, List};
    ghost use Rattle.trees.specs.PrivateNode.{NodeValue, kids_code};
    ghost use Rattle.trees.specs.PrivateSeen.{seen_kids};

    ghost Value = { List (List ℕ × NodeValue) };

    ghost coded = { kids_code };

    ghost view = { λ k. seen_kids k.options k.kids.now };
}

impl<'a> LentKids<'a> {
    /// These children, with the mode and the owner that these options put on them and on all below them.
    pub(crate) fn of(kids: &'a Children, options: CopyOptions) -> LentKids<'a>
        ensures { result ≡ seen_kids options kids.now }
    {
        LentKids { kids, options }
    }

    /// The child of a name.
    pub(crate) fn get(&self, name: &Text) -> Option<LentNode<'a>>
        ensures { result ≡ lookup (is_at (name_cmp name.now)) self.now }
    {
        let kids = self.kids;
        match kids.get(name) {
            Some(kid) => Some(LentNode::of(kid, self.options)),
            None => None,
        }
    }

    /// All children, in the order of their names.
    pub(crate) fn iter(&self) -> Kids<'a>
        ensures all { result ≡ self.now }
        ensures ordered { IsStrictlySortedBy name_cmp (keys_of self.now) }
    {
        let kids = self.kids;
        kids.iter(self.options)
    }

    /// The children whose names don't come before a text, in the order of their names. It costs no walk through those that do.
    pub(crate) fn iter_from(&self, front: &Text) -> Kids<'a>
        ensures from { result ≡ from_name front.now self.now }
        ensures ordered { IsStrictlySortedBy name_cmp (keys_of self.now) }
    {
        let kids = self.kids;
        kids.iter_from(front, self.options)
    }

    /// Whether there are none.
    pub(crate) fn is_none(&self) -> bool
        ensures { IsTrue result ↔ (self.now ≡ []) }
    {
        self.kids.is_none()
    }

    /// Whether nothing of these is left once others are laid over them, as far as is seen at once: the others begin with the same names,
    /// and each of their nodes hides the one of its name.
    pub(crate) fn is_hidden_by(&self, upper: &LentKids<'_>) -> bool
        ensures { IsTrue result → AreLaid self.now upper.now upper.now }
    {
        let mut kids = self.iter();
        let mut uppers = upper.iter();
        while let Some((name, kid)) = kids.next() {
            match uppers.next() {
                Some((upper_name, upper_kid)) => {
                    if !name.same(upper_name) {
                        return false;
                    }
                    if !upper_kid.hides(&kid) {
                        return false;
                    }
                }
                None => return false,
            }
        }
        true
    }

    /// Whether the two stand for the same map.
    #[cycle(comparing)]
    pub(crate) fn same(&self, other: &LentKids<'_>) -> bool
        ensures { IsTrue result ↔ (joined self.now ≡ joined other.now) }
    {
        let mut kids = self.iter();
        let mut others = other.iter();
        while let Some((name, kid)) = kids.next() {
            match others.next() {
                Some((other_name, other_kid)) => {
                    if !name.same(other_name) {
                        return false;
                    }
                    if !kid.same(&other_kid) {
                        return false;
                    }
                }
                None => return false,
            }
        }
        others.next().is_none()
    }

    /// Whether a path of these children or below them has more names than so many.
    #[cycle(sounding)]
    pub(crate) fn is_deeper(&self, most: usize) -> bool
        ensures { IsTrue result → IsDeeper most (joined self.now) }
    {
        let mut kids = self.iter();
        while let Some((name, kid)) = kids.next() {
            if most == 0 {
                return true;
            }
            if kid.is_deeper(most - 1) {
                return true;
            }
        }
        false
    }

    /// Whether something stands at one path in or below both, unless it is a directory in both.
    #[cycle(meeting)]
    pub(crate) fn meets(&self, other: &LentKids<'_>) -> bool
        ensures { result ≡ false → MeetInDirectories (joined self.now) (joined other.now) }
    {
        // The first folder of a COPY meets nothing, and may have many names.
        if self.is_none() {
            return false;
        }
        let mut others = other.iter();
        while let Some((name, kid)) = others.next() {
            if let Some(own) = self.get(name) {
                if !own.is_directory() || !kid.is_directory() || own.meets(&kid) {
                    return true;
                }
            }
        }
        false
    }

    /// Adds a row for each entry of these children and below them, in path order, their folder's path being `at`.
    #[cycle(listing)]
    pub(crate) fn push_rows(
        &self,
        alloc: Global,
        at: &Path,
        rows: &mut Vec<(Path, LentEntry<'a>)>,
    ) -> Result<(), Memory>
        requires { (q : List (List ℕ)) → is_some (get (joined self.now) q) ≡ true → IsClean (at.now ++ q) }
        ensures { OnOk result (lent_rows rows.new.items ≡ lent_rows rows.old.items ++ rows_under at.now (entries (joined self.now))) }
    {
        let mut kids = self.iter();
        while let Some((name, kid)) = kids.next() {
            let below = at.child(alloc, name)?;
            kid.push_rows(alloc, &below, rows)?;
        }
        Ok(())
    }

    /// Adds a change for each entry of these children and below them, in path order: it is placed below `at`, at its path from
    /// their folder.
    #[cycle(changing)]
    pub(crate) fn push_changes(
        &self,
        alloc: Global,
        options: &CopyOptions,
        at: &LongPath,
        changes: &mut Vec<Change>,
    ) -> Result<(), Memory>
        requires { (q : List (List ℕ)) → is_some (get (joined self.now) q) ≡ true → IsClean q }
        ensures { OnOk result (changes.new.items ≡ changes.old.items ++ placements options.now at.now (entries (joined self.now))) }
    {
        let mut kids = self.iter();
        while let Some((name, kid)) = kids.next() {
            let below = at.child(alloc, name)?;
            let entry = kid.placed(options).entry().to_entry(alloc)?;
            changes.push(Change::Place(below.copy(alloc)?, entry))?;
            kid.push_changes(alloc, options, &below, changes)?;
        }
        Ok(())
    }
}
