ghost use Rattle.std.specs.Prelude.{◌≡◌, ◌-◌, ◌<◌, ◌≤◌, ℕ, Bool, List, [], ◌∷◌, IfOk, IsTrue, MatchOption, length, take, drop};
ghost use Rattle.trees.specs.declared.entry.Entry.{Entry as EntryValue};
ghost use Rattle.std.specs.FinMap.{entries};
ghost use Rattle.trees.specs.Rows.{lent_names, entry_of};
ghost use Rattle.trees.specs.TreeMap.{IsTree};
ghost use Rattle.trees.specs.PrivateNode.{NodeValue, map_of};
ghost use Rattle.trees.specs.PrivateWalk.{IsOnWay, IsAtFolder, IsBare, AreBare, ArePassed, rows_of, left_below_root};

use crate::LentEntry;
use crate::kids::Kids;
use crate::lent_node::LentNode;
use crate::node::Node;
use plain::limits::MOST_COMPONENTS;
use plain::{Memory, Text};
use std::alloc::Global;
use std::marker::Model;
use std::mem;

/// The entries of a tree, one after another in path order, the root first. Entries and the names on the way to them are lent, and no path
/// is made.
///
/// A path has at most 64 names, and room for so many, and for the folders on the way, is taken as a walk begins. So it takes no memory from
/// then on, and nothing of it fails.
#[derive(Drop)]
pub struct Walk<'a> {
    /// The root's entry, until it is given.
    root: Option<LentEntry<'a>>,
    /// The children that are left of the folder that was entered last, or of the root. An entry with nothing below it isn't entered.
    kids: Kids<'a>,
    /// Those of each folder on the way to it, the root's first.
    above: Vec<Kids<'a>>,
    /// The names on the way to the entry that was given or passed last.
    names: Vec<&'a Text>,
    /// Whether it is known that nothing is below any of `kids`.
    are_bare: bool,
}

impl<'a> Model for Walk<'a> {
    ghost use Rattle.std.specs.Prelude.{◌++◌};
    ghost use Rattle.trees.specs.Rows.{lent_names};
    ghost use Rattle.trees.specs.Walk.{WalkValue, walk_code};
    ghost use Rattle.trees.specs.PrivateWalk.{IsOnWay, root_row, left_below_root};

    ghost Value = { WalkValue };

    ghost coded = { walk_code };

    ghost view = { λ w. record { at = lent_names w.names.items; left = root_row (lent_names w.names.items) w.root ++ left_below_root w.names w.above w.kids } };

    ghost invariant = { λ w. IsOnWay w.names w.above w.kids w.are_bare };
}

impl<'a> Walk<'a> {
    /// A walk through the tree of this root.
    pub(crate) fn of(alloc: Global, root: &'a Node) -> Result<Walk<'a>, Memory>
        requires { IsTree (map_of root.now) }
        ensures { IfOk result (λ walk. walk.left ≡ entries (map_of root.now)) }
    {
        let above = Vec::with_capacity(alloc, MOST_COMPONENTS)?;
        let names = Vec::with_capacity(alloc, MOST_COMPONENTS)?;
        let root = root.lent();
        Ok(Walk {
            root: Some(root.entry()),
            kids: root.kids(),
            above,
            names,
            are_bare: has_bare_kids(&root),
        })
    }

    /// The names of the path of the entry that was given or passed last, from the root down. The root's path has none.
    pub fn names(&self) -> &[&'a Text]
        ensures { lent_names result.now ≡ self.now.at }
    {
        self.names.as_slice()
    }

    /// The next entry, if one is left. All names on the way to it but its last are on the way to the one before, at the same places.
    pub fn next(&mut self) -> Option<LentEntry<'a>>
        ensures next { MatchOption result ((self.old.left ≡ []) × (self.new.left ≡ [])) (λ entry. self.old.left ≡ (self.new.at, entry_of entry) ∷ self.new.left) }
        ensures keeps { take (length self.new.at - 1) self.new.at ≡ take (length self.new.at - 1) self.old.at }
    {
        match self.root.take() {
            Some(entry) => Some(entry),
            None => match step(
                &mut self.names,
                &mut self.above,
                &mut self.kids,
                &mut self.are_bare,
            ) {
                Some(node) => Some(node.entry()),
                None => None,
            },
        }
    }

    /// Goes past the next entries, so many at most, and tells how many these are: at least one, if one is left and `most` isn't 0. It looks at few
    /// of them, since `next` has to fetch each from memory.
    pub fn pass_up_to(&mut self, most: usize) -> usize
        ensures few { result ≤ most }
        ensures left { self.new.left ≡ drop result self.old.left }
        ensures inside { result ≤ length self.old.left }
        ensures last { 0 < result → (entry : EntryValue) × (drop (result - 1) self.old.left ≡ (self.new.at, entry) ∷ self.new.left) }
        ensures end { result ≡ 0 → 0 < most → self.old.left ≡ [] }
        ensures keeps { take (length self.new.at - 1) self.new.at ≡ take (length self.new.at - 1) self.old.at }
    {
        if most == 0 {
            return 0;
        }
        match self.root.take() {
            Some(_) => 1,
            None => step_up_to(
                &mut self.names,
                &mut self.above,
                &mut self.kids,
                &mut self.are_bare,
                most,
            ),
        }
    }
}

/// The next node below the root. The names are those of its path then.
fn step<'a>(
    names: &mut Vec<&'a Text>,
    above: &mut Vec<Kids<'a>>,
    kids: &mut Kids<'a>,
    are_bare: &mut bool,
) -> Option<LentNode<'a>>
    requires { IsOnWay names.old above.old kids.old are_bare.old }
    ensures way { IsOnWay names.new above.new kids.new are_bare.new }
    ensures next { MatchOption result
        ((left_below_root names.old above.old kids.old ≡ []) × (left_below_root names.new above.new kids.new ≡ []))
        (λ node. left_below_root names.old above.old kids.old ≡ (lent_names names.new.items, node.top) ∷ left_below_root names.new above.new kids.new) }
    ensures keeps { take (length names.new.items - 1) (lent_names names.new.items) ≡ take (length names.new.items - 1) (lent_names names.old.items) }
{
    leave_bare(names, above);
    loop {
        if let Some((name, kid)) = kids.next() {
            names.push(name).unwrap();
            if !is_bare(&kid, *are_bare) {
                let left = mem::replace(kids, kid.kids());
                above.push(left).unwrap();
                *are_bare = has_bare_kids(&kid);
            }
            return Some(kid);
        }
        let Some(left) = above.pop() else {
            return None;
        };
        *kids = left;
        *are_bare = false;
        names.pop();
    }
}

/// Goes past the next nodes below the root, so many at most, and tells how many these are. The names are those of the last one's path then.
fn step_up_to<'a>(
    names: &mut Vec<&'a Text>,
    above: &mut Vec<Kids<'a>>,
    kids: &mut Kids<'a>,
    are_bare: &mut bool,
    most: usize,
) -> usize
    requires way { IsOnWay names.old above.old kids.old are_bare.old }
    requires some { 0 < most }
    ensures way { IsOnWay names.new above.new kids.new are_bare.new }
    ensures passed { 0 < result → ArePassed most (left_below_root names.old above.old kids.old) (left_below_root names.new above.new kids.new) (lent_names names.new.items) result }
    ensures end { result ≡ 0 → (left_below_root names.old above.old kids.old ≡ []) × (left_below_root names.new above.new kids.new ≡ []) }
    ensures keeps { take (length names.new.items - 1) (lent_names names.new.items) ≡ take (length names.new.items - 1) (lent_names names.old.items) }
{
    let Some((name, passed)) = pass_bare(kids, *are_bare, most) else {
        return match step(names, above, kids, are_bare) {
            Some(_) => 1,
            None => 0,
        };
    };
    leave_bare(names, above);
    names.push(name).unwrap();
    passed
}

/// Takes away the name of the entry that was given last, if nothing is below it: then no folder was entered for it.
fn leave_bare<'a>(names: &mut Vec<&'a Text>, above: &Vec<Kids<'a>>)
    ensures { (kids : List (List ℕ × NodeValue)) (are_bare : Bool) → IsOnWay names.old above.now kids are_bare → IsAtFolder names.old names.new above.now kids are_bare }
{
    if names.len() > above.len() {
        names.pop();
    }
}

/// Goes past the next of these children, as `Kids::pass_up_to` does, if it is known that nothing is below any of them.
fn pass_bare<'a>(kids: &mut Kids<'a>, is_known: bool, most: usize) -> Option<(&'a Text, usize)>
    ensures { MatchOption result (kids.new ≡ kids.old) (λ last. IsTrue is_known × ArePassed most kids.old kids.new last.0.now last.1) }
{
    if !is_known {
        return None;
    }
    kids.pass_up_to(most)
}

/// Whether nothing is below a node. Where that is known, the node isn't looked at: to fetch it from memory costs more than all else that a
/// walk does to go past it.
fn is_bare(node: &LentNode<'_>, is_known: bool) -> bool
    requires { IsTrue is_known → IsBare node.now }
    ensures { IsTrue result → IsBare node.now }
{
    is_known || node.is_bare()
}

/// Whether it is known that nothing is below any child of a node.
fn has_bare_kids(node: &LentNode<'_>) -> bool
    ensures { IsTrue result → (kids : List (List ℕ × NodeValue)) → entries (map_of node.now) ≡ ([], node.now.top) ∷ rows_of kids → AreBare kids }
{
    node.depth() <= 1
}
