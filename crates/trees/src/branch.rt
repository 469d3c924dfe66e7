ghost use Rattle.std.specs.Prelude.{◌≡◌, ℕ, Some, List, [], ◌∷◌, MatchOption, option_and_then};
ghost use Rattle.std.specs.FinMap.{get};
ghost use Rattle.trees.specs.Rows.{entry_of};
ghost use Rattle.trees.specs.Branch.{AreChildren, AreChildrenFrom};
ghost use Rattle.trees.specs.PrivateNode.{map_of};

use crate::LentEntry;
use crate::kids::Kids;
use crate::lent_node::LentNode;
use plain::Text;
use std::marker::Model;

/// What stands at a path of a tree, with all that lies below it, lent: a whole tree, or a child of another branch. Contracts see the map of
/// the paths from there.
///
/// A branch doesn't know its own path. It is for who goes down a tree by names: a step costs a look-up in one folder, and one who wants
/// only some of a folder's names goes through these alone and not through what lies below the others.
#[derive(Drop)]
pub struct Branch<'a> {
    node: LentNode<'a>,
}

impl<'a> Model for Branch<'a> {
    ghost use Rattle.trees.specs.TreeMap.{TreeMap};
    ghost use Rattle.trees.specs.PrivateNode.{tree_code, map_of};

    ghost Value = { TreeMap };

    ghost coded = { tree_code };

    ghost view = { λ b. map_of b.node };
}

impl<'a> Branch<'a> {
    /// A node, as a branch.
    pub(crate) fn of(node: LentNode<'a>) -> Branch<'a>
        ensures { result ≡ map_of node.entry }
    {
        Branch { node }
    }

    /// The entry itself.
    pub fn entry(&self) -> LentEntry<'a>
        ensures { get self.now [] ≡ Some (entry_of result) }
    {
        self.node.entry()
    }

    /// What stands right below under a name, if anything does. It takes no memory.
    pub fn child(&self, name: &Text) -> Option<Branch<'a>>
        ensures { (rest : List (List ℕ)) → get self.now (name.now ∷ rest) ≡ option_and_then (λ child. get child rest) result }
    {
        match self.node.child(name) {
            Some(child) => Some(Branch::of(child)),
            None => None,
        }
    }

    /// All that stands right below, in the order of the names. It takes no memory.
    pub fn children(&self) -> Branches<'a>
        ensures { AreChildren self.now result }
    {
        Branches {
            kids: self.node.kids(),
        }
    }

    /// What stands right below under names that don't come before a text, in the order of the names. It takes no memory, and costs a
    /// search for the first of them, and no walk through the others. So one who wants the names that begin with the text goes through
    /// these alone: they come first.
    pub fn children_from(&self, front: &Text) -> Branches<'a>
        ensures { AreChildrenFrom self.now front.now result }
    {
        Branches {
            kids: self.node.kids_from(front),
        }
    }
}

/// The children of a branch that are left to be gone through, with their names, in the order of these.
#[derive(Drop)]
pub struct Branches<'a> {
    kids: Kids<'a>,
}

impl<'a> Model for Branches<'a> {
    ghost use Rattle.std.specs.Prelude.{List, ℕ};
    ghost use Rattle.std.specs.Coded.{coded_list, coded×, coded_ℕ};
    ghost use Rattle.trees.specs.TreeMap.{TreeMap};
    ghost use Rattle.trees.specs.PrivateNode.{tree_code, kid_maps};

    ghost Value = { List (List ℕ × TreeMap) };

    ghost coded = { coded_list (coded× (coded_list coded_ℕ) tree_code) };

    ghost view = { λ b. kid_maps b.kids };
}

impl<'a> Branches<'a> {
    /// The next child with its name, if one is left.
    pub fn next(&mut self) -> Option<(&'a Text, Branch<'a>)>
        ensures { MatchOption result ((self.old ≡ []) × (self.new ≡ [])) (λ child. self.old ≡ (child.0.now, child.1) ∷ self.new) }
    {
        match self.kids.next() {
            Some((name, kid)) => Some((name, Branch::of(kid))),
            None => None,
        }
    }
}
