// Laws of contexts, claimed: each function's contract is one law, and its body is empty.
ghost use Rattle.std.specs.Prelude.{◌≡◌, ◌↔◌, ℕ, true, false, List, map, is_some};
ghost use Rattle.std.specs.FinMap.{get};
ghost use Rattle.trees.specs.TreeMap.{TreeMap};
ghost use Rattle.ignorefile.specs.declared.line.Line.{Line};
ghost use Rattle.trees.specs.Row.{Row, Has};
ghost use Rattle.contexts.specs.Context.{IsListing, IsContext};
ghost use Rattle.contexts.specs.Left.{AreLeftOut, is_covered};

/// A folder's entries and an ignore file have one context at most.
pub fn a_listing_has_one_context()
    ensures { (rows : List Row) (lines : List Line) (tree other : TreeMap) → IsListing rows → IsContext rows lines tree → IsContext rows lines other → tree ≡ other }
{}

/// They have one: whatever the rows and the lines are, there is a tree that is the context.
pub fn a_listing_has_a_context()
    ensures { (rows : List Row) (lines : List Line) → IsListing rows → (tree : TreeMap) × IsContext rows lines tree }
{}

/// A path of the list is in the context if it is none of those that are left out and lies below none, and else it isn't.
pub fn what_is_left_out()
    ensures { (rows : List Row) (lines : List Line) (tree : TreeMap) (left : List (List (List ℕ))) → IsContext rows lines tree
        → AreLeftOut tree (map (λ row. row.0) rows) left → (row : Row) → Has rows row → (is_some (get tree row.0) ≡ true) ↔ (is_covered left row.0 ≡ false) }
{}
