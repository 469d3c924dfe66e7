// Laws of lists of entries, claimed: each function's contract is one law, and its body is empty.
ghost use Rattle.std.specs.Prelude.{◌≡◌, ◌<◌, ℕ, true, Some, List, is_some};
ghost use Rattle.paths.specs.Fronts.{is_front};
ghost use Rattle.std.specs.FinMap.{get};
ghost use Rattle.trees.specs.declared.entry.Entry.{Entry};
ghost use Rattle.trees.specs.Row.{Row, Has};
ghost use Rattle.entries.specs.Listing.{is_listing};
ghost use Rattle.trees.specs.Whole.{tree_of, StandsAt};
ghost use Rattle.entries.specs.Reading.{mode_of};
ghost use Rattle.entries.specs.Written.{mode_text};

/// The tree of a list has each row of the list, and something on the way to each; at no path stands anything but what a row says, or a
/// made directory at the root or on the way to a row.
pub fn the_tree_has_the_rows()
    ensures rows { (rows : List Row) (row : Row) → is_listing rows ≡ true → Has rows row → get (tree_of rows) row.0 ≡ Some row.1 }
    ensures ways { (rows : List Row) (row : Row) (path : List (List ℕ)) → is_front path row.0 ≡ true → Has rows row → is_some (get (tree_of rows) path) ≡ true }
    ensures only { (rows : List Row) (path : List (List ℕ)) (entry : Entry) → get (tree_of rows) path ≡ Some entry → StandsAt rows path entry }
{}

/// The text of a mode reads back to the mode.
pub fn a_mode_reads_back()
    ensures { (mode : ℕ) → mode < 4096 → mode_of (mode_text mode) ≡ Some mode }
{}
