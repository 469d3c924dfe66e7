// Laws of the definitions. The functions do nothing: what is proved of them, their contracts, are the laws.

ghost use Rattle.std.specs.Prelude.{◌≡◌, ◌↔◌, ℕ, false, List, Some, None};
ghost use Rattle.std.specs.List.{All};
ghost use Rattle.nearest.specs.Nearness.{is_near, nearest, IsFirstNearest};

/// A name is found exactly if it is one of the names, is near to the word, no near name takes fewer edits, and no near name before it takes as few.
pub fn what_is_found_is_nearest()
    ensures { (word : List ℕ) (names : List (List ℕ)) (name : List ℕ) → (nearest word names ≡ Some name) ↔ IsFirstNearest word names name }
{}

/// Nothing is found exactly if no name is near.
pub fn nothing_is_found_if_none_is_near()
    ensures { (word : List ℕ) (names : List (List ℕ)) → (nearest word names ≡ None) ↔ All (λ name. is_near word name ≡ false) names }
{}
