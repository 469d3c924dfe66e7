// Laws of paths, claimed: each function's contract is one law, and its body is empty.
ghost use Rattle.std.specs.Prelude.{◌≡◌, ◌↔◌, ◌⊎◌, ℕ, true, false, Some, None, List, [], ◌∷◌, ◌++◌, if◌then◌else◌, codes};
ghost use Rattle.std.specs.declared.cmp.Ordering.TheVariants.{Less};
ghost use Rattle.std.specs.List.{list_all, list_any, join_with_byte};
ghost use Rattle.std.specs.Ordering.{eq_by_cmp};
ghost use Rattle.std.specs.FinMap.{IsAntisymmetric};
ghost use Rattle.std.specs.Cmp.{IsTotalOrder};
ghost use Rattle.paths.specs.Path.{IsClean, is_whole, parent_of, is_at_or_under, text_of};
ghost use Rattle.paths.specs.Order.{path_cmp};
ghost use Rattle.paths.specs.Fronts.{is_front, fronts};
ghost use Rattle.paths.specs.Reading.{IsCleaning, cleaned, pieces, is_absolute, read_from, limit_of};

/// The text of a path reads back to the path, whatever the base.
pub fn text_reads_back()
    ensures { (p base : List (List ℕ)) → IsClean p
        → (read_from (text_of p) base ≡ p) × (limit_of p ≡ None) }
{}

/// What is read within the limits is a clean path.
pub fn reading_is_clean()
    ensures { (text : List ℕ) (base : List (List ℕ)) → IsClean base
        → limit_of (read_from text base) ≡ None → IsClean (read_from text base) }
{}

/// Reading gives the clean form of the base's components and the text's pieces behind them; of the text's
/// pieces alone where the text is absolute.
pub fn reading_gives_the_clean_form()
    ensures { (text : List ℕ) (base : List (List ℕ)) → IsClean base
        → read_from text base ≡ cleaned (if is_absolute text then pieces text else base ++ pieces text) }
{}

/// What the clean form of a list of pieces is, said with no order of reading: an idle piece may be dropped wherever
/// it stands, a name and the `..` behind it cancel, a `..` in front of all leads nowhere, and names stay.
/// No other function does so.
pub fn clean_form_is_unique()
    ensures clean { IsCleaning cleaned }
    ensures only { (f : List (List ℕ) → List (List ℕ)) → IsCleaning f
        → (ps : List (List ℕ)) → f ps ≡ cleaned ps }
{}

/// The pieces of a text are the one list of texts without a `/` that gives it, joined by `/`.
pub fn pieces_are_unique()
    ensures joined { (text : List ℕ) → join_with_byte 47 (pieces text) ≡ text }
    ensures whole { (text : List ℕ) → list_all is_whole (pieces text) ≡ true }
    ensures only { (piece : List ℕ) (ps : List (List ℕ)) → list_all is_whole (piece ∷ ps) ≡ true
        → pieces (join_with_byte 47 (piece ∷ ps)) ≡ piece ∷ ps }
{}

/// A text may be cut at a slash: reading it is reading its front, and then what is behind the slash from there. The
/// front isn't empty, and what is behind the slash doesn't begin with another one.
pub fn reading_may_be_cut()
    ensures { (b : ℕ) (front rest : List ℕ) (base : List (List ℕ)) → is_absolute rest ≡ false
        → read_from (b ∷ front ++ 47 ∷ rest) base ≡ read_from rest (read_from (b ∷ front) base) }
{}

/// `..` leads from a path to the directory that it stands in, and from the root to the root.
pub fn up_leads_to_the_parent()
    ensures child { (p : List (List ℕ)) (name : List ℕ) → read_from (codes "..") (p ++ name ∷ []) ≡ p }
    ensures root { read_from (codes "..") [] ≡ [] }
    ensures parent { (p : List (List ℕ)) (name : List ℕ) → parent_of (p ++ name ∷ []) ≡ Some p }
{}

/// A path is at or under another exactly where that one's components are its first ones.
pub fn under_is_a_front()
    ensures { (p top : List (List ℕ))
        → (is_at_or_under p top ≡ true) ↔ ((rest : List (List ℕ)) × (p ≡ top ++ rest)) }
{}

/// The proper fronts of a path are what it goes on from: each with a name behind it, and then with any others.
pub fn fronts_go_on()
    ensures front { (front path : List (List ℕ))
        → (is_front front path ≡ true) ↔ ((name : List ℕ) × ((rest : List (List ℕ)) × (path ≡ front ++ name ∷ rest))) }
    ensures under { (p top : List (List ℕ))
        → (is_at_or_under p top ≡ true) ↔ ((p ≡ top) ⊎ (is_front top p ≡ true)) }
    ensures fronts { (front path : List (List ℕ)) → list_any (eq_by_cmp path_cmp front) (fronts path) ≡ is_front front path }
{}

/// The order of paths is total, tells any two paths apart, and puts a directory before all that lies below it.
pub fn order_is_total()
    ensures total { IsTotalOrder path_cmp }
    ensures exact { IsAntisymmetric path_cmp }
    ensures below { (p : List (List ℕ)) (name : List ℕ) (rest : List (List ℕ))
        → path_cmp p (p ++ name ∷ rest) ≡ Less }
{}
