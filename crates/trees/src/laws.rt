// Laws of trees, each the contract of a function that does nothing.

ghost use Rattle.std.specs.Prelude.{◌≡◌, ℕ, true, false, Some, None, Ok, Err, List, [], ◌∷◌, ◌++◌, if◌then◌else◌, ◌||◌};
ghost use Rattle.std.specs.Option.{option_or};
ghost use Rattle.std.specs.Ordering.{eq_by_cmp};
ghost use Rattle.std.specs.List.{AllByRecursion, list_any};
ghost use Rattle.std.specs.FinMap.{get};
ghost use Rattle.paths.specs.Order.{path_cmp};
ghost use Rattle.paths.specs.Path.{IsClean, is_at_or_under};
ghost use Rattle.trees.specs.declared.entry.Entry.{Entry};
ghost use Rattle.trees.specs.declared.entry.Entry.TheVariants.{Directory, File};
ghost use Rattle.trees.specs.declared.meta.Meta.{Meta};
ghost use Rattle.trees.specs.declared.copy.Change.{Change};
ghost use Rattle.trees.specs.declared.copy.Source.{Source};
ghost use Rattle.trees.specs.declared.copy.Source.TheVariants.{Found};
ghost use Rattle.trees.specs.declared.copy.CopyOptions.{CopyOptions};
ghost use Rattle.trees.specs.declared.cause.Cause.TheVariants.{F1};
ghost use Rattle.paths.specs.Fronts.{is_front};
ghost use Rattle.trees.specs.TreeMap.{TreeMap, IsTree, is_blocked, empty_tree, directory_meta};
ghost use Rattle.trees.specs.Cause.{tree_or};
ghost use Rattle.trees.specs.Put.{planted, put_into, cause_at, placed};
ghost use Rattle.trees.specs.Row.{Row};
ghost use Rattle.trees.specs.Builder.{Built, none_built, comes_next, with_row, IsBuiltOf};
ghost use Rattle.trees.specs.Make.{made};
ghost use Rattle.trees.specs.Remove.{removed};
ghost use Rattle.trees.specs.Subtree.{subtree};
ghost use Rattle.trees.specs.Over.{over, merged};
ghost use Rattle.trees.specs.Copy.{changed_tree, last_placed, needs_directory, copied, goes_into, placed_entry, parent_meta, first_cause, kind_placed, is_repeated, HasName, is_repeated_by};

/// Trees with the same entry at each path are the same tree.
pub fn trees_are_their_entries()
    ensures { (m n : TreeMap) → ((q : List (List ℕ)) → get m q ≡ get n q) → m ≡ n }
{}

/// The empty tree is a tree, and nothing but the root stands in it.
pub fn empty_is_a_tree()
    ensures tree { IsTree empty_tree }
    ensures at { (q : List (List ℕ)) → get empty_tree q ≡ (if eq_by_cmp path_cmp q [] then Some (Directory directory_meta) else None) }
{}

/// After a placement the entry stands at its path, else what stood there, else a directory on the way; and a tree stays a tree.
pub fn a_placement_keeps_the_rest()
    ensures at { (tree new : TreeMap) (path q : List (List ℕ)) (entry : Entry)
        → put_into tree path entry ≡ Ok new → get new q ≡ planted (get tree) path directory_meta entry q }
    ensures tree { (tree new : TreeMap) (path : List (List ℕ)) (entry : Entry)
        → IsTree tree → IsClean path → put_into tree path entry ≡ Ok new → IsTree new }
{}

/// In two trees laid over each other stands the upper's entry, else the lower's where no file of the upper is on the way; and
/// trees laid over each other are a tree.
pub fn the_upper_tree_wins()
    ensures at { (lower upper : TreeMap) (q : List (List ℕ))
        → get (over lower upper) q ≡ option_or (get upper q) (if is_blocked (get upper) q then None else get lower q) }
    ensures tree { (lower upper : TreeMap) → IsTree lower → IsTree upper → IsTree (over lower upper) }
    ensures merged { (trees : List TreeMap) → AllByRecursion IsTree trees → IsTree (merged trees) }
{}

/// At each path of a subtree stands what stands below its top in the whole tree; a subtree of a tree is a tree, and that of the
/// root is the whole tree. Where a file stands on the way to the top, there is none, since nothing stands there.
pub fn a_subtree_is_what_lies_below()
    ensures at { (tree below : TreeMap) (top q : List (List ℕ)) → subtree tree top ≡ Ok below → get below q ≡ get tree (top ++ q) }
    ensures tree { (tree below : TreeMap) (top : List (List ℕ)) → IsTree tree → subtree tree top ≡ Ok below → IsTree below }
    ensures root { (tree : TreeMap) → IsTree tree → subtree tree [] ≡ Ok tree }
    ensures blocked { (tree : TreeMap) (top : List (List ℕ)) → IsTree tree → is_blocked (get tree) top ≡ true → subtree tree top ≡ Err F1 }
{}

/// A merge as the first of a merge may be replaced by its own trees; in any other place it may not, since laying trees over each
/// other isn't associative. Over the empty tree, a tree is itself.
pub fn merges_are_flattened()
    ensures first { (tree : TreeMap) (trees more : List TreeMap) → merged (merged (tree ∷ trees) ∷ more) ≡ merged (tree ∷ trees ++ more) }
    ensures empty { (tree : TreeMap) → IsTree tree → over empty_tree tree ≡ tree }
{}

/// After a COPY stands at each path the last entry that it placed there; else what stood there; else a directory on the way. A tree
/// stays a tree. Of one file that doesn't go into a directory, it is one placement at the destination.
pub fn a_copy_is_a_flat_map()
    ensures at { (meta : Meta) (tree : TreeMap) (changes : List Change) (q : List (List ℕ))
        → get (changed_tree meta tree changes) q ≡ option_or (last_placed changes q) (option_or (get tree q) (if needs_directory changes q then Some (Directory meta) else None)) }
    ensures tree { (tree from new : TreeMap) (sources : List Source) (dest : List (List ℕ)) (options : CopyOptions)
        → IsTree tree → IsTree from → IsClean dest → AllByRecursion HasName sources → copied tree from sources dest options ≡ Ok new → IsTree new }
    ensures file { (tree from : TreeMap) (path dest : List (List ℕ)) (options : CopyOptions) (meta : Meta) (content : List ℕ)
        → IsClean dest → get from path ≡ Some (File meta content) → goes_into tree dest options ≡ false
        → copied tree from (Found (path ∷ []) ∷ []) dest options ≡ tree_or (cause_at (get tree) dest (placed_entry options (File meta content))) (placed (parent_meta options) tree dest (placed_entry options (File meta content))) }
{}

/// In the empty tree only the root stands before a COPY.
pub fn a_copy_into_the_empty_tree()
    ensures at { (options : CopyOptions) (changes : List Change) (q : List (List ℕ))
        → get (changed_tree (parent_meta options) empty_tree changes) q
        ≡ option_or (last_placed changes q) (if eq_by_cmp path_cmp q [] then Some (Directory directory_meta) else if needs_directory changes q then Some (Directory (parent_meta options)) else None) }
    ensures into { (dest : List (List ℕ)) (options : CopyOptions) → goes_into empty_tree dest options ≡ (options.into || eq_by_cmp path_cmp dest []) }
{}

/// After a directory was made it stands with its parents, and all that stood before stands as it did; a tree stays a tree. Where a
/// directory stands, nothing changes.
pub fn a_making_keeps_what_stands()
    ensures at { (tree new : TreeMap) (path q : List (List ℕ))
        → made tree path ≡ Ok new → get new q ≡ option_or (get tree q) (if is_front q path || eq_by_cmp path_cmp q path then Some (Directory directory_meta) else None) }
    ensures tree { (tree new : TreeMap) (path : List (List ℕ)) → IsTree tree → IsClean path → made tree path ≡ Ok new → IsTree new }
    ensures kept { (tree : TreeMap) (path : List (List ℕ)) (meta : Meta)
        → IsTree tree → get tree path ≡ Some (Directory meta) → made tree path ≡ Ok tree }
{}

/// Without a path and all below it, a tree has all else that stood in it, and is a tree.
pub fn a_removal_keeps_the_rest()
    ensures at { (tree new : TreeMap) (path q : List (List ℕ))
        → removed tree path ≡ Ok new → get new q ≡ (if is_at_or_under q path then None else get tree q) }
    ensures tree { (tree new : TreeMap) (path : List (List ℕ)) → IsTree tree → removed tree path ≡ Ok new → IsTree new }
{}

/// While none of the changes failed, an entry is placed twice exactly where it and some entry that a COPY placed there before aren't
/// both directories.
pub fn a_repeat_is_of_any_placement()
    ensures { (meta : Meta) (tree : TreeMap) (changes : List Change) (path : List (List ℕ)) (entry : Entry)
        → first_cause meta tree [] changes ≡ None → is_repeated (kind_placed changes path) entry ≡ list_any (is_repeated_by path entry) changes }
{}

/// What a `TreeBuilder` has is built of the rows that it added, each of which followed those before it: first of none, and then of each row
/// more. So their tree is that of their list, although of a list the last row is placed first.
pub fn rows_that_follow_build_their_tree()
    ensures none { IsBuiltOf [] none_built }
    ensures more { (rows : List Row) (row : Row) (built : Built)
        → IsBuiltOf rows built → comes_next built.last row ≡ true → IsBuiltOf (rows ++ row ∷ []) (with_row built row) }
{}
