// Laws of the model, each the contract of a function that does nothing, or only calls a law of a crate below.

ghost use Rattle.std.specs.Prelude.{◌≡◌, ℕ, true, false, Option, Some, None, Ok, List, [], ◌∷◌, length, map, slice_get, slice_index_or};
ghost use Rattle.std.specs.FinMap.{get};
ghost use Rattle.std.specs.List.{AllByRecursion, list_any};
ghost use Rattle.paths.specs.Path.{IsClean, is_at_or_under};
ghost use Rattle.trees.specs.TreeMap.{TreeMap, IsTree};
ghost use Rattle.trees.specs.Make.{made};
ghost use Rattle.trees.specs.Over.{merged};
ghost use Rattle.llb.specs.declared.op.CopyFiles.{CopyFiles};
ghost use Rattle.llb.specs.declared.op.Op.{Op};
ghost use Rattle.llb.specs.declared.vertex.Vertex.{Vertex};
ghost use Rattle.llb.specs.Graph.{GraphValue, AreVertices};
ghost use Rattle.llb.specs.WellFormed.{is_well_formed_copy};
ghost use Rattle.plans.specs.Sources.{SourcesValue};
ghost use Rattle.plans.specs.Value.{Out, World, value_of, copied_files, result_of};
ghost use Rattle.llbmessages.specs.declared.definition.Definition.{Definition};
ghost use Rattle.exported.specs.declared.making.Options.{Options};
ghost use Rattle.exported.specs.Places.{inputs_of};
ghost use Rattle.exported.specs.Exporting.{all_placed, nothing};
ghost use Rattle.exported.specs.Files.{make_dir_actions, copied};
ghost use Rattle.exported.specs.Chains.{chain_of};
ghost use Rattle.exported.specs.Following.{is_context, paths_of};
ghost use Rattle.fileactions.specs.Copies.{Finder};
ghost use Rattle.fileactions.specs.Actions.{operation_by};
ghost use Rattle.fileactions.specs.Claims.{place_tree, FindsAlike, HasName, IsSettable, AreAlike};
ghost use Rattle.fileactions.specs.Engine.{AreMade, FindsAll, AreNamedOps, GivesTrees};
ghost use Rattle.fileactions.specs.Followed.{Reads};

/// Where a COPY has a tree, its operation gives this tree, if BuildKit finds what the patterns relate to.
pub fn a_copy_gives_its_tree()
    ensures { (finder : Finder) (trees : List ℕ → TreeMap) (files : CopyFiles) (places : List (Option (List ℕ))) (base from new : TreeMap)
        → base ≡ place_tree trees (slice_index_or places 0 None) → from ≡ place_tree trees (slice_index_or places 1 None) → IsTree base → IsTree from
        → IsClean files.dest → is_well_formed_copy files ≡ true → AllByRecursion HasName files.sources → IsSettable files.options
        → AllByRecursion (λ source. FindsAlike finder from source) files.sources
        → copied_files files base from ≡ Ok new → operation_by finder (map trees (inputs_of places)) (copied files places) ≡ Some new }
{
    globs::laws::a_text_relates_by_grammar_and_cuts();
}

/// Where making a folder has a tree, its operation gives this tree.
pub fn a_made_folder_gives_its_tree()
    ensures { (finder : Finder) (trees : List ℕ → TreeMap) (path : List (List ℕ)) (places : List (Option (List ℕ))) (tree new : TreeMap)
        → tree ≡ place_tree trees (slice_index_or places 0 None) → IsClean path
        → made tree path ≡ Ok new → operation_by finder (map trees (inputs_of places)) (make_dir_actions places path) ≡ Some new }
{}

/// Where a chain of copies of whole trees gives a tree, it is their merge, but for the mode and the owner of the root: those stay as the first tree has
/// them.
pub fn a_chain_of_copies_is_a_merge()
    ensures { (finder : Finder) (trees : List ℕ → TreeMap) (first second : List ℕ) (digests : List (List ℕ)) (new : TreeMap)
        → AllByRecursion (λ digest. IsTree (trees digest)) (first ∷ second ∷ digests)
        → operation_by finder (map trees (first ∷ second ∷ digests)) (chain_of (first ∷ second ∷ digests)) ≡ Some new
        → AreAlike new (merged (map trees (first ∷ second ∷ digests))) × (get new [] ≡ get (trees first) []) }
{}

/// Where a vertex of a plan has a tree, an engine has this tree at the vertex's place in the plan's definition: one that does with files what the
/// model does, and that gives what the plan has for sources, commands and merges. Of a vertex that fails nothing is said.
pub fn a_plan_gives_its_trees()
    ensures { (finder : Finder) (world : World) (trees : List ℕ → TreeMap) (options : Options) (names : List (Option (List ℕ))) (graph : GraphValue)
        (places : List (Option (List ℕ))) (definition : Definition)
        → all_placed options names graph.places [] nothing graph.vertices ≡ Ok (places, definition)
        → AreVertices graph.vertices → AreNamedOps graph.vertices → GivesTrees world
        → AreMade finder world trees graph.vertices places → FindsAll finder trees graph.vertices places
        → (k : ℕ) (tree : TreeMap) → value_of world.out world.sources graph.vertices k ≡ Some (Ok tree)
        → place_tree trees (slice_index_or places k None) ≡ tree }
{
    globs::laws::a_text_relates_by_grammar_and_cuts();
}

/// An operation gives the same on trees that are alike at each path at which it may look.
pub fn what_is_not_read_changes_nothing()
    ensures { (out : Out) (sources : SourcesValue) (op : Op) (ones others : List TreeMap) → length ones ≡ length others
        → ((number : ℕ) (one other : TreeMap) (path : List (List ℕ)) → slice_get ones number ≡ Some one → slice_get others number ≡ Some other
        → Reads op number path → get one path ≡ get other path)
        → result_of out sources op ones ≡ result_of out sources op others }
{}

/// What an operation of a graph may look at of the files that a build is given is one of the paths that BuildKit is told of, or lies below one. So is
/// each path, if those files are the result.
pub fn what_is_read_is_followed()
    ensures read { (graph : GraphValue) (wanted k number id : ℕ) (vertex : Vertex) (path : List (List ℕ)) → slice_get graph.vertices k ≡ Some vertex
        → slice_get vertex.inputs number ≡ Some id → is_context graph.vertices id ≡ true → Reads vertex.op number path
        → list_any (λ top. is_at_or_under path top) (paths_of graph wanted) ≡ true }
    ensures resulting { (graph : GraphValue) (wanted : ℕ) (path : List (List ℕ)) → is_context graph.vertices wanted ≡ true
        → list_any (λ top. is_at_or_under path top) (paths_of graph wanted) ≡ true }
{
    globs::laws::a_text_relates_by_grammar_and_cuts();
}

/// Files that are alike at and below the paths that BuildKit is told of are as good as each other: of a graph, each vertex but these files has the same
/// value on both, a tree or the cause of a failure, and so has the result.
pub fn what_is_not_followed_changes_nothing()
    ensures each { (graph : GraphValue) (wanted : ℕ) (out : Out) (ones others : SourcesValue) → AreVertices graph.vertices → ones.images ≡ others.images
        → ((path : List (List ℕ)) → list_any (λ top. is_at_or_under path top) (paths_of graph wanted) ≡ true → get ones.context path ≡ get others.context path)
        → (k : ℕ) → is_context graph.vertices k ≡ false → value_of out ones graph.vertices k ≡ value_of out others graph.vertices k }
    ensures resulting { (graph : GraphValue) (wanted : ℕ) (out : Out) (ones others : SourcesValue) → AreVertices graph.vertices → ones.images ≡ others.images
        → ((path : List (List ℕ)) → list_any (λ top. is_at_or_under path top) (paths_of graph wanted) ≡ true → get ones.context path ≡ get others.context path)
        → value_of out ones graph.vertices wanted ≡ value_of out others graph.vertices wanted }
{
    globs::laws::a_text_relates_by_grammar_and_cuts();
}
