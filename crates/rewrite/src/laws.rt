// The laws of pruned and of flattened plans, claimed: each function's contract is one law, and its body is empty.
ghost use Rattle.std.specs.Prelude.{◌≡◌, ◌≤◌, ℕ, Some, None, Ok, Err};
ghost use Rattle.trees.specs.TreeMap.{TreeMap};
ghost use Rattle.trees.specs.declared.cause.Cause.{Cause};
ghost use Rattle.llb.specs.Graph.{IsGraph};
ghost use Rattle.llb.specs.Places.{least_line};
ghost use Rattle.plans.specs.Plan.{PlanValue, IsPlan, NeedsAll, HasLinesInOrder, problem_of, IsValue};
ghost use Rattle.plans.specs.Value.{Out};
ghost use Rattle.lowering.specs.Meaning.{Rows, tree_of_stage, Fails};
ghost use Rattle.lowering.specs.Means.{world, lines_at, AreLined, Means};
ghost use Rattle.rows.specs.Order.{IsInOrder};
ghost use Rattle.lowering.specs.Order.{LinesInOrder};
ghost use Rattle.lowering.specs.Outcome.{IsOutcome};
ghost use Rattle.rewrite.specs.Flat.{IsFlattened, MergesAreFlat};
ghost use Rattle.rewrite.specs.Pruned.{IsPruned, KeepsMeaning};

/// Where the target of a pruned plan has a tree, it is that of the file's target.
pub fn a_built_tree_is_the_stages<C>()
    ensures { (out : Out) (plan pruned : PlanValue C) (rows : Rows) (target : ℕ) (tree : TreeMap)
        → Means plan rows target → KeepsMeaning plan pruned → IsValue (problem_of out pruned) pruned.target (Ok tree)
        → IsOutcome (world out plan.sources) rows target (Ok tree) }
{}

/// Where a vertex of a pruned plan fails, the least line behind it is that of an instruction that fails so, and the file's target has no
/// tree.
pub fn a_named_failure_fails<C>()
    ensures { (out : Out) (plan pruned : PlanValue C) (rows : Rows) (target id line : ℕ) (cause : Cause)
        → Means plan rows target → AreLined plan.graph → IsPlan pruned → IsPruned plan pruned → KeepsMeaning plan pruned
        → NeedsAll (problem_of out pruned) → IsValue (problem_of out pruned) id (Err cause) → line ≡ least_line (lines_at pruned.graph id)
        → (tree_of_stage (world out plan.sources) rows target ≡ None) × Fails (world out plan.sources) rows line cause }
{}

/// Where a vertex of a flattened plan fails, the least line behind it is that of an instruction that fails so, and the file's target has no
/// tree.
pub fn a_flattened_failure_fails<C>()
    ensures { (out : Out) (plan flat : PlanValue C) (rows : Rows) (target id line : ℕ) (cause : Cause)
        → Means plan rows target → AreLined plan.graph → IsPlan flat → IsFlattened plan flat → KeepsMeaning plan flat
        → NeedsAll (problem_of out flat) → IsValue (problem_of out flat) id (Err cause) → line ≡ least_line (lines_at flat.graph id)
        → (tree_of_stage (world out plan.sources) rows target ≡ None) × Fails (world out plan.sources) rows line cause }
{}

/// Pruning and flattening keep lines in order, of every plan.
pub fn lines_are_kept_in_order<C>()
    ensures pruned { (plan pruned : PlanValue C) → IsPruned plan pruned → LinesInOrder plan.graph → LinesInOrder pruned.graph }
    ensures flat { (plan flat : PlanValue C) → IsFlattened plan flat → LinesInOrder plan.graph → LinesInOrder flat.graph }
{}

/// Pruning and flattening leave each vertex a line.
pub fn a_line_is_kept_behind_each_vertex<C>()
    ensures pruned { (plan pruned : PlanValue C) → IsPruned plan pruned → AreLined plan.graph → AreLined pruned.graph }
    ensures flat { (plan flat : PlanValue C) → IsFlattened plan flat → AreLined plan.graph → AreLined flat.graph }
{}

/// Pruning keeps the least lines in order, of every plan: no input's is greater than its vertex's. So does flattening if each vertex has a
/// line, as in the plan of a file.
pub fn least_lines_are_kept_in_order<C>()
    ensures pruned { (out : Out) (plan pruned : PlanValue C) → IsPruned plan pruned → HasLinesInOrder (problem_of out plan)
        → HasLinesInOrder (problem_of out pruned) }
    ensures flat { (out : Out) (plan flat : PlanValue C) → IsGraph plan.graph → AreLined plan.graph → IsFlattened plan flat
        → HasLinesInOrder (problem_of out plan) → HasLinesInOrder (problem_of out flat) }
{}

/// Let a plan keep the meaning of a file's plan, as a pruned or a flattened one does, and that plan itself. Then its failure of least line is
/// the file's first. The file's lines ascend, and the target of its plan needs every vertex.
pub fn the_least_failure_is_the_first<C>()
    ensures { (out : Out) (plan new : PlanValue C) (rows : Rows) (target id line : ℕ) (cause : Cause) → Means plan rows target
        → IsInOrder rows → NeedsAll (problem_of out plan) → AreLined new.graph → IsPlan new → KeepsMeaning plan new → NeedsAll (problem_of out new)
        → IsValue (problem_of out new) id (Err cause) → line ≡ least_line (lines_at new.graph id)
        → ((other : ℕ) (why : Cause) → IsValue (problem_of out new) other (Err why) → line ≤ least_line (lines_at new.graph other))
        → IsOutcome (world out plan.sources) rows target (Err (line, cause)) }
{}

/// A plan that means what another one does, which means what a third one does, means what the third one does: so plans may be flattened
/// and pruned in any order.
pub fn meaning_is_kept_on<C>()
    ensures { (first second third : PlanValue C) → KeepsMeaning first second → KeepsMeaning second third → KeepsMeaning first third }
{}

/// Pruning makes no merge the first input of a merge.
pub fn pruned_links_stay_flat<C>()
    ensures { (plan pruned : PlanValue C) → IsPruned plan pruned → MergesAreFlat plan.graph.vertices → MergesAreFlat pruned.graph.vertices }
{}
