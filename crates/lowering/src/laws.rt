// The laws of what a file means, claimed: each function's contract is one law, and its body is empty.
ghost use Rattle.std.specs.Prelude.{◌≡◌, ◌⊎◌, ◌<◌, ◌++◌, ◌∷◌, ℕ, List, Option, None, Some, Result, length, slice_get, slice_index_or, ◌↔◌};
ghost use Rattle.std.specs.List.{All};
ghost use Rattle.trees.specs.TreeMap.{TreeMap};
ghost use Rattle.trees.specs.declared.cause.Cause.{Cause};
ghost use Rattle.llb.specs.Graph.{IsGraph};
ghost use Rattle.plans.specs.Plan.{PlanValue, NeedsAll, HasLinesInOrder, problem_of};
ghost use Rattle.plans.specs.Value.{Out, World};
ghost use Rattle.rows.specs.declared.row.Step.{Step};
ghost use Rattle.rows.specs.declared.row.Stage.{Stage};
ghost use Rattle.lowering.specs.Meaning.{Rows, Trees, origin_tree, tree_after, stage_tree, trees_of, tree_of_stage, Fails, serial};
ghost use Rattle.lowering.specs.Means.{AreLined, StandsFor};
ghost use Rattle.lowering.specs.Order.{LinesInOrder};
ghost use Rattle.rows.specs.Order.{IsInOrder, NeedsAllStages};
ghost use Rattle.lowering.specs.Outcome.{IsOutcome};
ghost use Rattle.lowering.specs.Positions.{StepFails, StageFails};
ghost use Rattle.rows.specs.WellFormed.{HasTree, RowNames, IsWellFormed};

/// The tree of a stage is what its instructions give beside the trees of the stages before it.
pub fn a_stage_stands_on_those_before()
    ensures { (w : World) (before after : Rows) (row : Option Stage)
        → slice_index_or (trees_of w (before ++ row ∷ after)) (length before) None ≡ stage_tree w (trees_of w before) row }
{}

/// The failures of a file are those of the instructions that fail where they stand.
pub fn failures_stand_somewhere()
    ensures { (w : World) (rows : Rows) (line : ℕ) (cause : Cause) → Fails w rows line cause ↔ StageFails w rows line cause }
{}

/// An instruction that fails leaves none of its stage's tree, whatever comes after it: neither of instructions one after another, nor of
/// a stage where it stands in its file.
pub fn failing_leaves_no_tree()
    ensures steps { (w : World) (trees : Trees) (base : Option TreeMap) (steps : List Step) (line : ℕ) (cause : Cause)
        → StepFails w trees base steps line cause → tree_after w trees base steps ≡ None }
    ensures stage { (w : World) (before after : Rows) (stage : Stage) (line : ℕ) (cause : Cause)
        → StepFails w (trees_of w before) (origin_tree w (trees_of w before) stage.base) stage.steps line cause
        → tree_of_stage w (before ++ Some stage ∷ after) (length before) ≡ None }
{}

/// A file's target has one outcome at most.
pub fn outcomes_agree()
    ensures { (w : World) (rows : Rows) (target : ℕ) (this that : Result TreeMap (ℕ × Cause))
        → IsOutcome w rows target this → IsOutcome w rows target that → this ≡ that }
{}

/// The first failure of a file is that of an instruction that fails. If the file's lines ascend, every other instruction that fails stands
/// on a greater line.
pub fn the_first_failure_is_the_least()
    ensures fails { (w : World) (rows : Rows) (first : ℕ × Cause) → serial w rows ≡ Some first → Fails w rows first.0 first.1 }
    ensures least { (w : World) (rows : Rows) (line : ℕ) (cause : Cause) → IsInOrder rows → Fails w rows line cause
        → (first : ℕ × Cause) × (serial w rows ≡ Some first) × ((first ≡ (line, cause)) ⊎ (first.0 < line)) }
{}

/// If a file's lines ascend, those of a graph that stands for it are in order: each line behind a vertex, and so the least ones.
pub fn lines_stay_in_order<C>()
    ensures each { (plan : PlanValue C) (rows : Rows) (target : ℕ) → StandsFor plan rows target → IsInOrder rows → LinesInOrder plan.graph }
    ensures least { (out : Out) (plan : PlanValue C) (rows : Rows) (target : ℕ) → StandsFor plan rows target → IsInOrder rows
        → HasLinesInOrder (problem_of out plan) }
{}

/// If each vertex of a graph has a line, all lines are in order exactly if the least ones are.
pub fn least_lines_tell_the_order<C>()
    ensures least { (out : Out) (plan : PlanValue C) → LinesInOrder plan.graph → AreLined plan.graph → HasLinesInOrder (problem_of out plan) }
    ensures each { (out : Out) (plan : PlanValue C) → IsGraph plan.graph → AreLined plan.graph → HasLinesInOrder (problem_of out plan)
        → LinesInOrder plan.graph }
{}

/// If a file's target needs all stages that aren't left out, the target of a plan that stands for the file needs every vertex.
pub fn needed_stages_are_needed_vertices<C>()
    ensures { (out : Out) (plan : PlanValue C) (rows : Rows) (target : ℕ) → StandsFor plan rows target → NeedsAllStages rows target
        → NeedsAll (problem_of out plan) }
{}

/// Where a well-formed file's sources have their trees, its target has a tree, or one of its instructions fails.
pub fn every_file_has_an_outcome()
    ensures { (w : World) (rows : Rows) (target : ℕ) (stage : Stage)
        → IsWellFormed rows → All (RowNames (HasTree w.sources)) rows → slice_get rows target ≡ Some (Some stage)
        → (outcome : Result TreeMap (ℕ × Cause)) × IsOutcome w rows target outcome }
{}
