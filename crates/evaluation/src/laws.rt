// What is proved of the definitions alone. The functions do nothing: their contracts are laws.

ghost use Rattle.std.specs.Prelude.{◌≡◌, ◌⊎◌, ◌++◌, ℕ, List, [], ◌∷◌, map, Bool, true, false, Some, Ok, Err, Contains, slice_get};
ghost use Rattle.std.specs.List.{All};
ghost use Rattle.plain.specs.Marks.{is_marked};
ghost use Rattle.plain.specs.declared.fault.Fault.TheVariants.{Because};
ghost use Rattle.expand.specs.declared.reason.Rejection.{Rejection};
ghost use Rattle.plain.specs.declared.variable.Variable.{Variable};
ghost use Rattle.trees.specs.TreeMap.{TreeMap};
ghost use Rattle.llb.specs.Places.{AreLines};
ghost use Rattle.llb.specs.declared.op.Source.{Source};
ghost use Rattle.plans.specs.Images.{ImagesValue};
ghost use Rattle.scopes.specs.Evaluate.{Values};
ghost use Rattle.scopes.specs.Scope.{value_in, run_env, kept};
ghost use Rattle.rows.specs.Order.{IsInOrder, NeedsAllStages};
ghost use Rattle.rows.specs.WellFormed.{IsWellFormed, RowNames, HasTree};
ghost use Rattle.rows.specs.declared.row.Stage.{Stage};
ghost use Rattle.stages.specs.Naming.{names_in};
ghost use Rattle.stages.specs.Needed.{AreNeeded};
ghost use Rattle.stages.specs.Table.{TableValue, IsTable, NamesKnown, stage_lines};
ghost use Rattle.stages.specs.declared.stage.ResolvedInstruction.{ResolvedInstruction};
ghost use Rattle.stages.specs.declared.stage.ResolvedStage.{ResolvedStage};
ghost use Rattle.imageconfig.specs.Environment.{variables_of};
ghost use Rattle.imageconfig.specs.Stage.{stage_config};
ghost use Rattle.imageconfig.specs.declared.config.Config.{Config};
ghost use Rattle.evaluation.specs.Chain.{IsChain, chain_history};
ghost use Rattle.evaluation.specs.Configuration.{in_scope, base_config};
ghost use Rattle.evaluation.specs.Evaluated.{evaluated, config_at, IsMade, EvaluatesTable};
ghost use Rattle.evaluation.specs.Faults.{evaluation_refusals, IsStageRefused};
ghost use Rattle.evaluation.specs.NeededLines.{needed_lines, IsFree, IsLeastRefusal, SameWhereMarked};
ghost use Rattle.evaluation.specs.Reached.{ComesTo, HaveEnvironments, HasScopesEnvironment};
ghost use Rattle.evaluation.specs.Stages.{instructions_from};
ghost use Rattle.evaluation.specs.State.{start};
ghost use Rattle.evaluation.specs.declared.evaluated.Evaluated.{Evaluated};
ghost use Rattle.evaluation.specs.declared.stage.Progress.{Progress};
ghost use Rattle.evaluation.specs.declared.state.State.{State};
ghost use Rattle.evaluation.specs.declared.walk.Walk.{Walk};

/// Each table has an evaluation or a refusal.
pub fn every_table_is_evaluated_or_refused()
    ensures { (args : Values) (images : ImagesValue Config) (context : TreeMap) (table : TableValue) → IsTable table
        → ((made : Evaluated) × EvaluatesTable args images context table (Ok made)) ⊎ ((refusal : Rejection) × EvaluatesTable args images context table (Err (Because refusal))) }
{}

/// Of all reasons to refuse lines of needed stages, each line judged where it stands, the least is reported: by line, and on a line by
/// number, R21 being the greatest. A table is evaluated only if there is none.
pub fn the_least_refusal_is_reported()
    ensures refused { (args : Values) (images : ImagesValue Config) (needed : List Bool) (table : TableValue) (refusal : Rejection) → IsTable table
        → evaluated args images needed table ≡ Err refusal → IsLeastRefusal (needed_lines args images needed table) refusal }
    ensures evaluated { (args : Values) (images : ImagesValue Config) (needed : List Bool) (table : TableValue) (walk : Walk)
        → evaluated args images needed table ≡ Ok walk → All IsFree (needed_lines args images needed table) }
{
    instructions::laws::the_least_reason_is_reported();
}

/// The first of the refusals that a table's needed stages are listed with is what the table is refused for, and there is none exactly if it is
/// evaluated.
pub fn the_first_fault_is_the_refusal()
    ensures first { (args : Values) (images : ImagesValue Config) (needed : List Bool) (table : TableValue) (refusal : Rejection) (more : List Rejection)
        → evaluation_refusals args images needed table ≡ refusal ∷ more → evaluated args images needed table ≡ Err refusal }
    ensures refused { (args : Values) (images : ImagesValue Config) (needed : List Bool) (table : TableValue) (refusal : Rejection)
        → evaluated args images needed table ≡ Err refusal → (more : List Rejection) × (evaluation_refusals args images needed table ≡ refusal ∷ more) }
    ensures free { (args : Values) (images : ImagesValue Config) (needed : List Bool) (table : TableValue)
        → evaluation_refusals args images needed table ≡ [] → (walk : Walk) × (evaluated args images needed table ≡ Ok walk) }
    ensures evaluated { (args : Values) (images : ImagesValue Config) (needed : List Bool) (table : TableValue) (walk : Walk)
        → evaluated args images needed table ≡ Ok walk → evaluation_refusals args images needed table ≡ [] }
{}

/// Each refusal in that list is the one of a stage, evaluated after what the stages before it leave, and each stage that is refused so has its
/// refusal there. A stage has one at most, at a line of its own, and the lines ascend.
pub fn each_refused_stage_is_listed()
    ensures each { (args : Values) (images : ImagesValue Config) (needed : List Bool) (table : TableValue) (refusal : Rejection)
        → Contains (evaluation_refusals args images needed table) refusal → (number : ℕ) × IsStageRefused args images needed table number refusal }
    ensures listed { (args : Values) (images : ImagesValue Config) (needed : List Bool) (table : TableValue) (number : ℕ) (refusal : Rejection)
        → IsStageRefused args images needed table number refusal → Contains (evaluation_refusals args images needed table) refusal }
    ensures once { (args : Values) (images : ImagesValue Config) (needed : List Bool) (table : TableValue) (number : ℕ) (one other : Rejection)
        → IsStageRefused args images needed table number one → IsStageRefused args images needed table number other → one ≡ other }
    ensures line { (args : Values) (images : ImagesValue Config) (needed : List Bool) (table : TableValue) (number : ℕ) (refusal : Rejection)
        (is : IsStageRefused args images needed table number refusal) → Contains (stage_lines is.stage) refusal.line }
    ensures order { (args : Values) (images : ImagesValue Config) (needed : List Bool) (table : TableValue) → IsTable table
        → AreLines (map (λ (refusal : Rejection). refusal.line) (evaluation_refusals args images needed table)) }
{}

/// What a stage says that isn't needed changes nothing: where all needed stages of a file are the same, the same are needed, and they are
/// evaluated to the same rows, scopes, configurations and images, or refused alike.
pub fn stages_that_are_not_needed_change_nothing()
    ensures needed { (stages others : List ResolvedStage) (target : ℕ) (needed : List Bool) → AreNeeded stages target needed
        → SameWhereMarked needed stages others → AreNeeded others target needed }
    ensures evaluated { (args : Values) (images : ImagesValue Config) (needed : List Bool) (table other : TableValue) → table.outer ≡ other.outer
        → SameWhereMarked needed table.stages other.stages → evaluated args images needed table ≡ evaluated args images needed other }
{
    instructions::laws::the_least_reason_is_reported();
}

/// The configuration that the instructions of a stage leave is what their lines make of the one before them, one line after another, each
/// under the values of names before it.
pub fn a_configuration_is_what_the_lines_make()
    ensures { (args outer : Values) (instructions : List ResolvedInstruction) (first last : Progress)
        → instructions_from args outer (Ok first) instructions ≡ Ok last
        → stage_config first.state.config (in_scope args outer first.state instructions) ≡ Ok last.state.config }
{}

/// Wherever evaluation comes, the environment of the configuration is that of the scope: at the beginning of a stage, be it from an image, from
/// the empty tree or from another stage, and after each of its instructions. So the `Env` that an image is answered with is what RUNs see of ENV,
/// in its order and before what they see of ARG.
pub fn configurations_have_the_environment_of_their_scopes()
    ensures each { (args : Values) (images : ImagesValue Config) (needed : List Bool) (table : TableValue) (number : ℕ) (before : List ResolvedInstruction) (state : State)
        → HaveEnvironments images → ComesTo args images needed table number before state → HasScopesEnvironment state }
    ensures ends { (args : Values) (images : ImagesValue Config) (needed : List Bool) (table : TableValue) (walk : Walk) (number : ℕ) (state : State)
        → HaveEnvironments images → evaluated args images needed table ≡ Ok walk → slice_get walk.states number ≡ Some (Some state) → HasScopesEnvironment state }
    ensures seen { (args : Values) (images : ImagesValue Config) (needed : List Bool) (table : TableValue) (number : ℕ) (before : List ResolvedInstruction) (state : State)
        → HaveEnvironments images → ComesTo args images needed table number before state
        → (others : List Variable) × (run_env state.scope ≡ variables_of state.config.env ++ others) }
{
    imageconfig::laws::scopes_and_configurations_have_the_same_environment();
}

/// The scope before a line of a needed stage, and at its end, means the history of the stage's chain of bases: an image's environment first, then
/// the lines of each stage of the chain, base first, then the stage's own lines so far. So a name has the value that the last ENV along the
/// chain gives it, else the last ARG along it. Each stage of a table has such a chain.
pub fn scopes_mean_the_history_of_their_chain()
    ensures chain { (table : TableValue) → IsTable table → (number : ℕ) (stage : ResolvedStage) → slice_get table.stages number ≡ Some stage
        → (below : List ResolvedStage) × (source : Source) × IsChain table.stages stage below source }
    ensures scope { (args : Values) (images : ImagesValue Config) (needed : List Bool) (table : TableValue) → IsTable table → AreNeeded table.stages table.target needed
        → (below : List ResolvedStage) (source : Source) (number : ℕ) (stage : ResolvedStage) (before : List ResolvedInstruction) (state : State)
        → slice_get table.stages number ≡ Some stage → IsChain table.stages stage below source → ComesTo args images needed table number before state
        → state.scope ≡ kept (chain_history args (value_in table.outer) images source below before) }
    ensures values { (args : Values) (images : ImagesValue Config) (needed : List Bool) (table : TableValue) → IsTable table → AreNeeded table.stages table.target needed
        → (below : List ResolvedStage) (source : Source) (number : ℕ) (stage : ResolvedStage) (before : List ResolvedInstruction) (state : State)
        → slice_get table.stages number ≡ Some stage → IsChain table.stages stage below source → ComesTo args images needed table number before state
        → (name : List ℕ) → value_in state.scope name ≡ value_in (chain_history args (value_in table.outer) images source below before) name }
    ensures environment { (args : Values) (images : ImagesValue Config) (needed : List Bool) (table : TableValue) → IsTable table → AreNeeded table.stages table.target needed
        → (below : List ResolvedStage) (source : Source) (number : ℕ) (stage : ResolvedStage) (before : List ResolvedInstruction) (state : State)
        → slice_get table.stages number ≡ Some stage → IsChain table.stages stage below source → ComesTo args images needed table number before state
        → run_env state.scope ≡ run_env (chain_history args (value_in table.outer) images source below before) }
{}

/// What a needed stage of an evaluated table leaves is the state that evaluation comes to after all of the stage's instructions.
pub fn needed_stages_leave_what_evaluation_comes_to()
    ensures { (args : Values) (images : ImagesValue Config) (needed : List Bool) (table : TableValue) (walk : Walk) (number : ℕ) (stage : ResolvedStage)
        → evaluated args images needed table ≡ Ok walk → is_marked needed number ≡ true → slice_get table.stages number ≡ Some stage
        → (state : State) × (slice_get walk.states number ≡ Some (Some state)) × ComesTo args images needed table number stage.instructions state }
{}

/// The configuration at the end of a needed stage is what the stage's lines make of its base's, one line after another, each under the values of
/// names before it. The base's is that of an image, the plain one where the stage begins with the empty tree, or that at the end of an earlier
/// stage. What the stage begins with so is a state that evaluation comes to.
pub fn a_configuration_is_what_the_lines_make_of_the_bases()
    ensures begins { (args : Values) (images : ImagesValue Config) (needed : List Bool) (table : TableValue) (walk : Walk) (number : ℕ) (stage : ResolvedStage)
        → IsTable table → evaluated args images needed table ≡ Ok walk → is_marked needed number ≡ true → slice_get table.stages number ≡ Some stage
        → ComesTo args images needed table number [] (start images walk.states stage.base) }
    ensures made { (args : Values) (images : ImagesValue Config) (needed : List Bool) (table : TableValue) (walk : Walk) (number : ℕ) (stage : ResolvedStage)
        → IsTable table → evaluated args images needed table ≡ Ok walk → is_marked needed number ≡ true → slice_get table.stages number ≡ Some stage
        → stage_config (base_config images walk.states stage.base) (in_scope args (value_in table.outer) (start images walk.states stage.base) stage.instructions)
        ≡ Ok (config_at walk.states number) }
{}

/// The lines of an evaluated table's rows ascend, and its target needs each stage that isn't left out: what a stage names, its row names.
pub fn what_is_evaluated_is_in_order()
    ensures order { (args : Values) (images : ImagesValue Config) (needed : List Bool) (table : TableValue) (walk : Walk) → IsTable table
        → evaluated args images needed table ≡ Ok walk → IsInOrder walk.rows }
    ensures needs { (args : Values) (images : ImagesValue Config) (needed : List Bool) (table : TableValue) (walk : Walk) → IsTable table
        → AreNeeded table.stages table.target needed → evaluated args images needed table ≡ Ok walk → NeedsAllStages walk.rows table.target }
{}

/// What is made of an evaluated table is such as lowering asks for, where the environments of images are such and all images that are named are known:
/// the rows are well formed, the target is one of them, and each source that they name has its tree.
pub fn what_is_evaluated_is_whole()
    ensures rows { (args : Values) (images : ImagesValue Config) (context : TreeMap) (needed : List Bool) (table : TableValue) (walk : Walk) (made : Evaluated)
        → IsTable table → AreNeeded table.stages table.target needed → HaveEnvironments images → evaluated args images needed table ≡ Ok walk
        → IsMade images context table.target walk made → IsWellFormed made.rows }
    ensures target { (args : Values) (images : ImagesValue Config) (context : TreeMap) (needed : List Bool) (table : TableValue) (walk : Walk) (made : Evaluated)
        → IsTable table → AreNeeded table.stages table.target needed → HaveEnvironments images → evaluated args images needed table ≡ Ok walk
        → IsMade images context table.target walk made → (stage : Stage) × (slice_get made.rows made.target ≡ Some (Some stage)) }
    ensures named { (args : Values) (images : ImagesValue Config) (context : TreeMap) (needed : List Bool) (table : TableValue) (walk : Walk) (made : Evaluated)
        → IsTable table → AreNeeded table.stages table.target needed → HaveEnvironments images → All (NamesKnown (names_in images)) table.stages
        → evaluated args images needed table ≡ Ok walk → IsMade images context table.target walk made → All (RowNames (HasTree made.sources)) made.rows }
{
    actions::laws::runs_are_well_formed();
    actions::laws::copies_are_well_formed();
    scopes::laws::environments_have_the_names_of_declarations();
    scopes::laws::lines_declare_their_names();
    scopes::laws::names_fit_environments();
}
