// What is proved of the definitions alone. The functions do nothing: their contracts are laws.

ghost use Rattle.std.specs.Prelude.{◌≡◌, ◌≤◌, ◌⊎◌, [], ◌∷◌, ℕ, List, Bool, true, Option, Ok, Err, Contains};
ghost use Rattle.std.specs.List.{All, list_all};
ghost use Rattle.options.specs.declared.copy.CopyFlags.{CopyFlags};
ghost use Rattle.expand.specs.Value.{Parts};
ghost use Rattle.expand.specs.Reasons.{reason_number};
ghost use Rattle.expand.specs.declared.reason.Rejection.{Rejection};
ghost use Rattle.instructions.specs.Instruction.{is_files, IsInstruction};
ghost use Rattle.instructions.specs.Instruction.{Instruction};
ghost use Rattle.instructions.specs.declared.instruction.InstructionKind.TheVariants.{Copy};
ghost use Rattle.instructions.specs.declared.instruction.Source.{Source};
ghost use Rattle.rows.specs.declared.row.Origin.TheVariants.{Stage as StageOf};
ghost use Rattle.scopes.specs.Evaluate.{Values};
ghost use Rattle.dockerfile.specs.Dockerfile.{AscendBelow, IsDockerfile};
ghost use Rattle.stages.specs.Faults.{stage_refusals, AreJudged};
ghost use Rattle.stages.specs.Naming.{Known, Names, origins_of};
ghost use Rattle.stages.specs.Needed.{Refers, IsNeeded, IsClosed};
ghost use Rattle.stages.specs.Refusals.{LacksTarget, LacksStages, IsDueAtLine, IsDue, IsLeastDue};
ghost use Rattle.stages.specs.Resolved.{resolved};
ghost use Rattle.stages.specs.Table.{TableValue, IsTable, NamesKnown};
ghost use Rattle.stages.specs.declared.stage.ResolvedStage.{ResolvedStage};

/// Of all that is due for a file whose instructions stand on ascending lines, as those of each `Dockerfile` do, the least is reported: by
/// line, and on a line by number. So it is refused only for what is due, and resolved only where nothing is.
pub fn the_least_refusal_is_reported()
    ensures refused { (known : Known) (args : Values) (target : Option (List ℕ)) (instructions : List Instruction) (refusal : Rejection) → AscendBelow 0 instructions
        → resolved known args target instructions ≡ Err refusal → IsLeastDue known args target instructions refusal }
    ensures resolved { (known : Known) (args : Values) (target : Option (List ℕ)) (instructions : List Instruction) (table : TableValue)
        → resolved known args target instructions ≡ Ok table → (refusal : Rejection) → IsDue known args target instructions refusal → ⊥ }
{
    instructions::laws::the_least_reason_is_reported();
}

/// The first of all refusals of a file is what resolving it is refused with, and there is none exactly if that gives a table.
pub fn the_first_fault_is_the_refusal()
    ensures first { (known : Known) (args : Values) (target : Option (List ℕ)) (instructions : List Instruction) (refusal : Rejection) (more : List Rejection)
        → stage_refusals known args target instructions ≡ refusal ∷ more → resolved known args target instructions ≡ Err refusal }
    ensures refused { (known : Known) (args : Values) (target : Option (List ℕ)) (instructions : List Instruction) (refusal : Rejection)
        → resolved known args target instructions ≡ Err refusal → (more : List Rejection) × (stage_refusals known args target instructions ≡ refusal ∷ more) }
    ensures free { (known : Known) (args : Values) (target : Option (List ℕ)) (instructions : List Instruction)
        → stage_refusals known args target instructions ≡ [] → (table : TableValue) × (resolved known args target instructions ≡ Ok table) }
    ensures resolved { (known : Known) (args : Values) (target : Option (List ℕ)) (instructions : List Instruction) (table : TableValue)
        → resolved known args target instructions ≡ Ok table → stage_refusals known args target instructions ≡ [] }
{}

/// Each of a file's refusals is due, and none is missing: that of the target, that of a file without stages, and for each line that there is a
/// reason to refuse one with that reason or one of a lesser number; but for the lines after an ARG before the first FROM that is refused.
pub fn all_that_is_due_is_reported()
    ensures due { (known : Known) (args : Values) (target : Option (List ℕ)) (instructions : List Instruction) (refusal : Rejection)
        → Contains (stage_refusals known args target instructions) refusal → IsDue known args target instructions refusal }
    ensures target { (known : Known) (args : Values) (target : Option (List ℕ)) (instructions : List Instruction) (refusal : Rejection)
        → LacksTarget target instructions refusal → Contains (stage_refusals known args target instructions) refusal }
    ensures stages { (known : Known) (args : Values) (target : Option (List ℕ)) (instructions : List Instruction) (refusal : Rejection)
        → LacksStages instructions refusal → Contains (stage_refusals known args target instructions) refusal }
    ensures lines { (known : Known) (args : Values) (target : Option (List ℕ)) (instructions : List Instruction) (refusal : Rejection)
        (due : IsDueAtLine known args instructions refusal) → AreJudged known args due.before
        → (listed : Rejection) × Contains (stage_refusals known args target instructions) listed × (listed.line ≡ refusal.line)
        × (reason_number listed.reason ≤ reason_number refusal.reason) }
{
    instructions::laws::the_least_reason_is_reported();
}

/// The stages that are needed have the target and, with each stage, all that it names; and each set of stages that has these has all that
/// are needed.
pub fn the_least_stages_are_needed()
    ensures target { (stages : List ResolvedStage) (target : ℕ) → IsNeeded stages target target }
    ensures named { (stages : List ResolvedStage) (target from to : ℕ) → IsNeeded stages target from → Refers stages from to → IsNeeded stages target to }
    ensures least { (stages : List ResolvedStage) (target : ℕ) (has : ℕ → Bool) → IsClosed stages target has → (stage : ℕ) → IsNeeded stages target stage
        → has stage ≡ true }
{}

/// No source of a COPY from a stage is a heredoc: only `--from` leads to a stage, and a line with it spells a COPY of patterns alone.
pub fn a_copy_from_a_stage_has_no_heredocs()
    ensures { (known : Known) (names : Names) (sources : List Source) (destination : Parts) (flags : CopyFlags) (number : ℕ)
        → IsInstruction (Copy sources destination flags) → Contains (origins_of known names (Copy sources destination flags)) (StageOf number)
        → list_all is_files sources ≡ true }
{}

/// What the instructions of a text are resolved to is a table, and all images that its stages name are known.
pub fn what_is_resolved_is_a_table()
    ensures table { (known : Known) (args : Values) (target : Option (List ℕ)) (instructions : List Instruction) (table : TableValue) → IsDockerfile instructions
        → resolved known args target instructions ≡ Ok table → IsTable table }
    ensures known { (known : Known) (args : Values) (target : Option (List ℕ)) (instructions : List Instruction) (table : TableValue)
        → resolved known args target instructions ≡ Ok table → All (NamesKnown known) table.stages }
{}
