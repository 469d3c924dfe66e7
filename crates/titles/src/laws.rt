// What is proved of the definitions alone. The functions do nothing: their contracts are laws.

ghost use Rattle.std.specs.Prelude.{◌≡◌, ◌≤◌, ℕ, List, Option, Some, None, length};
ghost use Rattle.lines.specs.declared.line.Line.{Line};
ghost use Rattle.llb.specs.Places.{AreLines};
ghost use Rattle.stages.specs.Naming.{Names};
ghost use Rattle.stages.specs.Table.{lines_of};
ghost use Rattle.stages.specs.declared.stage.ResolvedInstruction.{ResolvedInstruction};
ghost use Rattle.stages.specs.declared.stage.ResolvedStage.{ResolvedStage};
ghost use Rattle.titles.specs.Titled.{title_at, IsStep, steps_of, steps_up_to};
ghost use Rattle.titles.specs.Titles.{called_at, rest_at, step_title, titles_of};

/// Where the lines of a file's stages ascend, as those of each table of stages do, the title at a step's line is that of its instruction, as the
/// Kth of the N steps of its stage: K counts the steps up to it, and is from 1 to N. No other line has a title.
pub fn titles_are_of_steps()
    ensures steps { (lines : List Line) (names : Names) (stages : List ResolvedStage) (number : ℕ) (stage : ResolvedStage) (before : List ResolvedInstruction)
        (step : ResolvedInstruction) (word : List ℕ) → AreLines (lines_of stages) → IsStep stages number stage before step word
        → title_at (titles_of lines names stages) step.instruction.line
        ≡ Some (step_title (called_at names (length stages) number) (steps_up_to stage before step) (steps_of stage) word (rest_at lines step.instruction.line)) }
    ensures counted { (stages : List ResolvedStage) (number : ℕ) (stage : ResolvedStage) (before : List ResolvedInstruction) (step : ResolvedInstruction)
        (word : List ℕ) → IsStep stages number stage before step word
        → (1 ≤ steps_up_to stage before step) × (steps_up_to stage before step ≤ steps_of stage) }
    ensures others { (lines : List Line) (names : Names) (stages : List ResolvedStage) (line : ℕ) → AreLines (lines_of stages)
        → ((number : ℕ) (stage : ResolvedStage) (before : List ResolvedInstruction) (step : ResolvedInstruction) (word : List ℕ)
        → IsStep stages number stage before step word → step.instruction.line ≡ line → ⊥)
        → title_at (titles_of lines names stages) line ≡ None }
{}
