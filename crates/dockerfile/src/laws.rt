// What is proved of the definitions alone. The functions do nothing: their contracts are laws.

ghost use Rattle.std.specs.Prelude.{◌≡◌, ◌⊎◌, [], ◌∷◌, ℕ, List, None};
ghost use Rattle.plain.specs.declared.refusal.Refusal.{Refusal};
ghost use Rattle.instructions.specs.Instruction.{Instruction};
ghost use Rattle.lines.specs.declared.line.Line.{Line};
ghost use Rattle.instructions.specs.Parsing.{Spells};
ghost use Rattle.dockerfile.specs.Dockerfile.{AreInstructions, IsRefused, IsDockerfile};
ghost use Rattle.dockerfile.specs.Faults.{refusal_of, AreFaults, AreInOrder};

/// Each text has its instructions, or it is refused.
pub fn texts_are_read_or_refused()
    ensures { (text : List ℕ) → ((found : List Instruction) × AreInstructions text found) ⊎ ((refusal : Refusal) × IsRefused text refusal) }
{
    instructions::laws::lines_are_spelled_or_refused();
}

/// A text has no two lists of instructions, no two refusals, and never one of each.
pub fn answers_are_unique()
    ensures instructions { (text : List ℕ) (found others : List Instruction) → AreInstructions text found → AreInstructions text others → found ≡ others }
    ensures refusals { (text : List ℕ) (one other : Refusal) → IsRefused text one → IsRefused text other → one ≡ other }
    ensures apart { (text : List ℕ) (found : List Instruction) (refusal : Refusal) → AreInstructions text found → IsRefused text refusal → ⊥ }
{
    instructions::laws::a_line_spells_one();
}

/// The instructions of a text are whole, their lines ascend, and there are no more of them than a Dockerfile may have lines.
pub fn instructions_of_a_text_are_whole()
    ensures { (text : List ℕ) (found : List Instruction) → AreInstructions text found → IsDockerfile found }
{}

/// A line has no refusal exactly if it spells an instruction.
pub fn a_line_without_refusal_spells()
    ensures free { (line : Line) → refusal_of line ≡ None → (i : Instruction) × Spells line i }
    ensures spells { (line : Line) (i : Instruction) → Spells line i → refusal_of line ≡ None }
{
    instructions::laws::lines_are_spelled_or_refused();
}

/// Each text has one list of faults, which stand in the order of their lines, one on a line.
pub fn each_text_has_its_faults()
    ensures exists { (text : List ℕ) → (faults : List Refusal) × AreFaults text faults }
    ensures unique { (text : List ℕ) (faults others : List Refusal) → AreFaults text faults → AreFaults text others → faults ≡ others }
    ensures order { (text : List ℕ) (faults : List Refusal) → AreFaults text faults → AreInOrder faults }
{}

/// The first of a text's faults is what reading it is refused with, and there is none exactly if reading it gives instructions.
pub fn the_first_fault_is_the_refusal()
    ensures first { (text : List ℕ) (refusal : Refusal) (more : List Refusal) → AreFaults text (refusal ∷ more) → IsRefused text refusal }
    ensures refused { (text : List ℕ) (refusal : Refusal) (faults : List Refusal) → IsRefused text refusal → AreFaults text faults
        → (more : List Refusal) × (faults ≡ refusal ∷ more) }
    ensures free { (text : List ℕ) → AreFaults text [] → (found : List Instruction) × AreInstructions text found }
    ensures read { (text : List ℕ) (found : List Instruction) (faults : List Refusal) → AreInstructions text found → AreFaults text faults → faults ≡ [] }
{
    instructions::laws::lines_are_spelled_or_refused();
}
