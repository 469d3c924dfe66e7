// What is proved of the definitions alone. The functions do nothing: their contracts are laws.

ghost use Rattle.std.specs.Prelude.{◌≡◌, ◌⊎◌, Bool, false, Option, Some, None};
ghost use Rattle.plain.specs.declared.refusal.Code.{Code};
ghost use Rattle.lines.specs.declared.line.Line.{Line};
ghost use Rattle.expand.specs.declared.fault.Unexpanded.{Unexpanded};
ghost use Rattle.expand.specs.declared.reason.Reason.{Reason};
ghost use Rattle.instructions.specs.Least.{least, IsLeast};
ghost use Rattle.instructions.specs.Reason.{reason, IsReason, IsLeastReason};
ghost use Rattle.instructions.specs.Parsing.{is_due, Spells};
ghost use Rattle.instructions.specs.Instruction.{Instruction};

/// A line spells one instruction at most.
pub fn a_line_spells_one()
    ensures { (line : Line) (i j : Instruction) → Spells line i → Spells line j → i ≡ j }
{}

/// A line spells an instruction, or has a least code that is due, and never both.
pub fn lines_are_spelled_or_refused()
    ensures either { (line : Line) → ((i : Instruction) × Spells line i) ⊎ ((c : Code) × (least (is_due line) ≡ Some c)) }
    ensures never_both { (line : Line) (i : Instruction) (c : Code) → Spells line i → least (is_due line) ≡ Some c → ⊥ }
{}

/// Of the codes that are due the least is told, and where there is none, none is due.
pub fn the_least_code_is_told()
    ensures least { (due : Code → Bool) (c : Code) → least due ≡ Some c → IsLeast due c }
    ensures none { (due : Code → Bool) → least due ≡ None → (c : Code) → due c ≡ false }
{}

/// Of the reasons that there are to refuse a line whose texts are expanded the least is reported, and if none is, there is none.
pub fn the_least_reason_is_reported()
    ensures least { (due : Code → Bool) (fault : Option Unexpanded) (found : Reason) → reason due fault ≡ Some found → IsLeastReason due fault found }
    ensures none { (due : Code → Bool) (fault : Option Unexpanded) → reason due fault ≡ None → (other : Reason) → IsReason due fault other → ⊥ }
{}
