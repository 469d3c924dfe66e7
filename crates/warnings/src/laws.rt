// The laws of a file's warnings, claimed: each function's contract is one law.
ghost use Rattle.std.specs.Prelude.{◌≡◌, ℕ, List};
ghost use Rattle.scopes.specs.Evaluate.{Values};
ghost use Rattle.warnings.specs.Warnings.{AreWarningsOf};
ghost use Rattle.warnings.specs.declared.warning.Warning.{Warning};

/// Each text has one list of warnings.
pub fn each_text_has_its_warnings()
    ensures exists { (args : Values) (text : List ℕ) → (found : List Warning) × AreWarningsOf args text found }
    ensures unique { (args : Values) (text : List ℕ) (found others : List Warning) → AreWarningsOf args text found → AreWarningsOf args text others → found ≡ others }
{
    dockerfile::laws::texts_are_read_or_refused();
    dockerfile::laws::answers_are_unique();
}
