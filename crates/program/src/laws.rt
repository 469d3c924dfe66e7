// The law that joins a bundle's faults to its build, claimed: the function's contract is the law, and its body names the laws of crates below that it rests on.
ghost use Rattle.std.specs.Prelude.{[], ◌∷◌, ℕ, List, Ok, Err};
ghost use Rattle.expand.specs.declared.reason.Rejection.{Rejection};
ghost use Rattle.evaluation.specs.declared.evaluated.Evaluated.{Evaluated};
ghost use Rattle.checks.specs.Checks.{AreFaultsOf};
ghost use Rattle.build.specs.Meaning.{Asks};

/// The first fault of a bundle is the refusal that a build answers: each list of faults that isn't empty begins with it, and a bundle that is
/// refused has such a list. There is no fault exactly if a build accepts the bundle. Each bundle has one list, as
/// `checks::laws::each_bundle_has_its_faults` says.
pub fn the_first_fault_is_the_refusal()
    ensures first { (bytes : List ℕ) (refusal : Rejection) (more : List Rejection) → AreFaultsOf bytes (refusal ∷ more) → Asks bytes (Err refusal) }
    ensures refused { (bytes : List ℕ) (refusal : Rejection) → Asks bytes (Err refusal) → (more : List Rejection) × AreFaultsOf bytes (refusal ∷ more) }
    ensures free { (bytes : List ℕ) → AreFaultsOf bytes [] → (made : Evaluated) × Asks bytes (Ok made) }
    ensures accepted { (bytes : List ℕ) (made : Evaluated) → Asks bytes (Ok made) → AreFaultsOf bytes [] }
{
    dockerfile::laws::each_text_has_its_faults();
    dockerfile::laws::the_first_fault_is_the_refusal();
    stages::laws::the_first_fault_is_the_refusal();
    evaluation::laws::the_first_fault_is_the_refusal();
    checks::laws::each_bundle_has_its_faults();
    build::laws::every_bundle_has_an_answer();
}
