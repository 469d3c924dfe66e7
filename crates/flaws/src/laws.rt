// The law of where bundles are wrong, claimed: the function's contract is the law.

ghost use Rattle.std.specs.Prelude.{◌≡◌, ◌↔◌, ℕ, List, Option, Some, None};
ghost use Rattle.serde_json.specs.Data.{Data};
ghost use Rattle.bundle.specs.Parts.{parts_of};
ghost use Rattle.bundle.specs.declared.parts.Parts.{Parts};
ghost use Rattle.flaws.specs.Flaws.{flaw_in};

/// Bytes are wrong nowhere exactly if they are a bundle.
pub fn a_bundle_has_no_flaw<C>()
    ensures { (config : Data → Option C) (bytes : List ℕ) → (flaw_in config bytes ≡ None) ↔ ((parts : Parts C) × (parts_of config bytes ≡ Some parts)) }
{}
