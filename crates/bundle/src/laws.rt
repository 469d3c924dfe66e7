// What is proved of the definitions alone. The functions do nothing but name the laws that they rest on: their contracts are laws.

ghost use Rattle.std.specs.Prelude.{◌≡◌, ◌⊎◌, ℕ, List, Option, Some, Ok, Err};
ghost use Rattle.std.specs.FinMap.{get};
ghost use Rattle.serde_json.specs.Data.{Data};
ghost use Rattle.plain.specs.declared.fault.Fault.TheVariants.{Because};
ghost use Rattle.plain.specs.declared.refusal.Refusal.{Refusal};
ghost use Rattle.plans.specs.declared.images.Image.{Image};
ghost use Rattle.bundle.specs.Reading.{ReadsBundle};
ghost use Rattle.bundle.specs.declared.whole.Bundle.{Bundle as BundleValue};

/// Bytes are a bundle, or they are refused.
pub fn bytes_are_read_or_refused<C>()
    ensures { (config : Data → Option C) (bytes : List ℕ)
        → ((bundle : BundleValue C) × ReadsBundle config bytes (Ok bundle)) ⊎ ((refusal : Refusal) × ReadsBundle config bytes (Err (Because refusal))) }
{
    contexts::laws::a_listing_has_a_context();
}

/// The configuration of an image of a bundle is what some JSON of the bundle is read as.
pub fn images_are_as_they_are_read<C>()
    ensures { (config : Data → Option C) (bytes : List ℕ) (bundle : BundleValue C) → ReadsBundle config bytes (Ok bundle)
        → (name : List ℕ) (found : Image C) → get bundle.images name ≡ Some found → (d : Data) × (config d ≡ Some found.config) }
{}
