// The laws of the images that stages name, claimed: each function's contract is one law.
ghost use Rattle.std.specs.Prelude.{◌≡◌, ◌↔◌, true, ℕ, List, Bool, map, Contains};
ghost use Rattle.stages.specs.Needed.{AreNeeded};
ghost use Rattle.stages.specs.declared.stage.ResolvedStage.{ResolvedStage};
ghost use Rattle.imagelist.specs.Images.{images_of, NamesImage, NamesOnLine, NeedsImage};
ghost use Rattle.imagelist.specs.declared.image_rows.ImageUse.{ImageUse};

/// The images of a file's stages are just those that a stage names; each has just the lines of the instructions that name it; and those are needed
/// that a stage names which the target needs.
pub fn the_images_are_those_of_the_stages()
    ensures named { (marks : List Bool) (stages : List ResolvedStage) (name : List ℕ)
        → Contains (map (λ row. row.0) (images_of marks stages)) name ↔ NamesImage stages name }
    ensures lines { (marks : List Bool) (stages : List ResolvedStage) (name : List ℕ) (used : ImageUse) → Contains (images_of marks stages) (name, used)
        → (line : ℕ) → Contains used.lines line ↔ NamesOnLine stages name line }
    ensures needed { (marks : List Bool) (stages : List ResolvedStage) (target : ℕ) (name : List ℕ) (used : ImageUse) → AreNeeded stages target marks
        → Contains (images_of marks stages) (name, used) → used.needed ≡ true ↔ NeedsImage stages target name }
{}
