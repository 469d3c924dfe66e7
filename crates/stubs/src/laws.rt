// The laws of stubs, claimed: each function's contract is one law, and its body names the laws of crates below that it rests on.
ghost use Rattle.std.specs.Prelude.{◌≡◌, List};
ghost use Rattle.stages.specs.declared.image_name.ImageName.{ImageName};
ghost use Rattle.imageconfig.specs.declared.config.Config.{Config};
ghost use Rattle.bundle.specs.declared.whole.Bundle.{Bundle};
ghost use Rattle.stubs.specs.Naming.{AreNamed, AreMissing};
ghost use Rattle.stubs.specs.Stubbing.{IsStubbed};

/// Each bundle names one list of images, and lacks one list of them.
pub fn each_bundle_names_its_images()
    ensures named { (bundle : Bundle Config) → (names : List ImageName) × AreNamed bundle names }
    ensures one { (bundle : Bundle Config) (names others : List ImageName) → AreNamed bundle names → AreNamed bundle others → names ≡ others }
    ensures missing { (bundle : Bundle Config) → (missing : List ImageName) × AreMissing bundle missing }
    ensures unique { (bundle : Bundle Config) (missing others : List ImageName) → AreMissing bundle missing → AreMissing bundle others → missing ≡ others }
{
    dockerfile::laws::texts_are_read_or_refused();
    dockerfile::laws::answers_are_unique();
}

/// Each bundle has one bundle with its stubs.
pub fn each_bundle_has_its_stubs()
    ensures exists { (bundle : Bundle Config) → (stubbed : Bundle Config) × IsStubbed bundle stubbed }
    ensures unique { (bundle one other : Bundle Config) → IsStubbed bundle one → IsStubbed bundle other → one ≡ other }
{
    each_bundle_names_its_images();
}
