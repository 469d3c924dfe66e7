// Of a bundle that leaves out what its ignore file leaves out, and of one with images.
ghost use Rattle.std.specs.Prelude.{◌≡◌, ℕ, true, List, Some, codes};
ghost use Rattle.serde_json.specs.Find.{get};
ghost use Rattle.trees.specs.Row.{Row};
ghost use Rattle.trees.specs.TreeMap.{TreeMap};
ghost use Rattle.ignorefile.specs.declared.line.Line.{Line};
ghost use Rattle.contexts.specs.Context.{IsContext, IsListing};
ghost use Rattle.imageconfig.specs.Reading.{config_in};
ghost use Rattle.imageconfig.specs.declared.config.Config.{Config};
ghost use Rattle.bundle.specs.declared.parts.ReadImages.{ReadImages};
ghost use Rattle.bundle.specs.Parts.{images_in, no_images, or_none};
ghost use Rattle.packing.specs.Images.{AreRead, are_images};
ghost use Rattle.packing.specs.Leaving.{Suffices};
ghost use Rattle.packing.specs.Packed.{Given, packed_data};

use contexts::laws::a_listing_has_one_context;

/// A build sees the same context: that of the rows that suffice is that of all rows.
pub fn rows_that_suffice_have_the_same_context()
    ensures { (rows some : List Row) (lines : List Line) (tree other : TreeMap) → IsListing rows → Suffices lines rows some → IsContext rows lines tree → IsContext some lines other → other ≡ tree }
{
    a_listing_has_one_context();
}

/// A build reads the images that are packed: what stands at the key `images` of a bundle that is packed is read, as just these.
pub fn a_build_reads_the_images_that_are_packed()
    ensures { (rows : List Row) (dockerfile : List ℕ) (given : Given) → are_images given.images ≡ true
        → (found : ReadImages Config) × ((or_none no_images (images_in config_in) (get (codes "images") (packed_data rows dockerfile given)) ≡ Some found) × AreRead given.images found.images) }
{}
