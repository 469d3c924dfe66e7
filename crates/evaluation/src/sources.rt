ghost use Rattle.std.specs.Prelude.{◌≡◌, ◌≤◌, length, IfOk};
ghost use Rattle.std.specs.FinMap.{insert, len};
ghost use Rattle.evaluation.specs.Images.{AreSources};

use crate::names::NamedImages;
use imageconfig::BoxedConfig;
use plain::{Memory, Text};
use plans::{Image, Images, Sources};
use std::alloc::Global;
use trees::Tree;

/// The sources with an image's tree.
///
/// It takes the sources and gives them back, so that the loop below holds nothing that is half moved out: that is dear to prove.
fn with_image(sources: Sources, name: Text, image: Image<BoxedConfig>) -> Result<Sources, Memory>
    ensures { IfOk result (λ more. more ≡ record sources { images = insert sources.images name image.tree }) }
{
    let mut sources = sources;
    let Image { config, tree } = image;
    drop(config);
    match sources.add_image(name, tree) {
        Ok(()) => Ok(sources),
        Err(memory) => {
            drop(sources);
            Err(memory)
        }
    }
}

/// The context, and the trees of the images of these names. Trees of other images are dropped. A name without an image doesn't come, since
/// `stages` refuses it.
pub(crate) fn sources_of(
    alloc: Global,
    context: Tree,
    images: Images<BoxedConfig>,
    names: &NamedImages,
) -> Result<Sources, Memory>
    ensures sources { IfOk result (λ sources. AreSources context images names.now sources) }
    ensures few { IfOk result (λ sources. len sources.images ≤ length names.now) }
{
    let mut sources = Sources::new(alloc, context);
    // The last name comes first, so each image that is added goes to the end of the sources' list.
    for (name, image) in images.into_rows() {
        if names.has(&name) {
            sources = with_image(sources, name, image)?;
        } else {
            drop(name);
            drop(image);
        }
    }
    Ok(sources)
}
