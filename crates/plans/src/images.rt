ghost use Rattle.std.specs.Prelude.{◌≡◌, IfOk, OnOk, OnErr, option_copied, reverse};
ghost use Rattle.std.specs.FinMap.{empty, entries, get, insert};

use crate::sorted::Sorted;
use plain::{Exact, Memory, Text, with_copy};
use std::alloc::Global;
use std::marker::Model;
use trees::Tree;

/// An image that a build may begin with: its configuration and its tree.
#[derive(Drop)]
pub struct Image<C> {
    pub config: C,
    pub tree: Tree,
}

impl<C: Exact + Drop> Exact for Image<C> {
    fn same(&self, other: &Image<C>) -> bool {
        self.config.same(&other.config) && self.tree.same(&other.tree)
    }

    fn copy(&self, alloc: Global) -> Result<Image<C>, Memory> {
        let (config, tree) = with_copy(alloc, self.config.copy(alloc)?, &self.tree)?;
        Ok(Image { config, tree })
    }
}

/// The images that a build may name.
#[derive(Drop)]
pub struct Images<C> {
    images: Sorted<Image<C>>,
}

impl<C> Model for Images<C> {
    ghost use Rattle.plans.specs.Images.{ImagesValue, images_code};

    ghost Value = { ImagesValue C };

    ghost coded = { images_code C.code };

    ghost view = { λ i. i.images };
}

impl<C> Images<C> {
    /// No image. It takes no memory.
    pub fn new(alloc: Global) -> Images<C>
        ensures { result ≡ empty }
    {
        Images {
            images: Sorted::new(alloc),
        }
    }

    /// The image of exactly this name; `None` where there is none.
    pub fn find(&self, name: &str) -> Option<&Image<C>>
        ensures { option_copied result ≡ get self.now name.now }
    {
        self.images.get(name)
    }
}

impl<C: Drop> Images<C> {
    /// Adds an image, and gives the one that had its name before. After `Memory` nothing has changed. It costs least from the last name to the first:
    /// a name moves all that come before it.
    pub fn insert(&mut self, name: Text, image: Image<C>) -> Result<Option<Image<C>>, Memory>
        ensures old { IfOk result (λ old. old ≡ get self.old name) }
        ensures ok { OnOk result (self.new ≡ insert self.old name image) }
        ensures err { OnErr result (self.new ≡ self.old) }
    {
        self.images.insert(name, image)
    }

    /// The images, that of the last name first. It takes no memory.
    pub fn into_rows(self) -> Vec<(Text, Image<C>)>
        ensures { result.items ≡ reverse (entries self) }
    {
        let Images { images } = self;
        images.into_rows()
    }
}

impl<C: Exact + Drop> Images<C> {
    /// Equal images of their own, whose trees are shared.
    pub fn copy(&self, alloc: Global) -> Result<Images<C>, Memory>
        ensures { IfOk result (λ copied. copied ≡ self.now) }
    {
        let images = self.images.copy(alloc)?;
        Ok(Images { images })
    }
}
