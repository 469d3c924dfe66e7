// What stands for the images that a bundle lacks.
ghost use Rattle.std.specs.Prelude.{◌≡◌, ℕ, List, IfOk, OnOk};
ghost use Rattle.std.specs.BTreeMap.{is_at};
ghost use Rattle.std.specs.FinMap.{from_entries, get};
ghost use Rattle.std.specs.Map.{lookup};
ghost use Rattle.std.specs.Option.{option_or};
ghost use Rattle.paths.specs.Order.{name_cmp};
ghost use Rattle.stubs.specs.Naming.{AreNamed};
ghost use Rattle.stubs.specs.Stubbing.{stub, stub_if, is_named, AreStubbed, IsStubbed, IsGivenBy};

use crate::naming::named_images;
use bundle::Bundle;
use imageconfig::{BoxedConfig, Config};
use plain::{Items, Memory, Text};
use plans::{Image, Images};
use stages::ImageName;
use std::alloc::Global;
use std::collections::BTreeMap;
use std::hash::RandomState;
use trees::Tree;

/// Images in the order of their names. They are collected here, since in [`Images`] a name that is added moves all that come before it.
type Rows = BTreeMap<Text, Image<BoxedConfig>>;

/// What stands for an image that isn't there.
fn stub(alloc: Global, keys: RandomState) -> Result<Image<BoxedConfig>, Memory>
    ensures { IfOk result (λ image. image ≡ stub) }
{
    let config = BoxedConfig::new(alloc, Config::plain(alloc, keys)?)?;
    Ok(Image {
        config,
        tree: Tree::empty(alloc),
    })
}

/// A stub for each of these names.
fn stubs_of(alloc: Global, keys: RandomState, names: Items<ImageName>) -> Result<Rows, Memory>
    ensures { IfOk result (λ rows. (name : List ℕ) → lookup (is_at (name_cmp name)) rows.entries ≡ stub_if (is_named names name)) }
{
    let mut rows = BTreeMap::new(alloc);
    for named in names.into_vec() {
        let image = stub(alloc, keys)?;
        drop(rows.insert(named.name, image)?);
    }
    Ok(rows)
}

/// Puts images over others.
fn put_all(rows: &mut Rows, images: Images<BoxedConfig>) -> Result<(), Memory>
    ensures { OnOk result ((name : List ℕ) → lookup (is_at (name_cmp name)) rows.new.entries ≡ option_or (get images name) (lookup (is_at (name_cmp name)) rows.old.entries)) }
{
    for (name, image) in images.into_rows() {
        drop(rows.insert(name, image)?);
    }
    Ok(())
}

/// The images of these rows.
fn images_of(alloc: Global, rows: Rows) -> Result<Images<BoxedConfig>, Memory>
    ensures { IfOk result (λ images. images ≡ from_entries rows.entries) }
{
    let mut left = rows;
    let mut images = Images::new(alloc);
    while let Some((name, image)) = left.pop_last() {
        drop(images.insert(name, image)?);
    }
    Ok(images)
}

/// Images with stubs for these names.
fn with_stubs(
    alloc: Global,
    keys: RandomState,
    images: Images<BoxedConfig>,
    names: Items<ImageName>,
) -> Result<Images<BoxedConfig>, Memory>
    ensures { IfOk result (AreStubbed images names) }
{
    match stubs_of(alloc, keys, names) {
        Ok(rows) => {
            let mut rows = rows;
            match put_all(&mut rows, images) {
                Ok(()) => images_of(alloc, rows),
                Err(memory) => {
                    drop(rows);
                    Err(memory)
                }
            }
        }
        Err(memory) => {
            drop(images);
            Err(memory)
        }
    }
}

/// A bundle whose Dockerfile names these images, with its stubs.
fn stub_names(
    alloc: Global,
    keys: RandomState,
    bundle: Bundle<BoxedConfig>,
    names: Items<ImageName>,
) -> Result<Bundle<BoxedConfig>, Memory>
    requires { AreNamed bundle names }
    ensures { IfOk result (IsStubbed bundle) }
{
    let Bundle {
        dockerfile,
        context,
        images,
        digests,
        args,
        caches,
        target,
    } = bundle;
    match with_stubs(alloc, keys, images, names) {
        Ok(images) => Ok(Bundle {
            dockerfile,
            context,
            images,
            digests,
            args,
            caches,
            target,
        }),
        Err(memory) => {
            drop(dockerfile);
            drop(context);
            drop(digests);
            drop(args);
            drop(caches);
            drop(target);
            Err(memory)
        }
    }
}

/// A bundle with its stubs.
fn stub_all(
    alloc: Global,
    keys: RandomState,
    bundle: Bundle<BoxedConfig>,
) -> Result<Bundle<BoxedConfig>, Memory>
    ensures { IfOk result (IsStubbed bundle) }
{
    match named_images(alloc, keys, &bundle) {
        Ok(names) => stub_names(alloc, keys, bundle, names),
        Err(memory) => {
            drop(bundle);
            Err(memory)
        }
    }
}

/// With `any_image` the bundle that has, under each name of an image that its Dockerfile names and that it lacks, an image without files whose
/// configuration is that of `scratch`; else the bundle as it is.
pub fn stub_for(
    alloc: Global,
    keys: RandomState,
    bundle: Bundle<BoxedConfig>,
    any_image: bool,
) -> Result<Bundle<BoxedConfig>, Memory>
    ensures { IfOk result (IsGivenBy any_image bundle) }
{
    if any_image {
        stub_all(alloc, keys, bundle)
    } else {
        Ok(bundle)
    }
}
