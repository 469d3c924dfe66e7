// The images that a bundle's Dockerfile names.
ghost use Rattle.std.specs.Prelude.{◌≡◌, IfOk, OnOk, filter, map};
ghost use Rattle.imageconfig.specs.Rows.{add_name};
ghost use Rattle.stubs.specs.Naming.{AreNamed, AreMissing, is_lacked, each_once};

use bundle::Bundle;
use dockerfile::Dockerfile;
use imageconfig::BoxedConfig;
use named::{NamedRows, Present};
use plain::{Exact, Fault, Items, Memory, Text};
use plans::Images;
use stages::{ImageName, image_names};
use std::alloc::Global;
use std::hash::RandomState;

/// The images that a bundle's Dockerfile names, as `stages::image_names` finds them: each with the values of its variables and with its line, in
/// the order of the file, and as often as it is named. A text that can't be read as instructions names none.
pub fn named_images(
    alloc: Global,
    keys: RandomState,
    bundle: &Bundle<BoxedConfig>,
) -> Result<Items<ImageName>, Memory>
    ensures { IfOk result (AreNamed bundle.now) }
{
    match Dockerfile::read(alloc, bundle.dockerfile.as_slice()) {
        Ok(file) => {
            let names = image_names(alloc, keys, &file, &bundle.args);
            drop(file);
            names
        }
        Err(Fault::Because(_)) => Ok(Items::new(alloc)),
        Err(Fault::Memory) => Err(Memory),
    }
}

/// Those of some names that no image has.
fn lacked(
    alloc: Global,
    images: &Images<BoxedConfig>,
    names: Items<ImageName>,
) -> Result<Items<ImageName>, Memory>
    ensures { IfOk result (λ lacked. lacked ≡ filter (is_lacked images.now) names) }
{
    let mut lacked = Items::new(alloc);
    for named in names.into_vec() {
        if images.find(named.name.as_str()).is_none() {
            lacked.push(named)?;
        }
    }
    Ok(lacked)
}

/// Those of the images that a bundle's Dockerfile names which the bundle lacks, in the order of the file, and as often as they are named.
pub fn missing_images(
    alloc: Global,
    keys: RandomState,
    bundle: &Bundle<BoxedConfig>,
) -> Result<Items<ImageName>, Memory>
    ensures { IfOk result (AreMissing bundle.now) }
{
    let names = named_images(alloc, keys, bundle)?;
    lacked(alloc, &bundle.images, names)
}

/// Adds a name to those that were seen, and to those that are listed unless it was seen.
fn add_once(
    alloc: Global,
    seen: &mut NamedRows<Present>,
    once: &mut Items<Text>,
    name: &Text,
) -> Result<(), Memory>
    requires { once.old ≡ map (λ row. row.0) seen.old }
    ensures seen { OnOk result (once.new ≡ map (λ row. row.0) seen.new) }
    ensures once { OnOk result (once.new ≡ add_name once.old name.now) }
{
    let is_new = seen.add(name.copy(alloc)?, Present)?;
    if is_new {
        once.push(name.copy(alloc)?)?;
    }
    Ok(())
}

/// The names of images, each once, in the order in which they come first.
pub fn each_once(
    alloc: Global,
    keys: RandomState,
    names: &[ImageName],
) -> Result<Items<Text>, Memory>
    ensures { IfOk result (λ once. once ≡ each_once names.now) }
{
    let mut seen = NamedRows::new(alloc, keys);
    let mut once = Items::new(alloc);
    for named in names {
        add_once(alloc, &mut seen, &mut once, &named.name)?;
    }
    Ok(once)
}
