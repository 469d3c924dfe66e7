// The names of the images that a bundle brings.
ghost use Rattle.std.specs.Prelude.{◌≡◌, codes, map, IfOk};
ghost use Rattle.std.specs.List.{list_any};
ghost use Rattle.serde_json.specs.Find.{as_object, get};
ghost use Rattle.serde_json.specs.Read.{read};
ghost use Rattle.borrowed.specs.Seen.{data_of};
ghost use Rattle.checks.specs.Images.{names_of, names_at, names_in, bytes_names, image_names_within, image_names};
ghost use Rattle.checks.specs.PrivateImages.{needs_images, AreShownAlike};

use borrowed::{FromLent, at, read_rows};
use expand::{Reason, Rejection};
use json::{Scratch, Value};
use plain::limits::MOST_BUNDLE_BYTES;
use plain::{Code, Fault, Items, Memory, Text};
use std::alloc::Global;
use strict::ReadFault;

/// An image that isn't looked at.
#[derive(Drop)]
struct Unread;

impl FromLent for Unread {
    ghost use Rattle.checks.specs.PrivateImages.{unread};

    ghost reading = { unread };

    fn from_lent(_alloc: Global, _value: &Value<'_>) -> Result<Unread, ReadFault> {
        Ok(Unread)
    }
}

/// The names of images.
fn names_of(alloc: Global, images: Items<(Text, Unread)>) -> Result<Items<Text>, Memory>
    ensures { IfOk result (λ names. names ≡ map (λ row. row.0) images) }
{
    let mut names = Items::new(alloc);
    for (name, _unread) in images.into_vec() {
        names.push(name)?;
    }
    Ok(names)
}

/// The keys of an object, in the order of their bytes; what is no object has none.
fn keys_of(alloc: Global, value: &Value<'_>) -> Result<Items<Text>, Memory>
    ensures { IfOk result (λ names. names ≡ names_of (as_object (data_of value.now))) }
{
    match read_rows::<Unread>(alloc, value) {
        Ok(images) => names_of(alloc, images),
        Err(Fault::Because(_)) => Ok(Items::new(alloc)),
        Err(Fault::Memory) => Err(Memory),
    }
}

/// The names of the images of a bundle's JSON.
fn names_at(alloc: Global, value: &Value<'_>) -> Result<Items<Text>, Memory>
    ensures { IfOk result (λ names. names ≡ names_at (get (codes "images") (data_of value.now))) }
{
    match at(value, "images") {
        Some(images) => keys_of(alloc, images),
        None => Ok(Items::new(alloc)),
    }
}

/// The same of its text. What is lent of it ends here.
fn names_in(alloc: Global, text: &str) -> Result<Items<Text>, Memory>
    ensures { IfOk result (λ names. names ≡ names_in (read text.now)) }
{
    let mut scratch = Scratch::new(alloc);
    match borrowed::read(alloc, text, &mut scratch) {
        Ok(value) => {
            let names = names_at(alloc, &value);
            drop(value);
            names
        }
        Err(Fault::Because(_)) => Ok(Items::new(alloc)),
        Err(Fault::Memory) => Err(Memory),
    }
}

/// The same of its bytes.
#[tactic(auto, unfolding(crate::specs::Images::bytes_names))]
fn bytes_names(alloc: Global, bytes: &[u8]) -> Result<Items<Text>, Memory>
    ensures { IfOk result (λ names. names ≡ bytes_names bytes.now) }
{
    match str::from_utf8(bytes) {
        Ok(text) => names_in(alloc, text),
        Err(_) => Ok(Items::new(alloc)),
    }
}

/// The same of bytes of which there may be so many.
#[tactic(auto, unfolding(crate::specs::Images::image_names_within))]
fn image_names_within(alloc: Global, most: usize, bytes: &[u8]) -> Result<Items<Text>, Memory>
    ensures { IfOk result (λ names. names ≡ image_names_within most bytes.now) }
{
    if bytes.len() > most {
        return Ok(Items::new(alloc));
    }
    bytes_names(alloc, bytes)
}

/// The names of the images of the bundle that bytes are.
#[tactic(auto, unfolding(plain::specs::Limits::most_bundle_bytes))]
fn image_names(alloc: Global, bytes: &[u8]) -> Result<Items<Text>, Memory>
    ensures { IfOk result (λ names. names ≡ image_names bytes.now) }
{
    image_names_within(alloc, MOST_BUNDLE_BYTES, bytes)
}

/// Whether a fault is shown by the names of images.
fn needs_images(reason: &Reason) -> bool
    ensures { result ≡ needs_images reason.now }
{
    match reason {
        Reason::Coded(Code::R12) => true,
        Reason::Coded(_) | Reason::Required(_) => false,
    }
}

/// Whether one of these faults is.
fn need_images(faults: &[Rejection]) -> bool
    ensures { result ≡ list_any (λ fault. needs_images fault.reason) faults.now }
{
    for fault in faults {
        if needs_images(&fault.reason) {
            return true;
        }
    }
    false
}

/// Names of images by which these faults of a bundle are shown as by all. For them the bundle is read again, since what was read of it finds an image by its
/// name and lists none; that is done only if a fault is shown by them.
pub(crate) fn images_for(
    alloc: Global,
    bytes: &[u8],
    faults: &[Rejection],
) -> Result<Items<Text>, Memory>
    ensures { IfOk result (λ images. AreShownAlike images (image_names bytes.now) faults.now) }
{
    if need_images(faults) {
        return image_names(alloc, bytes);
    }
    Ok(Items::new(alloc))
}
