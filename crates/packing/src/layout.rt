// The image of an OCI image layout, a folder of the machine: `index.json` names a manifest by its digest, and that a configuration. The files of a
// layout are found by their digests and not hashed: the machine's own disk is believed, as all files of images are.
ghost use Rattle.std.specs.Prelude.{◌≡◌, Some, option_map, true, IfErr, IfOk};
ghost use Rattle.std.specs.Option.{option_and_then};
ghost use Rattle.serde_json.specs.Find.{as_array, get};
ghost use Rattle.serde_json.specs.Read.{read};
ghost use Rattle.serde_json.specs.View.{view};
ghost use Rattle.borrowed.specs.Lent.{items_data};
ghost use Rattle.borrowed.specs.Seen.{data_of};
ghost use Rattle.bundle.specs.Digest.{is_digest};
ghost use Rattle.packing.specs.Ends.{IsBefore};
ghost use Rattle.packing.specs.Images.{is_image};
ghost use Rattle.packing.specs.Layout.{chosen, digest_at, first_of_platform, is_platform, is_text, named_in};

use crate::PackFault;
use crate::finding::place_in;
use crate::images::read_layout_image;
use crate::imaging::file_bytes;
use crate::inspected::only_one;
use crate::refusing::{
    INNER_INDEX, NO_CONFIG, NO_DIGEST, NO_INDEX, NO_LAYOUT_JSON, NO_MANIFEST, NO_PLATFORM, refuse,
    refuse_digest,
};
use borrowed::{at, list_of, text_of};
use bundle::read_digest;
use json::{Scratch, Value as Lent};
use plain::{Bytes, Fault, Text};
use serde_json::Value;
use std::alloc::Global;
use std::hash::RandomState;
use std::rt::Files;

/// The name of a layout's index.
pub(crate) const INDEX: &str = "index.json";

/// What a file of a layout names.
#[derive(Drop)]
pub(crate) struct Named {
    /// Whether that is a configuration, and no manifest or index.
    pub(crate) is_config: bool,
    pub(crate) digest: Text,
}

/// The JSON of the image of the layout in a folder.
pub(crate) fn read_layout<R: Files + AllocGlobal>(
    rt: &R,
    alloc: Global,
    keys: RandomState,
    folder: &str,
    notes: &mut Text,
) -> Result<Value, PackFault>
    ensures before { IfErr result IsBefore }
    ensures image { IfOk result (λ image. is_image (view image) ≡ true) }
{
    let index = place_in(alloc, folder, INDEX)?;
    let Named { is_config, digest } = read_named(rt, alloc, index.as_str(), notes)?;
    if is_config {
        drop(digest);
        return Err(refuse(alloc, notes, index.as_str(), NO_INDEX));
    }
    drop(index);
    read_manifest(rt, alloc, keys, folder, digest, notes)
}

/// The JSON of the image whose manifest has this digest, or an index that lists it.
fn read_manifest<R: Files + AllocGlobal>(
    rt: &R,
    alloc: Global,
    keys: RandomState,
    folder: &str,
    digest: Text,
    notes: &mut Text,
) -> Result<Value, PackFault>
    requires { is_digest digest ≡ true }
    ensures before { IfErr result IsBefore }
    ensures image { IfOk result (λ image. is_image (view image) ≡ true) }
{
    match named_by_blob(rt, alloc, folder, digest.as_str(), notes) {
        Ok(named) if named.is_config => {
            read_config(rt, alloc, keys, folder, digest, &named.digest, notes)
        }
        Ok(named) => {
            drop(digest);
            let Named { digest, .. } = named;
            read_inner(rt, alloc, keys, folder, digest, notes)
        }
        Err(fault) => {
            drop(digest);
            Err(fault)
        }
    }
}

/// The same of an index that another index lists: no third one is followed.
fn read_inner<R: Files + AllocGlobal>(
    rt: &R,
    alloc: Global,
    keys: RandomState,
    folder: &str,
    digest: Text,
    notes: &mut Text,
) -> Result<Value, PackFault>
    requires { is_digest digest ≡ true }
    ensures before { IfErr result IsBefore }
    ensures image { IfOk result (λ image. is_image (view image) ≡ true) }
{
    match named_by_blob(rt, alloc, folder, digest.as_str(), notes) {
        Ok(named) if named.is_config => {
            read_config(rt, alloc, keys, folder, digest, &named.digest, notes)
        }
        Ok(named) => {
            drop(named);
            let place = place_of(alloc, folder, digest.as_str())?;
            Err(refuse(alloc, notes, place.as_str(), INNER_INDEX))
        }
        Err(fault) => {
            drop(digest);
            Err(fault)
        }
    }
}

/// What the file of this digest names in a layout.
fn named_by_blob<R: Files + AllocGlobal>(
    rt: &R,
    alloc: Global,
    folder: &str,
    digest: &str,
    notes: &mut Text,
) -> Result<Named, PackFault>
    ensures before { IfErr result IsBefore }
    ensures digest { IfOk result (λ named. is_digest named.digest ≡ true) }
{
    let place = place_of(alloc, folder, digest)?;
    read_named(rt, alloc, place.as_str(), notes)
}

/// The JSON of the image whose manifest and whose configuration have these digests.
fn read_config<R: Files + AllocGlobal>(
    rt: &R,
    alloc: Global,
    keys: RandomState,
    folder: &str,
    manifest: Text,
    config: &Text,
    notes: &mut Text,
) -> Result<Value, PackFault>
    requires { is_digest manifest ≡ true }
    ensures before { IfErr result IsBefore }
    ensures image { IfOk result (λ image. is_image (view image) ≡ true) }
{
    let place = place_of(alloc, folder, config.as_str())?;
    let bytes = file_bytes(rt, alloc, place.as_str(), notes)?;
    image_of_config(alloc, keys, place.as_str(), manifest, &bytes, notes)
}

/// The JSON of the image whose manifest has this digest and whose configuration is a file of these bytes.
#[tactic(auto, using(crate::proofs::ImageFacts::layout_is))]
fn image_of_config(
    alloc: Global,
    keys: RandomState,
    place: &str,
    manifest: Text,
    bytes: &Bytes,
    notes: &mut Text,
) -> Result<Value, PackFault>
    requires { is_digest manifest ≡ true }
    ensures before { IfErr result IsBefore }
    ensures image { IfOk result (λ image. is_image (view image) ≡ true) }
{
    match str::from_utf8(bytes.as_slice()) {
        Ok(text) => match read_layout_image(alloc, keys, manifest, text) {
            Ok(image) => Ok(image),
            Err(Fault::Memory) => Err(PackFault::Memory),
            Err(Fault::Because(_)) => Err(refuse(alloc, notes, place, NO_CONFIG)),
        },
        Err(_) => {
            drop(manifest);
            Err(refuse(alloc, notes, place, NO_CONFIG))
        }
    }
}

/// The machine's name of the file of this digest in a layout.
fn place_of(alloc: Global, folder: &str, digest: &str) -> Result<String, PackFault>
    ensures { IfErr result IsBefore }
{
    let mut place = place_in(alloc, folder, "blobs/sha256/")?;
    let digits = match digest.strip_prefix("sha256:") {
        Some(digits) => digits,
        None => digest,
    };
    place.push_str(digits)?;
    Ok(place)
}

/// What the file at this place of a layout names.
fn read_named<R: Files + AllocGlobal>(
    rt: &R,
    alloc: Global,
    place: &str,
    notes: &mut Text,
) -> Result<Named, PackFault>
    ensures before { IfErr result IsBefore }
    ensures digest { IfOk result (λ named. is_digest named.digest ≡ true) }
{
    let bytes = file_bytes(rt, alloc, place, notes)?;
    match str::from_utf8(bytes.as_slice()) {
        Ok(text) => named_by_text(alloc, place, text, notes),
        Err(_) => Err(refuse(alloc, notes, place, NO_LAYOUT_JSON)),
    }
}

/// What a file of a layout names whose text this is.
fn named_by_text(
    alloc: Global,
    place: &str,
    text: &str,
    notes: &mut Text,
) -> Result<Named, PackFault>
    ensures before { IfErr result IsBefore }
    ensures named { IfOk result (λ named. option_and_then named_in (read text.now) ≡ Some named) }
    ensures digest { IfOk result (λ named. is_digest named.digest ≡ true) }
{
    let mut scratch = Scratch::new(alloc);
    match borrowed::read(alloc, text, &mut scratch) {
        Ok(value) => {
            let named = named_by(alloc, place, &value, notes);
            drop(value);
            named
        }
        Err(Fault::Memory) => Err(PackFault::Memory),
        Err(Fault::Because(_)) => Err(refuse(alloc, notes, place, NO_LAYOUT_JSON)),
    }
}

/// What a file of a layout names whose JSON this is.
fn named_by(
    alloc: Global,
    place: &str,
    value: &Lent<'_>,
    notes: &mut Text,
) -> Result<Named, PackFault>
    ensures before { IfErr result IsBefore }
    ensures named { IfOk result (λ named. named_in (data_of value.now) ≡ Some named) }
{
    match at(value, "manifests") {
        Some(images) => match chosen_in(images) {
            Some(image) => named_at(alloc, place, image, false, notes),
            None => Err(refuse(alloc, notes, place, NO_PLATFORM)),
        },
        None => match at(value, "config") {
            Some(config) => named_at(alloc, place, config, true, notes),
            None => Err(refuse(alloc, notes, place, NO_MANIFEST)),
        },
    }
}

/// What is named by this descriptor.
#[tactic(auto, using(crate::proofs::ImageFacts::digest_of))]
fn named_at(
    alloc: Global,
    place: &str,
    file: &Lent<'_>,
    is_config: bool,
    notes: &mut Text,
) -> Result<Named, PackFault>
    ensures before { IfErr result IsBefore }
    ensures named { IfOk result (λ named. (digest_at (Some (data_of file.now)) ≡ Some named.digest) × (named.is_config ≡ is_config)) }
{
    let Some(value) = at(file, "digest") else {
        return Err(refuse(alloc, notes, place, NO_DIGEST));
    };
    match read_digest(alloc, value) {
        Ok(digest) => Ok(Named { is_config, digest }),
        Err(Fault::Memory) => Err(PackFault::Memory),
        Err(Fault::Because(_)) => match text_of(value) {
            Some(text) => Err(refuse_digest(alloc, notes, place, text)),
            None => Err(refuse(alloc, notes, place, NO_DIGEST)),
        },
    }
}

/// The image of an index that is taken, if there is one.
fn chosen_in<'v, 'a>(images: &'v Lent<'a>) -> Option<&'v Lent<'a>>
    ensures { option_map (λ v. data_of v.now) result ≡ option_and_then chosen (as_array (data_of images.now)) }
{
    match list_of(images) {
        Some(images) => chosen(images),
        None => None,
    }
}

/// Of these images the first for the platform, or else the only one.
fn chosen<'v, 'a>(images: &'v [Lent<'a>]) -> Option<&'v Lent<'a>>
    ensures { option_map (λ v. data_of v.now) result ≡ chosen (items_data images.now) }
{
    match first_of_platform(images) {
        Some(image) => Some(image),
        None => only_one(images),
    }
}

/// The first image for the platform.
fn first_of_platform<'v, 'a>(images: &'v [Lent<'a>]) -> Option<&'v Lent<'a>>
    ensures { option_map (λ v. data_of v.now) result ≡ first_of_platform (items_data images.now) }
{
    for image in images {
        if is_platform(at(image, "platform")) {
            return Some(image);
        }
    }
    None
}

/// Whether a platform is linux/amd64.
fn is_platform(platform: Option<&Lent<'_>>) -> bool
    ensures { result ≡ is_platform (option_map (λ v. data_of v.now) platform.entry) }
{
    match platform {
        Some(platform) => has_text(platform, "os", "linux")
            && has_text(platform, "architecture", "amd64"),
        None => false,
    }
}

/// Whether a text stands at a key.
fn has_text(value: &Lent<'_>, key: &str, text: &str) -> bool
    ensures { result ≡ is_text text.now (get key.now (data_of value.now)) }
{
    match at(value, key) {
        Some(found) => match text_of(found) {
            Some(found) => found == text,
            None => false,
        },
        None => false,
    }
}
