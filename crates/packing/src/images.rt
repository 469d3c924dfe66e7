// The JSON of an image, as a file of the machine holds it. It is read from the text of the file, which is lent, and what goes into the bundle is the
// one copy of it.
ghost use Rattle.std.specs.Prelude.{◌≡◌, None, Some, true, codes, is_some, IfOk};
ghost use Rattle.std.specs.Option.{option_and_then, option_map};
ghost use Rattle.serde_json.specs.Find.{get};
ghost use Rattle.serde_json.specs.Read.{read};
ghost use Rattle.serde_json.specs.View.{view};
ghost use Rattle.strict.specs.Gives.{Gives};
ghost use Rattle.borrowed.specs.Lent.{items_data};
ghost use Rattle.borrowed.specs.Seen.{data_of};
ghost use Rattle.entries.specs.Listing.{listing_in};
ghost use Rattle.bundle.specs.Digest.{is_digest};
ghost use Rattle.bundle.specs.Parts.{is_image_name};
ghost use Rattle.packing.specs.Images.{bare_image, given_in, if_image, image_data, image_of, inspected, only_item};
ghost use Rattle.packing.specs.Layout.{layout_image};
ghost use Rattle.packing.specs.PrivateImages.{GivesConfig, GivesDigest, GivesJson, IsDigestRead, if_even, is_among};
ghost use Rattle.packing.specs.PrivateWords.{data_words, words_of};

use crate::even::is_even;
use crate::inspected::config_of_list;
use crate::refusing::{A_MANIFEST, AN_INDEX, NO_IMAGE, NO_JSON, NOT_INSPECTED};
use borrowed::{FromLent, FromLentKeyed, at, is_strict, list_of, owned};
use bundle::read_digest;
use entries::Listing;
use imageconfig::Config;
use json::{Scratch, Value as Lent};
use plain::{Fault, Memory, Text};
use serde_json::{Map, Value};
use std::alloc::Global;
use std::hash::RandomState;
use strict::{NotRead, ReadFault, put};

/// How deep the JSON of an image may nest. It stands two deep in a bundle, of which 127 are read.
const MOST_DEPTH: usize = 125;

/// The JSON of the image that the text of a file gives. `NotRead` where it gives none.
#[tactic(auto, unfolding(crate::specs::Images::image_of))]
pub(crate) fn read_image(alloc: Global, keys: RandomState, text: &str) -> Result<Value, ReadFault>
    ensures { GivesJson result (image_of text.now) }
{
    let mut scratch = Scratch::new(alloc);
    match borrowed::read(alloc, text, &mut scratch) {
        Ok(value) => {
            let image = image_given(alloc, keys, &value);
            drop(value);
            image
        }
        Err(fault) => Err(fault),
    }
}

/// Why the text of a file that gives no image gives none.
pub(crate) fn words_of(alloc: Global, text: &str) -> Result<&'static str, Memory>
    ensures { IfOk result (λ words. words.now ≡ words_of (read text.now)) }
{
    let mut scratch = Scratch::new(alloc);
    match borrowed::read(alloc, text, &mut scratch) {
        Ok(value) => {
            let words = words_of_value(&value);
            drop(value);
            Ok(words)
        }
        Err(Fault::Because(_)) => Ok(NO_JSON),
        Err(Fault::Memory) => Err(Memory),
    }
}

/// Why JSON that is no image is none.
fn words_of_value(value: &Lent<'_>) -> &'static str
    ensures { result.now ≡ data_words (data_of value.now) }
{
    if let Some(_) = list_of(value) {
        return NOT_INSPECTED;
    }
    if let Some(_) = at(value, "manifests") {
        return AN_INDEX;
    }
    match at(value, "layers") {
        Some(_) => A_MANIFEST,
        None => NO_IMAGE,
    }
}

/// The image that a file's JSON gives: by its key `tree` it is told whether it has a tree, or is a configuration.
#[tactic(auto, unfolding(crate::specs::Images::given_in))]
fn image_given(alloc: Global, keys: RandomState, value: &Lent<'_>) -> Result<Value, ReadFault>
    ensures { GivesJson result (option_and_then if_image (given_in (data_of value.now))) }
{
    match at(value, "tree") {
        Some(tree) => {
            if !is_strict(value, &["config", "digest", "result", "tree"]) {
                return Err(Fault::Because(NotRead));
            }
            match at(value, "config") {
                Some(config) => image_with_members(alloc, keys, value, config, tree),
                None => Err(Fault::Because(NotRead)),
            }
        }
        None => match list_of(value) {
            Some(values) => image_inspected(alloc, keys, values),
            None => image_without_tree(alloc, keys, value),
        },
    }
}

/// The image of which a list has been printed, as `docker image inspect` does.
#[tactic(auto, using(crate::proofs::ImageFacts::tells_inspected))]
fn image_inspected(
    alloc: Global,
    keys: RandomState,
    values: &[Lent<'_>],
) -> Result<Value, ReadFault>
    ensures { GivesJson result (option_and_then if_image (option_map bare_image (option_and_then inspected (only_item (items_data values.now))))) }
{
    match config_of_list(alloc, values) {
        Ok(config) => image_of_config(alloc, keys, config),
        Err(fault) => Err(fault),
    }
}

/// The image of a configuration, without a digest and with the empty tree.
#[tactic(auto, using(crate::proofs::ImageFacts::gives_bare, crate::proofs::ImageFacts::tells_bare))]
fn image_of_config(alloc: Global, keys: RandomState, config: Value) -> Result<Value, ReadFault>
    ensures { GivesJson result (if_image (bare_image (view config))) }
{
    match Config::from_json(alloc, keys, &config) {
        Ok(read) => {
            drop(read);
            even_image(alloc, config, None, Value::Array(Vec::new(alloc)))
        }
        Err(fault) => {
            drop(config);
            Err(fault)
        }
    }
}

/// The image of a configuration and a tree, with the digest that stands beside them, if one does.
fn image_with_members(
    alloc: Global,
    keys: RandomState,
    value: &Lent<'_>,
    config: &Lent<'_>,
    tree: &Lent<'_>,
) -> Result<Value, ReadFault>
    ensures { GivesJson result (if_image (image_data (data_of config.now) (get (codes "digest") (data_of value.now)) (data_of tree.now))) }
{
    match digest_given(alloc, value) {
        Ok(digest) => image_with_tree(alloc, keys, config, digest, tree),
        Err(fault) => Err(fault),
    }
}

/// The digest that stands in an object, if one does.
fn digest_given(alloc: Global, value: &Lent<'_>) -> Result<Option<Value>, ReadFault>
    ensures { GivesDigest result (get (codes "digest") (data_of value.now)) }
{
    match at(value, "digest") {
        Some(digest) => {
            drop(read_digest(alloc, digest)?);
            Ok(Some(owned(alloc, digest)?))
        }
        None => Ok(None),
    }
}

/// The image of a configuration, of a digest that is read, if there is one, and of a tree.
fn image_with_tree(
    alloc: Global,
    keys: RandomState,
    config: &Lent<'_>,
    digest: Option<Value>,
    tree: &Lent<'_>,
) -> Result<Value, ReadFault>
    requires { IsDigestRead digest }
    ensures { GivesJson result (if_image (image_data (data_of config.now) (option_map view digest) (data_of tree.now))) }
{
    let listing: Result<Listing, ReadFault> = Listing::from_lent(alloc, tree);
    match listing {
        Ok(listing) => {
            drop(listing);
            image_of_lent(alloc, keys, config, digest, tree)
        }
        Err(fault) => {
            drop(digest);
            Err(fault)
        }
    }
}

/// The image of a configuration and a tree that is read, both lent, and of a digest that is read, if there is one.
fn image_of_lent(
    alloc: Global,
    keys: RandomState,
    config: &Lent<'_>,
    digest: Option<Value>,
    tree: &Lent<'_>,
) -> Result<Value, ReadFault>
    requires digest { IsDigestRead digest }
    requires tree { is_some (listing_in (data_of tree.now)) ≡ true }
    ensures { GivesJson result (if_image (image_data (data_of config.now) (option_map view digest) (data_of tree.now))) }
{
    match owned(alloc, tree) {
        Ok(tree) => image_of_parts(alloc, keys, config, digest, tree),
        Err(Memory) => {
            drop(digest);
            Err(Fault::Memory)
        }
    }
}

/// The image of a configuration, without a digest and with the empty tree.
fn image_without_tree(
    alloc: Global,
    keys: RandomState,
    config: &Lent<'_>,
) -> Result<Value, ReadFault>
    ensures { GivesJson result (if_image (bare_image (data_of config.now))) }
{
    image_of_parts(alloc, keys, config, None, Value::Array(Vec::new(alloc)))
}

/// The image that a layout has, whose manifest has this digest and names the configuration that is the text of a file. `NotRead` where that is none.
#[tactic(auto, using(crate::proofs::ImageFacts::digest_is_read, crate::proofs::ImageFacts::gives_layout, crate::proofs::ImageFacts::tells_layout))]
pub(crate) fn read_layout_image(
    alloc: Global,
    keys: RandomState,
    digest: Text,
    text: &str,
) -> Result<Value, ReadFault>
    requires { is_digest digest ≡ true }
    ensures { GivesJson result (layout_image digest (read text.now)) }
{
    let digest = Value::String(digest.into_string(alloc)?);
    let mut scratch = Scratch::new(alloc);
    match borrowed::read(alloc, text, &mut scratch) {
        Ok(config) => {
            let tree = Value::Array(Vec::new(alloc));
            let image = image_of_parts(alloc, keys, &config, Some(digest), tree);
            drop(config);
            image
        }
        Err(fault) => {
            drop(digest);
            Err(fault)
        }
    }
}

/// The image of a configuration, and of a digest and a tree that are read.
fn image_of_parts(
    alloc: Global,
    keys: RandomState,
    config: &Lent<'_>,
    digest: Option<Value>,
    tree: Value,
) -> Result<Value, ReadFault>
    requires digest { IsDigestRead digest }
    requires tree { is_some (listing_in (view tree)) ≡ true }
    ensures { GivesJson result (if_image (image_data (data_of config.now) (option_map view digest) (view tree))) }
{
    match read_owned(alloc, keys, config) {
        Ok(config) => even_image(alloc, config, digest, tree),
        Err(fault) => {
            drop(digest);
            drop(tree);
            Err(fault)
        }
    }
}

/// A copy of a configuration that is read. `NotRead` where it is none.
fn read_owned(alloc: Global, keys: RandomState, config: &Lent<'_>) -> Result<Value, ReadFault>
    ensures { GivesConfig result (data_of config.now) }
{
    let read: Config = Config::from_lent_keyed(alloc, keys, config)?;
    drop(read);
    Ok(owned(alloc, config)?)
}

/// An image that is read, if it can be written in a bundle and read again.
#[tactic(auto, using(crate::proofs::EvenFacts::even_is))]
fn even_image(
    alloc: Global,
    config: Value,
    digest: Option<Value>,
    tree: Value,
) -> Result<Value, ReadFault>
    ensures { GivesJson result (if_even (image_data (view config) (option_map view digest) (view tree))) }
{
    let image = image_value(alloc, config, digest, tree)?;
    if is_even(&image, MOST_DEPTH) {
        return Ok(image);
    }
    drop(image);
    Err(Fault::Because(NotRead))
}

/// The object of an image.
fn image_value(
    alloc: Global,
    config: Value,
    digest: Option<Value>,
    tree: Value,
) -> Result<Value, Memory>
    ensures { IfOk result (λ image. view image ≡ image_data (view config) (option_map view digest) (view tree)) }
{
    match digest {
        Some(digest) => pinned_image(alloc, config, digest, tree),
        None => free_image(alloc, config, tree),
    }
}

/// The object of an image with a digest.
fn pinned_image(alloc: Global, config: Value, digest: Value, tree: Value) -> Result<Value, Memory>
    ensures { IfOk result (λ image. view image ≡ image_data (view config) (Some (view digest)) (view tree)) }
{
    let mut members = Map::new(alloc);
    put(alloc, &mut members, "config", config)?;
    put(alloc, &mut members, "digest", digest)?;
    put(alloc, &mut members, "tree", tree)?;
    Ok(Value::Object(members))
}

/// The object of an image without a digest.
fn free_image(alloc: Global, config: Value, tree: Value) -> Result<Value, Memory>
    ensures { IfOk result (λ image. view image ≡ image_data (view config) None (view tree)) }
{
    let mut members = Map::new(alloc);
    put(alloc, &mut members, "config", config)?;
    put(alloc, &mut members, "tree", tree)?;
    Ok(Value::Object(members))
}

/// Whether a name is that of an image: neither empty nor `scratch`.
pub(crate) fn is_image_name(name: &Text) -> bool
    ensures { result ≡ is_image_name name.now }
{
    name.len() != 0 && name.as_str() != "scratch"
}

/// Whether one of these images, of which each has its file beside it, has a name.
pub(crate) fn is_among(name: &Text, images: &[(Text, Text)]) -> bool
    ensures { result ≡ is_among name.now images.now }
{
    for image in images {
        if name.as_str() == image.0.as_str() {
            return true;
        }
    }
    false
}
