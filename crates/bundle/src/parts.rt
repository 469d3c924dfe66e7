// What a bundle says, key by key. Its context is a list of entries here, which its ignore file filters later. The JSON is lent, and what is read
// of it is copied: a part holds nothing that is lent.

ghost use Rattle.std.specs.Prelude.{◌≡◌, [], codes, map, IfOk, OnOk};
ghost use Rattle.std.specs.List.{list_all};
ghost use Rattle.std.specs.Option.{option_and_then};
ghost use Rattle.std.specs.FinMap.{empty, from_entries};
ghost use Rattle.serde_json.specs.Find.{get};
ghost use Rattle.strict.specs.Gives.{Gives};
ghost use Rattle.strict.specs.Strict.{at_most_one};
ghost use Rattle.borrowed.specs.Seen.{data_of};
ghost use Rattle.borrowed.specs.Lent.{lent_data};
ghost use Rattle.entries.specs.Listing.{listing_in};
ghost use Rattle.bundle.specs.Digest.{digest_in};
ghost use Rattle.bundle.specs.Parts.{or_none, dockerfile_in, files_in, is_image_name, images_of, images_with, with_digest, digests_of, read_with, images_in, no_images, args_in, cache_row, caches_in, named_in, parts_in};

use crate::digest::read_digest;
use borrowed::{
    FromLent, FromLentKeyed, at, is_strict, keyed_of, keyed_rows, one_at, optional_at, read_rows,
};
use entries::{ListedTree, Listing, read_content};
use json::Value;
use named::NamedRows;
use plain::{Bytes, Exact, Fault, Items, Memory, Text};
use plans::{Image, Images};
use scopes::Args;
use std::alloc::Global;
use std::hash::RandomState;
use strict::{NotRead, ReadFault};
use trees::Tree;

/// The files of a build and its target.
#[derive(Drop)]
pub struct Files {
    /// The Dockerfile's bytes.
    pub dockerfile: Bytes,
    /// The context, as it is listed.
    pub context: Listing,
    /// The target's text, if one is given.
    pub target: Option<Text>,
}

/// What a build may name.
#[derive(Drop)]
pub struct Named<C> {
    pub images: Images<C>,
    /// The digests that pin images' names, by these names.
    pub digests: NamedRows<Text>,
    pub args: Args,
    /// The trees of the common contents of caches, by the caches' ids.
    pub caches: Items<(Text, Tree)>,
}

/// What a bundle holds, key by key.
#[derive(Drop)]
pub struct Parts<C> {
    pub files: Files,
    pub named: Named<C>,
}

/// An image, as it is written.
#[derive(Drop)]
pub struct ListedImage<C> {
    pub config: C,
    /// The digest that pins its name, if one is given.
    pub digest: Option<Text>,
    pub tree: ListedTree,
}

/// The images of a bundle.
#[derive(Drop)]
pub struct ReadImages<C> {
    pub images: Images<C>,
    /// The digests that pin their names, by these names.
    pub digests: NamedRows<Text>,
}

impl<C: FromLentKeyed> FromLentKeyed for ListedImage<C> {
    ghost use Rattle.bundle.specs.Parts.{image_in};

    ghost reading = { image_in C.reading };

    #[tactic(auto, unfolding(crate::specs::Parts::image_in))]
    fn from_lent_keyed(
        alloc: Global,
        keys: RandomState,
        value: &Value<'_>,
    ) -> Result<ListedImage<C>, ReadFault> {
        if !is_strict(value, &["config", "digest", "tree"]) {
            return Err(Fault::Because(NotRead));
        }
        let config: C = keyed_of(alloc, keys, at(value, "config"))?;
        let digest = digest_of(alloc, at(value, "digest"))?;
        let tree: ListedTree = one_at(alloc, value, "tree")?;
        Ok(ListedImage {
            config,
            digest,
            tree,
        })
    }
}

/// An image's digest, if it has one.
pub(crate) fn digest_of(alloc: Global, value: Option<&Value<'_>>) -> Result<Option<Text>, ReadFault>
    ensures { Gives result (at_most_one digest_in (lent_data value.entry)) }
{
    match value {
        Some(value) => Ok(Some(read_digest(alloc, value)?)),
        None => Ok(None),
    }
}

/// The bytes of the Dockerfile that a value is.
#[tactic(auto, unfolding(crate::specs::Parts::dockerfile_in))]
fn read_dockerfile(alloc: Global, value: &Value<'_>) -> Result<Bytes, ReadFault>
    ensures { Gives result (dockerfile_in (data_of value.now)) }
{
    if !is_strict(value, &["hex", "text"]) {
        return Err(Fault::Because(NotRead));
    }
    read_content(alloc, value)
}

/// The Dockerfile, which has to be there.
pub(crate) fn dockerfile_of(alloc: Global, value: Option<&Value<'_>>) -> Result<Bytes, ReadFault>
    ensures { Gives result (option_and_then dockerfile_in (lent_data value.entry)) }
{
    match value {
        Some(value) => read_dockerfile(alloc, value),
        None => Err(Fault::Because(NotRead)),
    }
}

/// The context that stands in an object, the empty list where none does.
fn context_at(alloc: Global, value: &Value<'_>) -> Result<Listing, ReadFault>
    ensures { Gives result (or_none [] listing_in (get (codes "context") (data_of value.now))) }
{
    match at(value, "context") {
        Some(value) => Listing::from_lent(alloc, value),
        None => Ok(Listing::empty(alloc)),
    }
}

/// The Dockerfile, the context and the target.
#[tactic(auto, unfolding(crate::specs::Parts::files_in))]
fn read_files(alloc: Global, value: &Value<'_>) -> Result<Files, ReadFault>
    ensures { Gives result (files_in (data_of value.now)) }
{
    let dockerfile = dockerfile_of(alloc, at(value, "dockerfile"))?;
    let context = context_at(alloc, value)?;
    let target: Option<Text> = optional_at(alloc, value, "target")?;
    Ok(Files {
        dockerfile,
        context,
        target,
    })
}

/// Whether an image may have a name: it is neither empty nor `scratch`.
fn is_image_name(name: &Text) -> bool
    ensures { result ≡ is_image_name name.now }
{
    name.len() != 0 && name.as_str() != "scratch"
}

/// Whether each of these images has a name that an image may have.
fn are_image_names<C>(rows: &[(Text, ListedImage<C>)]) -> bool
    ensures { result ≡ list_all (λ row. is_image_name row.0) rows.now }
{
    for row in rows {
        if !is_image_name(&row.0) {
            return false;
        }
    }
    true
}

/// Images by their names, each with the tree of its entries.
fn images_of<C: Drop>(
    alloc: Global,
    rows: Items<(Text, ListedImage<C>)>,
) -> Result<Images<C>, Memory>
    ensures { IfOk result (λ images. images ≡ images_of rows) }
{
    let mut left = rows.into_vec();
    let mut images = Images::new(alloc);
    while let Some((name, image)) = left.pop() {
        let ListedImage {
            config,
            digest: _,
            tree,
        } = image;
        let tree = tree.into_tree();
        let _none = images.insert(name, Image { config, tree })?;
    }
    Ok(images)
}

/// Gives a name its digest, if it has one.
fn put_digest(
    alloc: Global,
    digests: &mut NamedRows<Text>,
    name: &Text,
    digest: &Option<Text>,
) -> Result<(), Memory>
    ensures { OnOk result (digests.new ≡ with_digest digests.old name.now digest.now) }
{
    let Some(digest) = digest else {
        return Ok(());
    };
    let name = name.copy(alloc)?;
    let digest = digest.copy(alloc)?;
    digests.set(name, digest)
}

/// The digests of images by the images' names, of those that have one.
fn digests_of<C>(
    alloc: Global,
    keys: RandomState,
    rows: &[(Text, ListedImage<C>)],
) -> Result<NamedRows<Text>, Memory>
    ensures { IfOk result (λ digests. digests ≡ digests_of rows.now) }
{
    let mut digests = NamedRows::new(alloc, keys);
    for row in rows {
        put_digest(alloc, &mut digests, &row.0, &row.1.digest)?;
    }
    Ok(digests)
}

/// The images of these rows, with their digests.
fn read_with<C: Drop>(
    alloc: Global,
    keys: RandomState,
    rows: Items<(Text, ListedImage<C>)>,
) -> Result<ReadImages<C>, Memory>
    ensures { IfOk result (λ read. read ≡ read_with rows) }
{
    let digests = digests_of(alloc, keys, rows.as_slice())?;
    match images_of(alloc, rows) {
        Ok(images) => Ok(ReadImages { images, digests }),
        Err(memory) => {
            drop(digests);
            Err(memory)
        }
    }
}

/// The images of these rows, if each has a name that an image may have.
pub(crate) fn images_with<C: Drop>(
    alloc: Global,
    keys: RandomState,
    rows: Items<(Text, ListedImage<C>)>,
) -> Result<ReadImages<C>, ReadFault>
    ensures { Gives result (images_with rows) }
{
    if !are_image_names(rows.as_slice()) {
        drop(rows);
        return Err(Fault::Because(NotRead));
    }
    Ok(read_with(alloc, keys, rows)?)
}

/// No image.
pub(crate) fn no_images<C: Drop>(alloc: Global, keys: RandomState) -> ReadImages<C>
    ensures { result ≡ no_images }
{
    ReadImages {
        images: Images::new(alloc),
        digests: NamedRows::new(alloc, keys),
    }
}

/// The images that a value is, each under its name.
#[tactic(auto, unfolding(crate::specs::Parts::images_in))]
fn read_images<C: FromLentKeyed>(
    alloc: Global,
    keys: RandomState,
    value: &Value<'_>,
) -> Result<ReadImages<C>, ReadFault>
    ensures { Gives result (images_in C.reading (data_of value.now)) }
{
    let rows: Items<(Text, ListedImage<C>)> = keyed_rows(alloc, keys, value)?;
    images_with(alloc, keys, rows)
}

/// Build arguments by their names.
fn args_of(alloc: Global, keys: RandomState, rows: Items<(Text, Text)>) -> Result<Args, Memory>
    ensures { IfOk result (λ args. args ≡ from_entries rows) }
{
    let mut left = rows.into_vec();
    let mut args = Args::new(alloc, keys);
    while let Some((name, value)) = left.pop() {
        args.set(alloc, name.as_str(), value.as_str())?;
    }
    Ok(args)
}

/// The build arguments that a value is.
#[tactic(auto, unfolding(crate::specs::Parts::args_in))]
fn read_args(alloc: Global, keys: RandomState, value: &Value<'_>) -> Result<Args, ReadFault>
    ensures { Gives result (args_in (data_of value.now)) }
{
    let rows: Items<(Text, Text)> = read_rows(alloc, value)?;
    Ok(args_of(alloc, keys, rows)?)
}

/// The trees of lists of entries, under the ids that these have.
pub(crate) fn caches_of(
    alloc: Global,
    rows: Items<(Text, ListedTree)>,
) -> Result<Items<(Text, Tree)>, Memory>
    ensures { IfOk result (λ caches. caches ≡ map cache_row rows) }
{
    let mut caches = Items::new(alloc);
    for (id, listed) in rows.into_vec() {
        caches.push((id, listed.into_tree()))?;
    }
    Ok(caches)
}

/// What caches hold at first, by their ids.
#[tactic(auto, unfolding(crate::specs::Parts::caches_in))]
fn read_caches(alloc: Global, value: &Value<'_>) -> Result<Items<(Text, Tree)>, ReadFault>
    ensures { Gives result (caches_in (data_of value.now)) }
{
    let rows: Items<(Text, ListedTree)> = read_rows(alloc, value)?;
    Ok(caches_of(alloc, rows)?)
}

/// The images that stand in an object, none where there is no such key.
fn images_at<C: FromLentKeyed>(
    alloc: Global,
    keys: RandomState,
    value: &Value<'_>,
) -> Result<ReadImages<C>, ReadFault>
    ensures { Gives result (or_none no_images (images_in C.reading) (get (codes "images") (data_of value.now))) }
{
    match at(value, "images") {
        Some(value) => read_images(alloc, keys, value),
        None => Ok(no_images(alloc, keys)),
    }
}

/// The build arguments, none where they are missing.
pub(crate) fn args_or_none(
    alloc: Global,
    keys: RandomState,
    value: Option<&Value<'_>>,
) -> Result<Args, ReadFault>
    ensures { Gives result (or_none empty args_in (lent_data value.entry)) }
{
    match value {
        Some(value) => read_args(alloc, keys, value),
        None => Ok(Args::new(alloc, keys)),
    }
}

/// What caches hold at first, as it stands in an object: nothing where there is no such key.
fn caches_at(alloc: Global, value: &Value<'_>) -> Result<Items<(Text, Tree)>, ReadFault>
    ensures { Gives result (or_none [] caches_in (get (codes "caches") (data_of value.now))) }
{
    match at(value, "caches") {
        Some(value) => read_caches(alloc, value),
        None => Ok(Items::new(alloc)),
    }
}

/// What a build may name.
#[tactic(auto, unfolding(crate::specs::Parts::named_in))]
fn read_named<C: FromLentKeyed>(
    alloc: Global,
    keys: RandomState,
    value: &Value<'_>,
) -> Result<Named<C>, ReadFault>
    ensures { Gives result (named_in C.reading (data_of value.now)) }
{
    let ReadImages { images, digests } = images_at(alloc, keys, value)?;
    let args = args_or_none(alloc, keys, at(value, "args"))?;
    let caches = caches_at(alloc, value)?;
    Ok(Named {
        images,
        digests,
        args,
        caches,
    })
}

/// The bundle that a value is.
#[tactic(auto, unfolding(crate::specs::Parts::parts_in))]
pub(crate) fn read_parts<C: FromLentKeyed>(
    alloc: Global,
    keys: RandomState,
    value: &Value<'_>,
) -> Result<Parts<C>, ReadFault>
    ensures { Gives result (parts_in C.reading (data_of value.now)) }
{
    if !is_strict(
        value,
        &[
            "args",
            "caches",
            "context",
            "dockerfile",
            "images",
            "target",
        ],
    ) {
        return Err(Fault::Because(NotRead));
    }
    match read_files(alloc, value) {
        Ok(files) => match read_named(alloc, keys, value) {
            Ok(named) => Ok(Parts { files, named }),
            Err(fault) => {
                drop(files);
                Err(fault)
            }
        },
        Err(fault) => Err(fault),
    }
}
