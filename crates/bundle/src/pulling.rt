// A bundle that is read token by token. Its lists of files, which are most of it, never stand in memory as JSON.

ghost use Rattle.std.specs.Prelude.{◌≡◌, Option, Some, [], IfOk, OnOk};
ghost use Rattle.std.specs.Option.{option_and_then};
ghost use Rattle.serde_json.specs.Read.{read};
ghost use Rattle.serde_json.specs.Data.{Data, Members, no_members, object, put};
ghost use Rattle.strict.specs.Strict.{at_most_one, rows_in};
ghost use Rattle.borrowed.specs.Lent.{lent_data};
ghost use Rattle.borrowed.specs.Pulled.{IsNext, Pulls};
ghost use Rattle.entries.specs.Listing.{listing_in};
ghost use Rattle.bundle.specs.Parts.{or_none, files_at, image_in, images_in, no_images, caches_in, named_at, parts_in};
ghost use Rattle.bundle.specs.PrivatePulled.{FindsImage, Finds};

use crate::parts::{
    Files, ListedImage, Named, Parts, ReadImages, args_or_none, caches_of, digest_of,
    dockerfile_of, images_with, no_images,
};
use borrowed::{
    FromLentKeyed, MAX_DEPTH, inner_depth, keyed_of, next_key, open_object, optional_of,
    owned_rows, pull_value,
};
use entries::{ListedTree, Listing};
use json::{Reader, Scratch, Value};
use plain::{Fault, Items, Memory, Text};
use std::alloc::Global;
use std::collections::BTreeMap;
use std::hash::RandomState;
use std::thread::Threads;
use strict::{NotRead, ReadFault};
use trees::Tree;

/// What was found at each key that an image may have; of a key that stands twice the last value counts.
struct FoundImage<'a> {
    config: Option<Value<'a>>,
    digest: Option<Value<'a>>,
    tree: Option<ListedTree>,
}

/// It ends by a call, so that no proof goes by what each value is at each place where they are let go.
impl<'a> Drop for FoundImage<'a> {
    fn drop(self) {
        let FoundImage {
            config: _,
            digest: _,
            tree: _,
        } = self;
    }
}

impl<'a> FoundImage<'a> {
    /// Nothing was found yet.
    fn none() -> FoundImage<'a>
        ensures { FindsImage result no_members }
    {
        FoundImage {
            config: None,
            digest: None,
            tree: None,
        }
    }

    /// Reads what comes next as what stands at a key.
    fn pull(
        &mut self,
        alloc: Global,
        rt: &(impl Threads + Sync),
        reader: &mut Reader<'a>,
        depth: usize,
        in_order: bool,
        key: &str,
    ) -> Result<(), ReadFault>
        ensures { OnOk result ((d : Data) × IsNext depth reader.old reader.new d × ((members : Members) → FindsImage self.old members → FindsImage self.new (put key.now d members))) }
    {
        match key {
            "config" => {
                let config = pull_value(alloc, reader, depth)?;
                drop(self.config.replace(config));
            }
            "digest" => {
                let digest = pull_value(alloc, reader, depth)?;
                drop(self.digest.replace(digest));
            }
            "tree" => {
                let tree = ListedTree::pull(alloc, rt, reader, depth, in_order)?;
                drop(self.tree.replace(tree));
            }
            _ => return Err(Fault::Because(NotRead)),
        }
        Ok(())
    }
}

/// What stands at the keys of the image that comes next.
fn pull_image<'a>(
    alloc: Global,
    rt: &(impl Threads + Sync),
    reader: &mut Reader<'a>,
    depth: usize,
    in_order: bool,
) -> Result<FoundImage<'a>, ReadFault>
    ensures { IfOk result (λ found. (members : Members) × IsNext depth reader.old reader.new (object members) × FindsImage found members) }
{
    let inner = inner_depth(depth)?;
    open_object(reader)?;
    let mut found = FoundImage::none();
    while let Some(key) = next_key(reader)? {
        found.pull(alloc, rt, reader, inner, in_order, key)?;
    }
    Ok(found)
}

/// The image of what was found, from which its tree is taken.
fn image_of<C: FromLentKeyed>(
    alloc: Global,
    keys: RandomState,
    found: &mut FoundImage<'_>,
) -> Result<ListedImage<C>, ReadFault>
    ensures { IfOk result (λ image. (members : Members) → FindsImage found.old members → image_in C.reading (object members) ≡ Some image) }
{
    let config: C = keyed_of(alloc, keys, found.config.as_ref())?;
    let digest = digest_of(alloc, found.digest.as_ref())?;
    match found.tree.take() {
        Some(tree) => Ok(ListedImage {
            config,
            digest,
            tree,
        }),
        None => {
            drop(config);
            drop(digest);
            Err(Fault::Because(NotRead))
        }
    }
}

/// The image that comes next.
fn pull_listed_image<C: FromLentKeyed>(
    alloc: Global,
    keys: RandomState,
    rt: &(impl Threads + Sync),
    reader: &mut Reader<'_>,
    depth: usize,
    in_order: bool,
) -> Result<ListedImage<C>, ReadFault>
    ensures { IfOk result (λ image. Pulls depth (image_in C.reading) reader.old reader.new image) }
{
    let mut found = pull_image(alloc, rt, reader, depth, in_order)?;
    let image = image_of(alloc, keys, &mut found);
    drop(found);
    image
}

/// The images that come next, each by its name; of a name that stands twice the last image counts.
fn pull_images<C: FromLentKeyed>(
    alloc: Global,
    keys: RandomState,
    rt: &(impl Threads + Sync),
    reader: &mut Reader<'_>,
    depth: usize,
    in_order: bool,
) -> Result<Items<(Text, ListedImage<C>)>, ReadFault>
    ensures { IfOk result (λ images. Pulls depth (rows_in (image_in C.reading)) reader.old reader.new images) }
{
    let inner = inner_depth(depth)?;
    open_object(reader)?;
    let mut images: BTreeMap<&str, ListedImage<C>> = BTreeMap::new(alloc);
    while let Some(name) = next_key(reader)? {
        let image = pull_listed_image(alloc, keys, rt, reader, inner, in_order)?;
        drop(images.insert(name, image)?);
    }
    Ok(owned_rows(alloc, images)?)
}

/// The contents of caches that come next, each by its cache's id; of an id that stands twice the last content counts.
fn pull_caches(
    alloc: Global,
    rt: &(impl Threads + Sync),
    reader: &mut Reader<'_>,
    depth: usize,
    in_order: bool,
) -> Result<Items<(Text, ListedTree)>, ReadFault>
    ensures { IfOk result (λ caches. Pulls depth (rows_in listing_in) reader.old reader.new caches) }
{
    let inner = inner_depth(depth)?;
    open_object(reader)?;
    let mut caches: BTreeMap<&str, ListedTree> = BTreeMap::new(alloc);
    while let Some(id) = next_key(reader)? {
        let content = ListedTree::pull(alloc, rt, reader, inner, in_order)?;
        drop(caches.insert(id, content)?);
    }
    Ok(owned_rows(alloc, caches)?)
}

/// What was found at each key that a bundle may have; of a key that stands twice the last value counts.
struct Found<'a, C: Drop> {
    args: Option<Value<'a>>,
    caches: Option<Items<(Text, ListedTree)>>,
    context: Option<Listing>,
    dockerfile: Option<Value<'a>>,
    images: Option<Items<(Text, ListedImage<C>)>>,
    target: Option<Value<'a>>,
}

/// It ends by a call, as an image's does.
impl<'a, C: Drop> Drop for Found<'a, C> {
    fn drop(self) {
        let Found {
            args: _,
            caches: _,
            context: _,
            dockerfile: _,
            images: _,
            target: _,
        } = self;
    }
}

impl<'a, C: FromLentKeyed> Found<'a, C> {
    /// Nothing was found yet.
    fn none() -> Found<'a, C>
        ensures { Finds C.reading result no_members }
    {
        Found {
            args: None,
            caches: None,
            context: None,
            dockerfile: None,
            images: None,
            target: None,
        }
    }

    /// Reads what comes next as what stands at a key.
    fn pull(
        &mut self,
        alloc: Global,
        keys: RandomState,
        rt: &(impl Threads + Sync),
        reader: &mut Reader<'a>,
        depth: usize,
        in_order: bool,
        key: &str,
    ) -> Result<(), ReadFault>
        ensures { OnOk result ((d : Data) × IsNext depth reader.old reader.new d × ((members : Members) → Finds C.reading self.old members → Finds C.reading self.new (put key.now d members))) }
    {
        match key {
            "args" => {
                let args = pull_value(alloc, reader, depth)?;
                drop(self.args.replace(args));
            }
            "caches" => {
                let caches = pull_caches(alloc, rt, reader, depth, in_order)?;
                drop(self.caches.replace(caches));
            }
            "context" => {
                let context = Listing::pull(alloc, rt, reader, depth)?;
                drop(self.context.replace(context));
            }
            "dockerfile" => {
                let dockerfile = pull_value(alloc, reader, depth)?;
                drop(self.dockerfile.replace(dockerfile));
            }
            "images" => {
                let images = pull_images(alloc, keys, rt, reader, depth, in_order)?;
                drop(self.images.replace(images));
            }
            "target" => {
                let target = pull_value(alloc, reader, depth)?;
                drop(self.target.replace(target));
            }
            _ => return Err(Fault::Because(NotRead)),
        }
        Ok(())
    }
}

/// What stands at the keys of the bundle that comes next.
fn pull_bundle<'a, C: FromLentKeyed>(
    alloc: Global,
    keys: RandomState,
    rt: &(impl Threads + Sync),
    reader: &mut Reader<'a>,
    depth: usize,
    in_order: bool,
) -> Result<Found<'a, C>, ReadFault>
    ensures { IfOk result (λ found. (members : Members) × IsNext depth reader.old reader.new (object members) × Finds C.reading found members) }
{
    let inner = inner_depth(depth)?;
    open_object(reader)?;
    let mut found = Found::none();
    while let Some(key) = next_key(reader)? {
        found.pull(alloc, keys, rt, reader, inner, in_order, key)?;
    }
    Ok(found)
}

/// The Dockerfile, the context and the target of what stands at their keys.
fn files_of(
    alloc: Global,
    dockerfile: Option<&Value<'_>>,
    context: Option<Listing>,
    target: Option<&Value<'_>>,
) -> Result<Files, ReadFault>
    ensures { IfOk result (λ files. (listed : Option Data) → at_most_one listing_in listed ≡ Some context → files_at (lent_data dockerfile.entry) listed (lent_data target.entry) ≡ Some files) }
{
    let dockerfile = dockerfile_of(alloc, dockerfile)?;
    let target: Option<Text> = optional_of(alloc, target)?;
    let context = context.unwrap_or(Listing::empty(alloc));
    Ok(Files {
        dockerfile,
        context,
        target,
    })
}

/// The images of what stands at their key.
fn images_or_none<C: Drop>(
    alloc: Global,
    keys: RandomState,
    rows: Option<Items<(Text, ListedImage<C>)>>,
) -> Result<ReadImages<C>, ReadFault>
    ensures { IfOk result (λ read. (config : Data → Option C) (images : Option Data) → at_most_one (rows_in (image_in config)) images ≡ Some rows → or_none no_images (images_in config) images ≡ Some read) }
{
    match rows {
        Some(rows) => images_with(alloc, keys, rows),
        None => Ok(no_images(alloc, keys)),
    }
}

/// The first contents of caches, of what stands at their key.
fn caches_or_none(
    alloc: Global,
    rows: Option<Items<(Text, ListedTree)>>,
) -> Result<Items<(Text, Tree)>, Memory>
    ensures { IfOk result (λ trees. (caches : Option Data) → at_most_one (rows_in listing_in) caches ≡ Some rows → or_none [] caches_in caches ≡ Some trees) }
{
    match rows {
        Some(rows) => caches_of(alloc, rows),
        None => Ok(Items::new(alloc)),
    }
}

/// What a build may name, of what stands at the keys.
fn named_of<C: Drop>(
    alloc: Global,
    keys: RandomState,
    images: Option<Items<(Text, ListedImage<C>)>>,
    args: Option<&Value<'_>>,
    caches: Option<Items<(Text, ListedTree)>>,
) -> Result<Named<C>, ReadFault>
    ensures { IfOk result (λ named. (config : Data → Option C) (i c : Option Data) → at_most_one (rows_in (image_in config)) i ≡ Some images → at_most_one (rows_in listing_in) c ≡ Some caches
        → named_at config i (lent_data args.entry) c ≡ Some named) }
{
    let args = args_or_none(alloc, keys, args)?;
    let caches = caches_or_none(alloc, caches)?;
    let read = images_or_none(alloc, keys, images)?;
    Ok(Named {
        images: read.images,
        digests: read.digests,
        args,
        caches,
    })
}

/// The bundle of what was found, from which its lists are taken.
fn parts_of_found<C: FromLentKeyed>(
    alloc: Global,
    keys: RandomState,
    found: &mut Found<'_, C>,
) -> Result<Parts<C>, ReadFault>
    ensures { IfOk result (λ parts. (members : Members) → Finds C.reading found.old members → parts_in C.reading (object members) ≡ Some parts) }
{
    let context = found.context.take();
    let images = found.images.take();
    let caches = found.caches.take();
    match files_of(
        alloc,
        found.dockerfile.as_ref(),
        context,
        found.target.as_ref(),
    ) {
        Ok(files) => match named_of(alloc, keys, images, found.args.as_ref(), caches) {
            Ok(named) => Ok(Parts { files, named }),
            Err(fault) => {
                drop(files);
                Err(fault)
            }
        },
        Err(fault) => {
            drop(images);
            drop(caches);
            Err(fault)
        }
    }
}

/// The parts of the bundle that comes next.
fn pull_parts<C: FromLentKeyed>(
    alloc: Global,
    keys: RandomState,
    rt: &(impl Threads + Sync),
    reader: &mut Reader<'_>,
    depth: usize,
    in_order: bool,
) -> Result<Parts<C>, ReadFault>
    ensures { IfOk result (λ parts. Pulls depth (parts_in C.reading) reader.old reader.new parts) }
{
    let mut found: Found<'_, C> = pull_bundle(alloc, keys, rt, reader, depth, in_order)?;
    let parts = parts_of_found(alloc, keys, &mut found);
    drop(found);
    parts
}

/// The parts of a bundle's text, read token by token. After `NotRead` it may still be a bundle's. If `in_order`, it is `NotRead` also where
/// the rows of an image or a cache don't come in the order of a walk.
pub(crate) fn pull_text<C: FromLentKeyed>(
    alloc: Global,
    keys: RandomState,
    rt: &(impl Threads + Sync),
    text: &str,
    in_order: bool,
) -> Result<Parts<C>, ReadFault>
    ensures { IfOk result (λ parts. option_and_then (parts_in C.reading) (read text.now) ≡ Some parts) }
{
    let mut scratch = Scratch::new(alloc);
    let Ok(mut reader) = Reader::new(text, &mut scratch) else {
        return Err(Fault::Memory);
    };
    let parts = pull_parts(alloc, keys, rt, &mut reader, MAX_DEPTH, in_order)?;
    if reader.next().is_none() {
        return Ok(parts);
    }
    drop(parts);
    Err(Fault::Because(NotRead))
}
