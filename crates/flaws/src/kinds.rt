// How the parts of a bundle are looked at.

ghost use Rattle.std.specs.Prelude.{◌≡◌, IfOk};
ghost use Rattle.borrowed.specs.Seen.{data_of};
ghost use Rattle.flaws.specs.Flaws.{files_flaw, named_flaw, bundle_flaw};

use crate::entry::{EntryList, content};
use crate::flaw::Step;
use crate::keys::{image_names, no_other};
use crate::looking::{Look, optional, read_as, read_keyed, required, rows};
use borrowed::FromLentKeyed;
use bundle::read_digest;
use json::Value;
use plain::{Fault, Items, Memory, Text};
use std::alloc::Global;
use std::hash::RandomState;
use std::marker::PhantomData;

/// A text.
struct AnyText;

impl Look for AnyText {
    ghost use Rattle.serde_json.specs.Find.{as_str};
    ghost use Rattle.flaws.specs.Looks.{read_as};

    ghost looks = { read_as as_str };

    fn look(
        alloc: Global,
        _keys: RandomState,
        value: &Value<'_>,
    ) -> Result<Option<Items<Step>>, Memory> {
        read_as::<Text>(alloc, value)
    }
}

/// A Dockerfile.
struct DockerfileObject;

impl Look for DockerfileObject {
    ghost use Rattle.flaws.specs.Flaws.{dockerfile_flaw};

    ghost looks = { dockerfile_flaw };

    fn look(
        alloc: Global,
        keys: RandomState,
        value: &Value<'_>,
    ) -> Result<Option<Items<Step>>, Memory> {
        match no_other(alloc, keys, value, &["hex", "text"])? {
            Some(way) => Ok(Some(way)),
            None => content(alloc, value),
        }
    }
}

/// An image's configuration, which is of the caller's kind.
struct Configuration<C> {
    kind: PhantomData<C>,
}

impl<C: FromLentKeyed> Look for Configuration<C> {
    ghost use Rattle.flaws.specs.Looks.{read_as};

    ghost looks = { read_as C.reading };

    fn look(
        alloc: Global,
        keys: RandomState,
        value: &Value<'_>,
    ) -> Result<Option<Items<Step>>, Memory> {
        read_keyed::<C>(alloc, keys, value)
    }
}

/// The digest of an image.
struct Digest;

impl Look for Digest {
    ghost use Rattle.bundle.specs.Digest.{digest_in};
    ghost use Rattle.flaws.specs.Looks.{read_as};

    ghost looks = { read_as digest_in };

    fn look(
        alloc: Global,
        _keys: RandomState,
        value: &Value<'_>,
    ) -> Result<Option<Items<Step>>, Memory> {
        match read_digest(alloc, value) {
            Ok(digest) => {
                drop(digest);
                Ok(None)
            }
            Err(Fault::Because(_)) => Ok(Some(Items::new(alloc))),
            Err(Fault::Memory) => Err(Memory),
        }
    }
}

/// An image.
struct ImageObject<C> {
    kind: PhantomData<C>,
}

impl<C: FromLentKeyed> Look for ImageObject<C> {
    ghost use Rattle.flaws.specs.Flaws.{image_flaw};

    ghost looks = { image_flaw C.reading };

    fn look(
        alloc: Global,
        keys: RandomState,
        value: &Value<'_>,
    ) -> Result<Option<Items<Step>>, Memory> {
        if let Some(way) = no_other(alloc, keys, value, &["config", "digest", "tree"])? {
            return Ok(Some(way));
        }
        if let Some(way) = required::<Configuration<C>>(alloc, keys, value, "config")? {
            return Ok(Some(way));
        }
        if let Some(way) = optional::<Digest>(alloc, keys, value, "digest")? {
            return Ok(Some(way));
        }
        required::<EntryList>(alloc, keys, value, "tree")
    }
}

/// Images by their names.
struct ImageRows<C> {
    kind: PhantomData<C>,
}

impl<C: FromLentKeyed> Look for ImageRows<C> {
    ghost use Rattle.flaws.specs.Flaws.{images_flaw};

    ghost looks = { images_flaw C.reading };

    fn look(
        alloc: Global,
        keys: RandomState,
        value: &Value<'_>,
    ) -> Result<Option<Items<Step>>, Memory> {
        match image_names(alloc, keys, value)? {
            Some(way) => Ok(Some(way)),
            None => rows::<ImageObject<C>>(alloc, keys, value),
        }
    }
}

/// Build arguments by their names.
struct ArgumentRows;

impl Look for ArgumentRows {
    ghost use Rattle.serde_json.specs.Find.{as_str};
    ghost use Rattle.flaws.specs.Looks.{read_as, rows};

    ghost looks = { rows (read_as as_str) };

    fn look(
        alloc: Global,
        keys: RandomState,
        value: &Value<'_>,
    ) -> Result<Option<Items<Step>>, Memory> {
        rows::<AnyText>(alloc, keys, value)
    }
}

/// Lists of entries by the ids of caches.
struct CacheRows;

impl Look for CacheRows {
    ghost use Rattle.flaws.specs.Looks.{rows};
    ghost use Rattle.flaws.specs.Flaws.{listing_flaw};

    ghost looks = { rows listing_flaw };

    fn look(
        alloc: Global,
        keys: RandomState,
        value: &Value<'_>,
    ) -> Result<Option<Items<Step>>, Memory> {
        rows::<EntryList>(alloc, keys, value)
    }
}

/// Where the Dockerfile, the context or the target of a bundle is wrong.
fn files(alloc: Global, keys: RandomState, value: &Value<'_>) -> Result<Option<Items<Step>>, Memory>
    ensures { IfOk result (λ found. found ≡ files_flaw (data_of value.now)) }
{
    if let Some(way) = required::<DockerfileObject>(alloc, keys, value, "dockerfile")? {
        return Ok(Some(way));
    }
    if let Some(way) = optional::<EntryList>(alloc, keys, value, "context")? {
        return Ok(Some(way));
    }
    optional::<AnyText>(alloc, keys, value, "target")
}

/// Where what a build may name is wrong.
fn named<C: FromLentKeyed>(
    alloc: Global,
    keys: RandomState,
    value: &Value<'_>,
) -> Result<Option<Items<Step>>, Memory>
    ensures { IfOk result (λ found. found ≡ named_flaw C.reading (data_of value.now)) }
{
    if let Some(way) = optional::<ImageRows<C>>(alloc, keys, value, "images")? {
        return Ok(Some(way));
    }
    if let Some(way) = optional::<ArgumentRows>(alloc, keys, value, "args")? {
        return Ok(Some(way));
    }
    optional::<CacheRows>(alloc, keys, value, "caches")
}

/// Where the JSON of a bundle is wrong.
pub(crate) fn bundle<C: FromLentKeyed>(
    alloc: Global,
    keys: RandomState,
    value: &Value<'_>,
) -> Result<Option<Items<Step>>, Memory>
    ensures { IfOk result (λ found. found ≡ bundle_flaw C.reading (data_of value.now)) }
{
    if let Some(way) = no_other(
        alloc,
        keys,
        value,
        &[
            "args",
            "caches",
            "context",
            "dockerfile",
            "images",
            "target",
        ],
    )? {
        return Ok(Some(way));
    }
    match files(alloc, keys, value)? {
        Some(way) => Ok(Some(way)),
        None => named::<C>(alloc, keys, value),
    }
}
