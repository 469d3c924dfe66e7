ghost use Rattle.std.specs.Prelude.{◌≡◌, IfOk};
ghost use Rattle.std.specs.Option.{option_and_then};
ghost use Rattle.contexts.specs.Context.{IsListing, IsContext};
ghost use Rattle.plain.specs.declared.refusal.Code.TheVariants.{R19, R20};
ghost use Rattle.serde_json.specs.Read.{read};
ghost use Rattle.strict.specs.Gives.{Gives};
ghost use Rattle.bundle.specs.Parts.{parts_in, parts_within, parts_of};
ghost use Rattle.bundle.specs.Reading.{is_ignore_path, bytes_in, ignore_bytes, told_line, IsBundle, Completes, ReadsBundle};
ghost use Rattle.bundle.specs.IgnoreFile.{ReadsIgnoreFile, ignore_bytes_of};
ghost use Rattle.bundle.specs.PrivateIgnore.{FindsIgnore};

use crate::parts::{Files, Named, Parts, read_parts};
use crate::pulling::pull_text;
use borrowed::FromLentKeyed;
use cachemounts::CacheStore;
use contexts::Context;
use entries::Listing;
use ignorefile::Ignore;
use json::Scratch;
use named::NamedRows;
use paths::Path;
use plain::limits::MOST_BUNDLE_BYTES;
use plain::{Bytes, Code, Fault, Memory, Refusal, Text};
use plans::Images;
use scopes::Args;
use std::alloc::Global;
use std::hash::RandomState;
use std::thread::Threads;
use strict::{NotRead, ReadFault};
use trees::{Entry, Tree};

/// What a build is made from. `C` is what an image's configuration is read as.
#[derive(Drop)]
pub struct Bundle<C> {
    /// The bytes of the Dockerfile, which need not be text.
    pub dockerfile: Bytes,
    /// The build's own folder, filtered by its ignore file.
    pub context: Tree,
    pub images: Images<C>,
    /// The digests that pin images' names, by these names.
    pub digests: NamedRows<Text>,
    pub args: Args,
    /// What caches hold at first; nobody holds any of them.
    pub caches: CacheStore,
    /// The target's text, if one is given.
    pub target: Option<Text>,
}

/// The ignore file of a context.
#[derive(Drop)]
pub struct IgnoreFile {
    /// Its bytes, none where the context has none.
    pub bytes: Bytes,
    /// The lines that these say.
    pub lines: Ignore,
}

/// Whether a path is `/.dockerignore`.
fn is_ignore_path(path: &Path) -> bool
    ensures { result ≡ is_ignore_path path.now }
{
    match path.components() {
        [] => false,
        [name] => name.as_str() == ".dockerignore",
        [_, _, ..] => false,
    }
}

/// The bytes of a file; a directory has none.
fn bytes_in(entry: &Entry) -> &[u8]
    ensures { result.now ≡ bytes_in entry.now }
{
    match entry {
        Entry::Directory(_) => &[],
        Entry::File(_, content) => content.as_slice(),
    }
}

/// The bytes of a context's ignore file, none where it has none.
fn ignore_bytes(rows: &[(Path, Entry)]) -> &[u8]
    ensures { result.now ≡ ignore_bytes rows.now }
{
    for row in rows {
        if is_ignore_path(&row.0) {
            return bytes_in(&row.1);
        }
    }
    &[]
}

/// The refusal of an ignore file with a bad line.
fn bad_ignore(number: usize) -> Refusal
    ensures { result ≡ record { code = R19; line = told_line number } }
{
    Refusal {
        code: Code::R19,
        line: u32::try_from(number).unwrap_or(u32::MAX),
    }
}

/// The tree of a context, as its ignore file filters it.
#[tactic(auto, using(crate::proofs::ListingFacts::listing))]
fn filtered(
    alloc: Global,
    rt: &(impl Threads + Sync),
    context: Listing,
    ignore: Ignore,
) -> Result<Tree, Memory>
    ensures tree { IfOk result (λ tree. IsContext context ignore tree) }
    ensures listing { IfOk result (λ tree. IsListing context) }
{
    let rows = context.into_rows();
    let context = Context::build(alloc, rt, rows, ignore)?;
    Ok(context.into_tree())
}

/// The bundle of these files and of what a build may name, its context filtered.
fn complete_filtered<C: Drop>(
    alloc: Global,
    rt: &(impl Threads + Sync),
    files: Files,
    named: Named<C>,
    ignore: Ignore,
) -> Result<Bundle<C>, Memory>
    ensures { IfOk result (λ bundle. IsBundle (record { files = files; named = named }) ignore bundle) }
{
    let Files {
        dockerfile,
        context,
        target,
    } = files;
    let Named {
        images,
        digests,
        args,
        caches,
    } = named;
    match filtered(alloc, rt, context, ignore) {
        Ok(context) => match CacheStore::with_common(alloc, caches.into_vec()) {
            Ok(caches) => Ok(Bundle {
                dockerfile,
                context,
                images,
                digests,
                args,
                caches,
                target,
            }),
            Err(memory) => {
                drop(dockerfile);
                drop(context);
                drop(images);
                drop(digests);
                drop(args);
                drop(target);
                Err(memory)
            }
        },
        Err(memory) => {
            drop(dockerfile);
            drop(images);
            drop(digests);
            drop(args);
            drop(caches);
            drop(target);
            Err(memory)
        }
    }
}

/// The bundle of its parts.
pub(crate) fn complete<C: Drop>(
    alloc: Global,
    rt: &(impl Threads + Sync),
    parts: Parts<C>,
) -> Result<Bundle<C>, Fault<Refusal>>
    ensures { Completes parts result }
{
    let Parts { files, named } = parts;
    match Ignore::read(alloc, ignore_bytes(files.context.rows())) {
        Ok(ignore) => Ok(complete_filtered(alloc, rt, files, named, ignore)?),
        Err(Fault::Because(bad)) => {
            drop(files);
            drop(named);
            Err(Fault::Because(bad_ignore(bad.number)))
        }
        Err(Fault::Memory) => {
            drop(files);
            drop(named);
            Err(Fault::Memory)
        }
    }
}

/// The ignore file of a context, as it is listed.
fn ignore_in(alloc: Global, context: &Listing) -> Result<IgnoreFile, Fault<Refusal>>
    ensures { FindsIgnore context.now result }
{
    let bytes = Bytes::from_slice(alloc, ignore_bytes(context.rows()))?;
    match Ignore::read(alloc, bytes.as_slice()) {
        Ok(lines) => Ok(IgnoreFile { bytes, lines }),
        Err(Fault::Because(bad)) => Err(Fault::Because(bad_ignore(bad.number))),
        Err(Fault::Memory) => Err(Fault::Memory),
    }
}

/// The parts of a bundle's text. In most bundles the rows of each image and cache come in the order of a walk, so it is first read as if they
/// did.
fn parts_in_text<C: FromLentKeyed>(
    alloc: Global,
    keys: RandomState,
    rt: &(impl Threads + Sync),
    text: &str,
) -> Result<Parts<C>, ReadFault>
    ensures { Gives result (option_and_then (parts_in C.reading) (read text.now)) }
{
    match pull_text(alloc, keys, rt, text, true) {
        Ok(parts) => Ok(parts),
        Err(Fault::Memory) => Err(Fault::Memory),
        Err(Fault::Because(_)) => parts_in_any_order(alloc, keys, rt, text),
    }
}

/// The parts of a bundle's text, in which rows may come in any order. Most bundles are read token by token; what can't be told so is read as
/// a value.
fn parts_in_any_order<C: FromLentKeyed>(
    alloc: Global,
    keys: RandomState,
    rt: &(impl Threads + Sync),
    text: &str,
) -> Result<Parts<C>, ReadFault>
    ensures { Gives result (option_and_then (parts_in C.reading) (read text.now)) }
{
    match pull_text(alloc, keys, rt, text, false) {
        Ok(parts) => Ok(parts),
        Err(Fault::Memory) => Err(Fault::Memory),
        Err(Fault::Because(_)) => parts_in_value(alloc, keys, text),
    }
}

/// The parts of a bundle's text, which is read as a value. What is lent of it ends here.
fn parts_in_value<C: FromLentKeyed>(
    alloc: Global,
    keys: RandomState,
    text: &str,
) -> Result<Parts<C>, ReadFault>
    ensures { Gives result (option_and_then (parts_in C.reading) (read text.now)) }
{
    let mut scratch = Scratch::new(alloc);
    match borrowed::read(alloc, text, &mut scratch) {
        Ok(value) => {
            let parts = read_parts(alloc, keys, &value);
            drop(value);
            parts
        }
        Err(fault) => Err(fault),
    }
}

/// The parts of a bundle of at most so many bytes.
fn parts_within<C: FromLentKeyed>(
    alloc: Global,
    keys: RandomState,
    rt: &(impl Threads + Sync),
    most: usize,
    bytes: &[u8],
) -> Result<Parts<C>, ReadFault>
    ensures { Gives result (parts_within most C.reading bytes.now) }
{
    if bytes.len() > most {
        return Err(Fault::Because(NotRead));
    }
    match str::from_utf8(bytes) {
        Ok(text) => parts_in_text(alloc, keys, rt, text),
        Err(_) => Err(Fault::Because(NotRead)),
    }
}

/// The parts of a bundle.
#[tactic(auto, unfolding(plain::specs::Limits::most_bundle_bytes))]
pub(crate) fn parts_of<C: FromLentKeyed>(
    alloc: Global,
    keys: RandomState,
    rt: &(impl Threads + Sync),
    bytes: &[u8],
) -> Result<Parts<C>, ReadFault>
    ensures { Gives result (parts_of C.reading bytes.now) }
{
    parts_within(alloc, keys, rt, MOST_BUNDLE_BYTES, bytes)
}

/// The refusal of bytes that are no bundle.
pub(crate) fn no_bundle() -> Refusal
    ensures { result ≡ record { code = R20; line = 0 } }
{
    Refusal {
        code: Code::R20,
        line: 0,
    }
}

/// Reads a bundle: JSON in any spelling, of at most 67,108,864 bytes. The context is filtered by its own file `/.dockerignore`, in several
/// threads.
///
/// R20 without a line where the bytes are no bundle: they aren't JSON, a key is missing that has to be there, or is there that isn't known,
/// or a value has a wrong type or is out of range; else R19 with the first bad line of the ignore file.
pub fn read_bundle<C: FromLentKeyed>(
    alloc: Global,
    keys: RandomState,
    rt: &(impl Threads + Sync),
    bytes: &[u8],
) -> Result<Bundle<C>, Fault<Refusal>>
    ensures { ReadsBundle C.reading bytes.now result }
{
    match parts_of(alloc, keys, rt, bytes) {
        Ok(parts) => complete(alloc, rt, parts),
        Err(Fault::Because(_)) => Err(Fault::Because(no_bundle())),
        Err(Fault::Memory) => Err(Fault::Memory),
    }
}

/// Reads the ignore file of a bundle. The bundle is read whole, and its context isn't filtered. The refusals are those of `read_bundle`.
pub fn read_ignore_file<C: FromLentKeyed>(
    alloc: Global,
    keys: RandomState,
    rt: &(impl Threads + Sync),
    bytes: &[u8],
) -> Result<IgnoreFile, Fault<Refusal>>
    ensures { ReadsIgnoreFile C.reading bytes.now result }
{
    let parts: Result<Parts<C>, ReadFault> = parts_of(alloc, keys, rt, bytes);
    match parts {
        Ok(parts) => {
            let found = ignore_in(alloc, &parts.files.context);
            drop(parts);
            found
        }
        Err(Fault::Because(_)) => Err(Fault::Because(no_bundle())),
        Err(Fault::Memory) => Err(Fault::Memory),
    }
}

/// Reads the bytes of the ignore file of a bundle, none where it has none. Unlike for `read_ignore_file`, its lines may be bad: they are not
/// looked at, so the line that a refusal with R19 is about can be shown. `NotRead` where the bytes are no bundle.
pub fn read_ignore_bytes<C: FromLentKeyed>(
    alloc: Global,
    keys: RandomState,
    rt: &(impl Threads + Sync),
    bytes: &[u8],
) -> Result<Bytes, ReadFault>
    ensures { Gives result (ignore_bytes_of C.reading bytes.now) }
{
    let parts: Result<Parts<C>, ReadFault> = parts_of(alloc, keys, rt, bytes);
    match parts {
        Ok(parts) => {
            let found = Bytes::from_slice(alloc, ignore_bytes(parts.files.context.rows()));
            drop(parts);
            Ok(found?)
        }
        Err(fault) => Err(fault),
    }
}
