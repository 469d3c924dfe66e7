// What vertices of a graph are.

use crate::buildkit::{A, platform, text, texts};
use exported::{chain_op, context_op, copy_op, exclude_list, image_op, make_dir_op};
use llb::{CopyFiles, FileSource};
use llbmessages::Op;
use named::NamedRows;
use paths::{Name, Path};
use plain::{Bytes, Fault, Items, Memory, Owner, Text};
use std::alloc::Global;
use std::hash::RandomState;
use trees::{Content, CopyOptions};

/// The place of an operation's tree.
fn place(alloc: Global, digest: &str) -> Result<Items<Option<Text>>, Memory> {
    let mut places = Items::new(alloc);
    places.push(Some(text(alloc, digest)?))?;
    Ok(places)
}

/// The empty tree's place, and that of an operation's tree.
fn empty_and(alloc: Global, digest: &str) -> Result<Items<Option<Text>>, Memory> {
    let mut places = Items::new(alloc);
    places.push(None)?;
    places.push(Some(text(alloc, digest)?))?;
    Ok(places)
}

/// A path; what is no path isn't shown.
fn path(alloc: Global, path: &str) -> Result<Path, Memory> {
    match Path::read(alloc, path, &Path::root(alloc)) {
        Ok(path) => Ok(path),
        Err(Fault::Because(_)) | Err(Fault::Memory) => Err(Memory),
    }
}

/// An image that is named by one part.
pub(crate) fn image(alloc: Global, keys: RandomState) -> Result<Op, Memory> {
    let platform = platform(alloc)?;
    let name = text(alloc, "busybox")?;
    image_op(alloc, &platform, &NamedRows::new(alloc, keys), &name)
}

/// A folder in another one.
pub(crate) fn make_dir(alloc: Global) -> Result<Op, Memory> {
    let path = path(alloc, "/srv/app")?;
    let places = place(alloc, A)?;
    let platform = platform(alloc)?;
    make_dir_op(alloc, &platform, places.as_slice(), &path)
}

/// A file of a COPY's own.
fn note(alloc: Global) -> Result<FileSource, Memory> {
    let content = Content::new(alloc, Bytes::from_slice(alloc, b"hi\n")?)?;
    match Name::new(text(alloc, "note")?) {
        Some(name) => Ok(FileSource::Data(name, content)),
        None => Err(Memory),
    }
}

/// A pattern whose first component is a name, and a file of the COPY's own.
fn sources(alloc: Global) -> Result<Items<FileSource>, Memory> {
    let mut sources = Items::new(alloc);
    sources.push(FileSource::Pattern(text(alloc, r"\[x\]/*.c")?))?;
    sources.push(note(alloc)?)?;
    Ok(sources)
}

/// What a COPY brings into a folder, all of it with another owner.
fn files(alloc: Global) -> Result<CopyFiles, Memory> {
    let dest = path(alloc, "/dst")?;
    match sources(alloc) {
        Ok(sources) => Ok(CopyFiles {
            sources,
            dest,
            options: CopyOptions {
                into: true,
                owner: Some(Owner {
                    user: 0,
                    group: 1000,
                }),
                mode: None,
            },
        }),
        Err(memory) => Err(memory),
    }
}

/// A copy into the empty tree.
pub(crate) fn copy(alloc: Global) -> Result<Op, Memory> {
    let files = files(alloc)?;
    let places = empty_and(alloc, A)?;
    let platform = platform(alloc)?;
    copy_op(alloc, &platform, places.as_slice(), &files)
}

/// Paths whose names have what means more in a pattern than itself: a `!` and blanks at the ends, parentheses, a `*`, a quote and a `\`.
fn left_out(alloc: Global) -> Result<Items<Path>, Memory> {
    let mut left = Items::new(alloc);
    for text in ["/!a/ ", "/ b (c) ", r#"/x.y$/*"\"#] {
        left.push(path(alloc, text)?)?;
    }
    Ok(left)
}

/// The files that a build is given, without these paths.
pub(crate) fn context(alloc: Global) -> Result<Op, Memory> {
    let left = left_out(alloc)?;
    let excludes = exclude_list(alloc, left.as_slice())?;
    context_op(alloc, "u1", &excludes, &None)
}

/// Trees that are laid over each other by copies.
pub(crate) fn chain(alloc: Global, digests: &[&str]) -> Result<Op, Memory> {
    let digests = texts(alloc, digests)?;
    let platform = platform(alloc)?;
    chain_op(alloc, &platform, digests.as_slice())
}
