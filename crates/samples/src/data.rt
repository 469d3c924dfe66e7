use paths::Path;
use plain::{Bytes, Items, Memory, Text};
use std::alloc::Global;
use trees::{Content, Entry, LentEntry, Meta, Tree};

/// The path that a text leads to from the root; the root itself where it leads past a limit.
pub fn path(alloc: Global, text: &str) -> Result<Path, Memory> {
    match Path::read(alloc, text, &Path::root(alloc)) {
        Ok(path) => Ok(path),
        Err(_) => Ok(Path::root(alloc)),
    }
}

/// The pieces of a text between its spaces.
pub fn texts(alloc: Global, text: &str) -> Result<Items<Text>, Memory> {
    let mut texts = Items::new(alloc);
    for piece in text.split(' ') {
        texts.push(Text::from_str(alloc, piece)?)?;
    }
    Ok(texts)
}

/// The tree of these files, each a path and its text, 0644 and 0:0. One that can't be put there is left out.
pub fn tree(alloc: Global, files: &[(&str, &str)]) -> Result<Tree, Memory> {
    let mut tree = Tree::empty(alloc);
    for (name, text) in files {
        let bytes = Bytes::from_slice(alloc, text.as_bytes())?;
        let entry = Entry::File(Meta::file(), Content::new(alloc, bytes)?);
        let _ = tree.put(alloc, &path(alloc, name)?, entry);
    }
    Ok(tree)
}

/// The entries of a tree but for its root, in path order: a directory's path and `/`, or a file's path, `=` and its text, each behind a
/// space.
pub fn listing(alloc: Global, tree: &Tree) -> Result<String, Memory> {
    let mut list = String::new(alloc);
    for (path, entry) in tree.entries(alloc)? {
        push_entry(alloc, &mut list, &path, &entry)?;
    }
    Ok(list)
}

fn push_entry(
    alloc: Global,
    list: &mut String,
    path: &Path,
    entry: &LentEntry<'_>,
) -> Result<(), Memory> {
    if path.is_root() {
        return Ok(());
    }
    let path = path.text(alloc)?;
    list.push_str(" ")?;
    list.push_str(path.as_str())?;
    match entry {
        LentEntry::Directory(_) => Ok(list.push_str("/")?),
        LentEntry::File(_, content) => {
            list.push_str("=")?;
            Ok(list.push_str(std::str::from_utf8(content.as_slice()).unwrap_or("?"))?)
        }
    }
}
