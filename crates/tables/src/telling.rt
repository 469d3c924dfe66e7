use paths::Path;
use plain::Memory;
use std::alloc::Global;
use trees::{LentEntry, Meta, Tree};

/// Ends what was told last, if anything was.
pub fn begin(told: &mut String) -> Result<(), Memory> {
    if !told.is_empty() {
        told.push_str("; ")?;
    }
    Ok(())
}

/// Tells the entries of a tree in order, each as its path, mode, owner and group, and of a file its text.
pub fn push_listing(alloc: Global, told: &mut String, tree: &Tree) -> Result<(), Memory> {
    for (path, entry) in tree.entries(alloc)?.iter() {
        push_entry(alloc, told, path, entry)?;
    }
    Ok(())
}

fn push_entry(
    alloc: Global,
    told: &mut String,
    path: &Path,
    entry: &LentEntry<'_>,
) -> Result<(), Memory> {
    begin(told)?;
    told.push_str(path.text(alloc)?.as_str())?;
    told.push_str(" ")?;
    push_meta(told, entry.meta())?;
    Ok(told.push_str(text_of(entry))?)
}

/// Tells the mode and owner of a tree's root.
pub fn push_root(told: &mut String, tree: &Tree) -> Result<(), Memory> {
    begin(told)?;
    push_meta(told, tree.root())
}

/// Tells a mode, an owner and a group.
fn push_meta(told: &mut String, meta: Meta) -> Result<(), Memory> {
    let mode = meta.mode.bits();
    let user = meta.uid;
    let group = meta.gid;
    Ok(write!(told, "{mode:o} {user}:{group}")?)
}

/// The text of a file.
pub fn text_of<'a>(entry: &LentEntry<'a>) -> &'a str {
    match entry {
        LentEntry::Directory(_) => "",
        LentEntry::File(_, content) => std::str::from_utf8(content.as_slice()).unwrap_or("?"),
    }
}

/// Tells a number for all these trees together, which is another one where one of their listings differs, but for a rare chance.
pub fn push_sum(alloc: Global, told: &mut String, trees: &[Tree]) -> Result<(), Memory> {
    let mut all = String::new(alloc);
    for tree in trees {
        push_listing(alloc, &mut all, tree)?;
    }
    let sum = sum_of(all.as_bytes());
    begin(told)?;
    Ok(write!(told, "{sum}")?)
}

/// A number for a text.
pub fn sum_of(bytes: &[u8]) -> u64 {
    let mut sum = 0u64;
    for byte in bytes {
        sum = sum.wrapping_mul(1_000_003).wrapping_add(u64::from(*byte));
    }
    sum
}
