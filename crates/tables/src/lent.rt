// What a store's caches `k` and `l` hold.
ghost use Rattle.std.specs.Prelude.{◌≡◌, [], IfOk};

use crate::reading::path_of;
use cachemounts::CacheStore;
use plain::{Bytes, Fault, Memory, Sharing, Text};
use samples::{cache, listing};
use std::alloc::Global;
use trees::{Content, Entry, Meta, Tree, TreeFault};

/// A store whose cache `k` has one entry, which is a file and its text, `/n=+`, or a directory, `/n`; or none, if no path is given.
pub fn store_with(alloc: Global, entry: &str) -> Result<CacheStore, Memory>
    ensures { IfOk result (λ store. store.holds ≡ []) }
{
    let tree = tree_with(alloc, entry)?;
    match Text::from_str(alloc, "k") {
        Ok(id) => store_of(alloc, id, tree),
        Err(memory) => {
            drop(tree);
            Err(memory)
        }
    }
}

fn store_of(alloc: Global, id: Text, tree: Tree) -> Result<CacheStore, Memory>
    ensures { IfOk result (λ store. store.holds ≡ []) }
{
    let mut trees = Vec::new(alloc);
    match trees.push((id, tree)) {
        Ok(()) => CacheStore::with_common(alloc, trees),
        Err(_) => {
            drop(trees);
            Err(Memory)
        }
    }
}

fn tree_with(alloc: Global, text: &str) -> Result<Tree, Memory> {
    let mut tree = Tree::empty(alloc);
    match put(alloc, &mut tree, text) {
        Ok(()) => Ok(tree),
        Err(_) => {
            drop(tree);
            Err(Memory)
        }
    }
}

fn put(alloc: Global, tree: &mut Tree, text: &str) -> Result<(), TreeFault> {
    if !text.starts_with("/") {
        return Ok(());
    }
    let (name, entry) = match text.split_once('=') {
        Some((name, content)) => (name, file(alloc, content)?),
        None => (text, Entry::Directory(Meta::directory())),
    };
    match path_of(alloc, name) {
        Ok(path) => tree.put(alloc, &path, entry),
        Err(memory) => {
            drop(entry);
            Err(Fault::from(memory))
        }
    }
}

fn file(alloc: Global, text: &str) -> Result<Entry, Memory> {
    let bytes = Bytes::from_slice(alloc, text.as_bytes())?;
    Ok(Entry::File(Meta::file(), Content::new(alloc, bytes)?))
}

/// What the caches hold, as locked uses find them.
pub fn caches_text(alloc: Global, caches: &mut CacheStore) -> Result<String, Memory> {
    let first = held(alloc, caches, "k")?;
    let second = held(alloc, caches, "l")?;
    Ok(format!(in alloc; "; k{first}; l{second}")?)
}

fn held(alloc: Global, caches: &mut CacheStore, id: &str) -> Result<String, Memory> {
    let uses = [cache(alloc, id, "/c", Sharing::Locked)?];
    if !caches.can_take(&uses) {
        return Ok(String::from_str(alloc, " is held")?);
    }
    match caches.take(alloc, &uses) {
        Ok(lease) => {
            let list = match lease.trees().first() {
                Some(tree) => listing(alloc, tree),
                None => Err(Memory),
            };
            caches.release(lease);
            list
        }
        Err(memory) => Err(memory),
    }
}
