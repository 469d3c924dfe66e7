// `leases`: a name, and after ` | ` each the steps of leases of the cache `k` of a new store. A step names its lease by a number. `LEASE SHARING`, as
// `0 locked`, takes the cache, and `LEASE nothing` takes no cache. `LEASE gives PATH` gives back the tree of this directory alone, and `LEASE gives` no
// tree; `LEASE releases` lets the cache go as it was. `LEASE dropped` lets the lease go without an end, and `LEASE leaves` ends what its holder has.
// `contents` lists what is in the cache.
//
// The answer is the name, and of each step the entries that the lease found, or `refused` if the cache couldn't be taken so, or what was done; and `held`
// or `idle`, whether somebody holds the cache after it. At the end every lease is ended.

use crate::reading::{cut, number, path_of};
use crate::telling::begin;
use cachemounts::{CacheStore, Content, Lease};
use plain::{Memory, Sharing};
use samples::{cache, listing};
use std::alloc::Global;
use trees::Tree;

/// A lease that was taken and not ended, by its name in the row. One that was dropped stays out, as its holder's number.
#[derive(Drop)]
struct Taken {
    name: u32,
    holder: usize,
    lease: Option<Lease>,
}

pub fn answer(alloc: Global, case: &str) -> Result<String, Memory> {
    let (name, steps) = case.split_once(" | ").unwrap_or((case, ""));
    let mut told = String::new(alloc);
    let mut store = CacheStore::new(alloc);
    let mut taken = Vec::new(alloc);
    let done = take_steps(alloc, &mut store, &mut taken, &mut told, steps);
    drop(taken);
    store.release_all();
    let end = idle_text(&store);
    drop(store);
    match done {
        Ok(()) => Ok(format!(in alloc; "{name}: {told}; at the end {end}")?),
        Err(memory) => Err(memory),
    }
}

fn idle_text(store: &CacheStore) -> &'static str {
    if store.is_idle() { "idle" } else { "held" }
}

/// Takes steps in order, and tells what they come to.
fn take_steps(
    alloc: Global,
    store: &mut CacheStore,
    taken: &mut Vec<Taken>,
    told: &mut String,
    steps: &str,
) -> Result<(), Memory> {
    for step in steps.split(" | ") {
        let done = take_step(alloc, store, taken, step)?;
        let after = idle_text(store);
        begin(told)?;
        write!(told, "{done}, {after}")?;
    }
    Ok(())
}

/// Takes a step, and tells what it did.
fn take_step(
    alloc: Global,
    store: &mut CacheStore,
    taken: &mut Vec<Taken>,
    step: &str,
) -> Result<String, Memory> {
    if step == "contents" {
        return contents_text(alloc, store);
    }
    let (name, rest) = cut(step);
    let name = number(name)?;
    let (verb, path) = cut(rest);
    match verb {
        "shared" => use_cache(alloc, store, taken, name, Sharing::Shared),
        "private" => use_cache(alloc, store, taken, name, Sharing::Private),
        "locked" => use_cache(alloc, store, taken, name, Sharing::Locked),
        "nothing" => {
            let lease = store.take(alloc, &[])?;
            keep(alloc, taken, name, lease)
        }
        _ => end(alloc, store, taken, name, verb, path),
    }
}

/// Takes the cache, if it can be taken so.
fn use_cache(
    alloc: Global,
    store: &mut CacheStore,
    taken: &mut Vec<Taken>,
    name: u32,
    sharing: Sharing,
) -> Result<String, Memory> {
    let uses = [cache(alloc, "k", "/c", sharing)?];
    if !store.can_take(&uses) {
        return Ok(String::from_str(alloc, "refused")?);
    }
    let lease = store.take(alloc, &uses)?;
    keep(alloc, taken, name, lease)
}

/// Keeps a lease, and tells what it found.
fn keep(alloc: Global, taken: &mut Vec<Taken>, name: u32, lease: Lease) -> Result<String, Memory> {
    let found = found_text(alloc, lease.trees());
    let holder = lease.holder();
    let lease = Some(lease);
    taken.push(Taken {
        name,
        holder,
        lease,
    })?;
    found
}

/// The entries of a lease's trees.
fn found_text(alloc: Global, trees: &[Tree]) -> Result<String, Memory> {
    let mut found = String::from_str(alloc, "found")?;
    for tree in trees {
        let list = listing(alloc, tree)?;
        found.push_str(list.as_str())?;
    }
    Ok(found)
}

/// Where a lease is among those that were taken; their number if it isn't.
fn place_of(taken: &[Taken], name: u32) -> usize {
    for (at, one) in taken.iter().enumerate() {
        if one.name == name {
            return at;
        }
    }
    taken.len()
}

/// Ends a lease, or drops it, and tells that.
fn end(
    alloc: Global,
    store: &mut CacheStore,
    taken: &mut Vec<Taken>,
    name: u32,
    verb: &str,
    path: &str,
) -> Result<String, Memory> {
    let at = place_of(taken.as_slice(), name);
    if at >= taken.len() {
        return Err(Memory);
    }
    let Taken {
        name,
        holder,
        lease,
    } = taken.remove(at);
    match (verb, lease) {
        ("gives", Some(lease)) => give(alloc, store, lease, path),
        ("releases", Some(lease)) => {
            store.release(lease);
            Ok(String::from_str(alloc, "released")?)
        }
        ("dropped", lease) => {
            drop(lease);
            taken.push(Taken {
                name,
                holder,
                lease: None,
            })?;
            Ok(String::from_str(alloc, "dropped")?)
        }
        (_, lease) => {
            drop(lease);
            store.leave(holder);
            Ok(String::from_str(alloc, "left")?)
        }
    }
}

/// Gives back the tree that has this directory alone, and no tree if there is no path.
fn give(alloc: Global, store: &mut CacheStore, lease: Lease, path: &str) -> Result<String, Memory> {
    match trees_with(alloc, path) {
        Ok(given) if given.len() == store.held_by(lease.holder()) => {
            store.give(lease, given);
            Ok(String::from_str(alloc, "given")?)
        }
        Ok(given) => {
            drop(given);
            drop(lease);
            Err(Memory)
        }
        Err(memory) => {
            drop(lease);
            Err(memory)
        }
    }
}

fn trees_with(alloc: Global, path: &str) -> Result<Vec<Tree>, Memory> {
    let mut given = Vec::new(alloc);
    if path.is_empty() {
        return Ok(given);
    }
    given.push(tree_with(alloc, path)?)?;
    Ok(given)
}

fn tree_with(alloc: Global, path: &str) -> Result<Tree, Memory> {
    let path = path_of(alloc, path)?;
    let mut tree = Tree::empty(alloc);
    match tree.mkdirs(alloc, &path) {
        Ok(()) => Ok(tree),
        Err(_) => {
            drop(tree);
            Err(Memory)
        }
    }
}

/// The entries of each content of the cache.
fn contents_text(alloc: Global, store: &CacheStore) -> Result<String, Memory> {
    let contents = store.contents(alloc)?;
    let told = told_contents(alloc, contents.as_slice());
    drop(contents);
    told
}

fn told_contents(alloc: Global, contents: &[Content]) -> Result<String, Memory> {
    let mut told = String::from_str(alloc, "contents")?;
    for content in contents {
        let list = listing(alloc, &content.tree)?;
        match content.slot {
            Some(slot) => write!(told, " slot {slot}{list}")?,
            None => write!(told, " common{list}")?,
        }
    }
    Ok(told)
}
