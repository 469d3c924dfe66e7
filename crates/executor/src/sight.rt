ghost use Rattle.std.specs.Prelude.{◌≡◌, Option, Some, IfOk, OnOk, slice_get, slice_set};
ghost use Rattle.std.specs.FinMap.{get};
ghost use Rattle.trees.specs.TreeMap.{TreeMap};
ghost use Rattle.executor.specs.PrivateOutcome.{Gives, SeesNext, SeesTree, RunsTo};
ghost use Rattle.executor.specs.Places.{bind_from, path_from, place_in, place_of};
ghost use Rattle.executor.specs.Edits.{first_sight, bind_tree, bytes_of, seen_after, seen_with, held_with, with_bind_if, changed, with_change};
ghost use Rattle.executor.specs.Fixture.{bytes_in, bytes_or_refused};

use crate::Request;
use crate::edit::{Change, Edit, change_tree};
use crate::place::{find_bind, find_cache, path_from};
use crate::stop::{IN_CACHE, REFUSED, Stop};
use paths::Path;
use plain::{Bytes, Exact, Fault, Memory};
use runs::RunBind;
use std::alloc::Global;
use std::marker::Model;
use trees::{LentEntry, Tree};

/// What the commands of a run see, but for what caches hold.
#[derive(Drop)]
pub(crate) struct Sight {
    root: Tree,
    /// For each bind the tree that it has been written to be. A bind that is only read is never copied.
    own: Vec<Option<Tree>>,
}

impl Model for Sight {
    ghost use Rattle.executor.specs.Edits.{SightValue, sight_code};

    ghost Value = { SightValue };

    ghost coded = { sight_code };

    ghost view = { λ sight. record { root = sight.root; own = sight.own.items } };
}

impl Sight {
    /// What the first command of a run sees.
    pub(crate) fn first(alloc: Global, request: &Request) -> Result<Sight, Memory>
        ensures { IfOk result (λ sight. sight ≡ first_sight request.now) }
    {
        let root = request.root.copy(alloc)?;
        let mut own = Vec::new(alloc);
        for _bind in request.binds.as_slice() {
            own.push(None)?;
        }
        Ok(Sight { root, own })
    }

    /// The root, once the run is over.
    pub(crate) fn into_root(self) -> Tree
        ensures { result ≡ self.root }
    {
        let Sight { root, own: _ } = self;
        root
    }

    /// The tree of a bind, by its number.
    fn bind_tree<'a>(&'a self, number: usize, bind: &'a RunBind) -> &'a Tree
        ensures { result.now ≡ bind_tree self.now number bind.now }
    {
        match self.own.get(number) {
            Some(Some(tree)) => tree,
            _ => &bind.tree,
        }
    }

    /// A copy of the bytes of the file at a path.
    pub(crate) fn read(&self, alloc: Global, request: &Request, path: &Path) -> Result<Bytes, Stop>
        ensures { Gives (bytes_in self.now (place_of request.now path.now)) result }
    {
        if find_cache(request, path).is_some() {
            return Err(Fault::Because(IN_CACHE));
        }
        match find_bind(request, path) {
            Some((number, bind)) => {
                let path = path_from(alloc, &bind.target, path)?;
                read_file(alloc, self.bind_tree(number, bind), &path)
            }
            None => read_file(alloc, &self.root, path),
        }
    }

    /// The tree of a bind, to be changed: the one that it was written to be, or a copy of the one that was mounted.
    fn take_tree(&mut self, alloc: Global, number: usize, bind: &RunBind) -> Result<Tree, Memory>
        ensures tree { IfOk result (λ tree. tree ≡ bind_tree self.old number bind.now) }
        ensures root { OnOk result (self.new.root ≡ self.old.root) }
        ensures others { OnOk result ((own : Option TreeMap) → slice_set self.new.own number own ≡ slice_set self.old.own number own) }
    {
        if number < self.own.len() {
            if let Some(tree) = self.own[number].take() {
                return Ok(tree);
            }
        }
        bind.tree.copy(alloc)
    }

    /// Makes a change in the tree of a bind, unless that is only read.
    fn change_bind(
        &mut self,
        alloc: Global,
        number: usize,
        bind: &RunBind,
        path: &Path,
        change: Change,
    ) -> Result<(), Stop>
        ensures { SeesNext (with_bind_if bind.now.rw self.old number (changed (bind_tree self.old number bind.now) path.now change)) self.new result }
    {
        if !bind.rw {
            return Err(Fault::Because(REFUSED));
        }
        let mut tree = self.take_tree(alloc, number, bind)?;
        change_or_refuse(alloc, &mut tree, path, change)?;
        if number < self.own.len() {
            self.own[number] = Some(tree);
        }
        Ok(())
    }

    /// Makes the change of a command. One in a cache changes the cache alone, and succeeds whatever the cache holds.
    pub(crate) fn apply(
        &mut self,
        alloc: Global,
        request: &Request,
        caches: &mut Vec<Tree>,
        edit: Edit,
    ) -> Result<(), Stop>
        ensures { RunsTo (seen_with request.now self.old (Some edit)) (held_with request.now caches.old.items (Some edit)) self.new caches.new.items result }
    {
        let Edit { path, change } = edit;
        match find_cache(request, &path) {
            Some((number, cache)) => Ok(change_below(
                alloc,
                caches,
                number,
                &cache.target,
                &path,
                change,
            )?),
            None => self.change_seen(alloc, request, &path, change),
        }
    }

    /// Makes the change of a command at a path that leads into no cache.
    fn change_seen(
        &mut self,
        alloc: Global,
        request: &Request,
        path: &Path,
        change: Change,
    ) -> Result<(), Stop>
        ensures { SeesNext (seen_after self.old change (place_in None (bind_from 0 request.now.binds path.now) path.now)) self.new result }
    {
        match find_bind(request, path) {
            Some((number, bind)) => {
                let path = path_from(alloc, &bind.target, path)?;
                self.change_bind(alloc, number, bind, &path, change)
            }
            None => change_or_refuse(alloc, &mut self.root, path, change),
        }
    }
}

/// Makes a change in a tree; where it can't be made, a command ends with status 1.
fn change_or_refuse(alloc: Global, tree: &mut Tree, path: &Path, change: Change) -> Result<(), Stop>
    ensures { SeesTree (changed tree.old path.now change) tree.new result }
{
    match change_tree(alloc, tree, path, change) {
        Ok(()) => Ok(()),
        Err(Fault::Because(_)) => Err(Fault::Because(REFUSED)),
        Err(Fault::Memory) => Err(Fault::Memory),
    }
}

/// Makes a change in a cache at a path that leads to or under its target; where it can't be made, the cache stays as it was.
fn change_below(
    alloc: Global,
    caches: &mut Vec<Tree>,
    number: usize,
    target: &Path,
    path: &Path,
    change: Change,
) -> Result<(), Memory>
    ensures { OnOk result (caches.new.items ≡ with_change caches.old.items number (path_from target.now path.now) change (slice_get caches.old.items number)) }
{
    match path_from(alloc, target, path) {
        Ok(path) => change_cache(alloc, caches, number, &path, change),
        Err(memory) => {
            drop(change);
            Err(memory)
        }
    }
}

/// Makes a change in a cache; where it can't be made, the cache stays as it was.
fn change_cache(
    alloc: Global,
    caches: &mut Vec<Tree>,
    number: usize,
    path: &Path,
    change: Change,
) -> Result<(), Memory>
    ensures { OnOk result (caches.new.items ≡ with_change caches.old.items number path.now change (slice_get caches.old.items number)) }
{
    if number >= caches.len() {
        return Ok(());
    }
    match change_tree(alloc, &mut caches[number], path, change) {
        Ok(()) => Ok(()),
        Err(Fault::Because(_)) => Ok(()),
        Err(Fault::Memory) => Err(Memory),
    }
}

/// A copy of the bytes of the file at a path of a tree.
fn read_file(alloc: Global, tree: &Tree, path: &Path) -> Result<Bytes, Stop>
    ensures { Gives (bytes_or_refused (bytes_of (get tree.now path.now))) result }
{
    match tree.get(path) {
        Some(LentEntry::File(_, content)) => Ok(Bytes::from_slice(alloc, content.as_slice())?),
        _ => Err(Fault::Because(REFUSED)),
    }
}
