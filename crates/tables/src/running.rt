ghost use Rattle.std.specs.Prelude.{◌≡◌, ◌∷◌, [], codes, map, ◌+◌, length, vec_len, IsTrue, IfOk, OnOk};
ghost use Rattle.paths.specs.Path.{IsClean};
ghost use Rattle.runs.specs.Run.{fits_request, ids_of};

use crate::changing::put;
use crate::reading::path_of;
use crate::telling::{begin, text_of};
use executor::{Executor, Fixture, Outcome, Request};
use paths::Path;
use plain::{Exact, Items, Memory, Sharing, Text, Variable, VariableName, Variables};
use runs::{CacheUse, RunBind};
use std::alloc::Global;
use trees::{Cause, Meta, Tree};

/// An executor that does nothing, and so is done with the tree that it was handed.
struct Idle;

impl Executor for Idle {
    ghost use Rattle.runs.specs.declared.run.RunOutcome.TheVariants.{Done, Exit};

    ghost out = { λ _ request. Done request.root };

    ghost exits = { λ _ request status e. Prim.cc };

    fn run(
        &self,
        alloc: Global,
        request: &Request,
        _caches: &mut Vec<Tree>,
    ) -> Result<Outcome, Memory> {
        Ok(Outcome::Done(request.root.copy(alloc)?))
    }
}

/// Tells what a script of the fixture ends with: `exit` and a status, or the text of the file `/o`, or `-` where there is none.
pub fn tell_run(alloc: Global, told: &mut String, tree: &Tree, script: &str) -> Result<(), Memory> {
    begin(told)?;
    let mut request = request_on(alloc, tree)?;
    let done = tell_bare(alloc, told, &Fixture, &mut request, script);
    drop(request);
    done
}

/// Tells the same of a script that is handed to an executor which does nothing.
pub fn tell_idle(
    alloc: Global,
    told: &mut String,
    tree: &Tree,
    script: &str,
) -> Result<(), Memory> {
    begin(told)?;
    let mut request = request_on(alloc, tree)?;
    let done = tell_bare(alloc, told, &Idle, &mut request, script);
    drop(request);
    done
}

/// Tells what a script of the fixture ends with, and then the text of the cache's file `/n`. Binds stand at `/m`, which may be written, and
/// at `/r`, which may not, both with `bound` in `/f`; a cache stands at `/c`, with `x` in `/n` and the directory `/k`.
pub fn tell_mounted(
    alloc: Global,
    told: &mut String,
    tree: &Tree,
    script: &str,
) -> Result<(), Memory> {
    begin(told)?;
    let mut request = request_on(alloc, tree)?;
    let mut caches = Vec::new(alloc);
    let done = tell_with_mounts(alloc, told, &mut request, &mut caches, script);
    drop(request);
    drop(caches);
    done
}

/// A request on a tree that asks for nothing.
fn request_on(alloc: Global, tree: &Tree) -> Result<Request, Memory>
    ensures binds { IfOk result (λ request. request.binds ≡ []) }
    ensures caches { IfOk result (λ request. request.caches ≡ []) }
{
    let root = tree.copy(alloc)?;
    Ok(Request {
        root,
        binds: Items::new(alloc),
        caches: Items::new(alloc),
        env: Variables::none(),
        dir: Path::root(alloc),
        user: Text::from_string(String::new(alloc)),
        words: Items::new(alloc),
    })
}

/// Asks for a script, one line for each `;`, in the directory `/d` and the environment `A=1`.
fn ask(alloc: Global, request: &mut Request, script: &str) -> Result<(), Memory>
    ensures binds { request.new.binds ≡ request.old.binds }
    ensures caches { request.new.caches ≡ request.old.caches }
{
    request.dir = path_of(alloc, "/d")?;
    request.user = Text::from_str(alloc, "nobody")?;
    request.env = one_variable(alloc)?;
    push_words(alloc, &mut request.words, script)
}

fn one_variable(alloc: Global) -> Result<Variables, Memory> {
    let name = VariableName::of(Text::from_str(alloc, "A")?);
    let value = Text::from_str(alloc, "1")?;
    let mut rows = Vec::with_capacity(alloc, 1)?;
    rows.push(Variable { name, value })?;
    Variables::of(alloc, rows)
}

fn push_words(alloc: Global, words: &mut Items<Text>, script: &str) -> Result<(), Memory> {
    words.push(Text::from_str(alloc, "/bin/sh")?)?;
    words.push(Text::from_str(alloc, "-c")?)?;
    let script = script.replace(alloc, ";", "\n")?;
    words.push(Text::from_string(script))
}

fn tell_bare<E: Executor>(
    alloc: Global,
    told: &mut String,
    executor: &E,
    request: &mut Request,
    script: &str,
) -> Result<(), Memory>
    requires binds { request.old.binds ≡ [] }
    requires caches { request.old.caches ≡ [] }
{
    ask(alloc, request, script)?;
    if !is_copied_whole(alloc, request)? {
        told.push_str("another request")?;
    }
    let mut caches = Vec::new(alloc);
    let ended = executor.run(alloc, request, &mut caches);
    drop(caches);
    match ended {
        Ok(outcome) => tell_outcome(alloc, told, outcome),
        Err(memory) => Err(memory),
    }
}

fn is_copied_whole(alloc: Global, request: &Request) -> Result<bool, Memory> {
    let copy = request.copy(alloc)?;
    let same = request.same(&copy);
    drop(copy);
    Ok(same)
}

fn tell_with_mounts(
    alloc: Global,
    told: &mut String,
    request: &mut Request,
    caches: &mut Vec<Tree>,
    script: &str,
) -> Result<(), Memory>
    requires binds { request.old.binds ≡ [] }
    requires caches { request.old.caches ≡ [] }
    requires none { vec_len caches.old ≡ 0 }
{
    ask(alloc, request, script)?;
    mount_trees(alloc, &mut request.binds)?;
    mount_cache(alloc, &mut request.caches)?;
    push_cache(alloc, caches)?;
    match Fixture.run(alloc, request, caches) {
        Ok(outcome) => tell_outcome(alloc, told, outcome)?,
        Err(memory) => return Err(memory),
    }
    match caches.first() {
        Some(cache) => {
            told.push_str(" ")?;
            push_text_at(alloc, told, cache, "/n")
        }
        None => Err(Memory),
    }
}

/// Tells an outcome and lets it go.
fn tell_outcome(alloc: Global, told: &mut String, outcome: Outcome) -> Result<(), Memory> {
    let done = tell_lent_outcome(alloc, told, &outcome);
    drop(outcome);
    done
}

fn tell_lent_outcome(alloc: Global, told: &mut String, outcome: &Outcome) -> Result<(), Memory> {
    let copy = outcome.copy(alloc)?;
    if !outcome.same(&copy) {
        told.push_str("another outcome")?;
    }
    drop(copy);
    match outcome {
        Outcome::Done(tree) => push_text_at(alloc, told, tree, "/o"),
        Outcome::Exit(status) => Ok(write!(told, "{}", Cause::Exit(*status))?),
    }
}

/// Tells the text of a file; `-` where none stands there.
fn push_text_at(alloc: Global, told: &mut String, tree: &Tree, name: &str) -> Result<(), Memory> {
    let text = match tree.get(&path_of(alloc, name)?) {
        Some(entry) => text_of(&entry),
        None => "-",
    };
    Ok(told.push_str(text)?)
}

/// The path of one component.
fn under_root(alloc: Global, name: &str) -> Result<Path, Memory>
    requires { IsClean (name.now ∷ []) }
    ensures { IfOk result (λ path. path ≡ name.now ∷ []) }
{
    let name = Text::from_str(alloc, name)?;
    Path::root(alloc).child(alloc, &name)
}

/// The tree of one file.
fn one_file(alloc: Global, name: &str, text: &str) -> Result<Tree, Memory> {
    let mut tree = Tree::empty(alloc);
    match put(alloc, &mut tree, Meta::file(), name, text) {
        Ok(()) => Ok(tree),
        Err(_) => {
            drop(tree);
            Err(Memory)
        }
    }
}

fn bind_at(alloc: Global, name: &str, rw: bool) -> Result<RunBind, Memory>
    requires { IsClean (name.now ∷ []) }
    ensures { IfOk result (λ bind. bind.target ≡ name.now ∷ []) }
{
    let target = under_root(alloc, name)?;
    match one_file(alloc, "/f", "bound") {
        Ok(tree) => Ok(RunBind { target, tree, rw }),
        Err(memory) => {
            drop(target);
            Err(memory)
        }
    }
}

fn mount_trees(alloc: Global, binds: &mut Items<RunBind>) -> Result<(), Memory>
    requires { binds.old ≡ [] }
    ensures { OnOk result (map (λ bind. bind.target) binds.new ≡ (codes "m" ∷ []) ∷ (codes "r" ∷ []) ∷ []) }
{
    binds.push(bind_at(alloc, "m", true)?)?;
    binds.push(bind_at(alloc, "r", false)?)
}

fn mount_cache(alloc: Global, caches: &mut Items<CacheUse>) -> Result<(), Memory>
    requires { caches.old ≡ [] }
    ensures targets { OnOk result (map (λ cache. cache.target) caches.new ≡ (codes "c" ∷ []) ∷ []) }
    ensures ids { OnOk result (ids_of caches.new ≡ codes "k" ∷ []) }
{
    let id = Text::from_str(alloc, "k")?;
    let target = under_root(alloc, "c")?;
    caches.push(CacheUse {
        id,
        sharing: Sharing::Shared,
        target,
    })
}

/// The tree of the cache.
fn push_cache(alloc: Global, caches: &mut Vec<Tree>) -> Result<(), Memory>
    ensures { OnOk result (vec_len caches.new ≡ vec_len caches.old + 1) }
{
    let folder = path_of(alloc, "/k")?;
    let mut tree = one_file(alloc, "/n", "x")?;
    match tree.mkdirs(alloc, &folder) {
        Ok(()) => Ok(caches.push(tree)?),
        Err(_) => {
            drop(tree);
            Err(Memory)
        }
    }
}
