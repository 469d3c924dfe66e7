// What a pattern of a COPY finds in the tree that is copied from. The search goes only where the pattern leads: a component that is spelled
// out is a look-up, and one with signs is tried on those names of one folder that begin as it does. So it costs the folders that the pattern
// leads to and what it finds, however large the tree is: one `COPY package*.json` mustn't list all files of a context, and thousands of
// patterns on a folder of thousands of names mustn't try each pattern on each name.

ghost use Rattle.std.specs.Prelude.{◌≡◌, ◌↔◌, IsTrue, true, [], ◌∷◌, ◌++◌, IfOk, OnOk};
ghost use Rattle.std.specs.Str.{chars};
ghost use Rattle.std.specs.FinMap.{entries};
ghost use Rattle.globs.specs.Glob.{matches};
ghost use Rattle.globs.specs.Grammar.{is_spelled_out};
ghost use Rattle.plans.specs.Files.{matches_in};
ghost use Rattle.vertexrun.specs.PrivateMatches.{paths_that, AreClean, BeginsAs};

use globs::{Component, Glob, is_spelled_out};
use paths::Path;
use plain::{Fault, Items, Memory, Text};
use std::alloc::Global;
use trees::{Branch, Tree};

/// The paths of a tree to which a pattern relates, in path order; none where it is malformed.
pub(crate) fn find_matches(alloc: Global, from: &Tree, pattern: &str) -> Result<Items<Path>, Memory>
    ensures { IfOk result (λ paths. paths ≡ matches_in from.now pattern.now) }
{
    if is_spelled_out(pattern) {
        look_up(alloc, from, pattern)
    } else {
        search(alloc, from, pattern)
    }
}

/// The one path of a tree to which a pattern that is spelled out relates, if something stands there. A path that breaks a limit is in no
/// tree. A copy may have more than a hundred thousand such sources, so no pattern is made of them: each is read as the path that it is.
fn look_up(alloc: Global, from: &Tree, pattern: &str) -> Result<Items<Path>, Memory>
    requires { is_spelled_out (chars pattern.now) ≡ true }
    ensures { IfOk result (λ paths. paths ≡ matches_in from.now pattern.now) }
{
    // What `root` says of its tree: each of its paths keeps the limits.
    let _root = from.root();
    let path = match Path::read(alloc, pattern, &Path::root(alloc)) {
        Ok(path) => path,
        Err(Fault::Because(_)) => return Ok(Items::new(alloc)),
        Err(Fault::Memory) => return Err(Memory),
    };
    if from.get(&path).is_none() {
        return Ok(Items::new(alloc));
    }
    let mut paths = Vec::new(alloc);
    paths.push(path)?;
    Ok(Items::from_vec(paths))
}

/// The paths of a tree to which a pattern relates, in path order; none where it is malformed.
fn search(alloc: Global, from: &Tree, pattern: &str) -> Result<Items<Path>, Memory>
    ensures { IfOk result (λ paths. paths ≡ matches_in from.now pattern.now) }
{
    match Glob::read(alloc, pattern) {
        Ok(glob) => Ok(Items::from_vec(matches_of(alloc, from, &glob)?)),
        Err(Fault::Because(_)) => Ok(Items::new(alloc)),
        Err(Fault::Memory) => Err(Memory),
    }
}

/// The paths of a tree that a pattern matches, in path order.
fn matches_of(alloc: Global, from: &Tree, glob: &Glob) -> Result<Vec<Path>, Memory>
    ensures { IfOk result (λ paths. paths.items ≡ paths_that [] (matches glob.now) (entries from.now)) }
{
    // What `root` says of its tree: each of its paths keeps the limits.
    let _root = from.root();
    let mut found = Vec::new(alloc);
    descend(
        alloc,
        glob.components(),
        &from.branch(),
        Path::root(alloc),
        &mut found,
    )?;
    Ok(found)
}

/// Adds the paths at and below a branch to which components of a pattern relate from there, in path order; `at` is the branch's path.
///
/// It goes through children in the order of their names, so what it finds is in path order. It calls itself for each folder that the pattern
/// leads to, so no deeper than the tree is.
#[cycle(descending)]
fn descend(
    alloc: Global,
    components: &[Component],
    branch: &Branch<'_>,
    at: Path,
    found: &mut Vec<Path>,
) -> Result<(), Memory>
    requires { AreClean at (entries branch.now) }
    ensures { OnOk result (found.new.items ≡ found.old.items ++ paths_that at (matches components.now) (entries branch.now)) }
{
    match components {
        [] => {
            // What `entry` says of the branch: something stands at its own path.
            let _entry = branch.entry();
            found.push(at)?;
            Ok(())
        }
        [component, rest @ ..] => match component.spelled_name() {
            Some(name) => match branch.child(name) {
                Some(child) => enter(alloc, rest, &child, &at, name, found),
                None => Ok(()),
            },
            None => go_through(alloc, component, rest, branch, &at, found),
        },
    }
}

/// Goes on below a child of the branch at a path, which is found under a name.
#[cycle(descending)]
fn enter(
    alloc: Global,
    components: &[Component],
    child: &Branch<'_>,
    at: &Path,
    name: &Text,
    found: &mut Vec<Path>,
) -> Result<(), Memory>
    requires { AreClean (at.now ++ name.now ∷ []) (entries child.now) }
    ensures { OnOk result (found.new.items ≡ found.old.items ++ paths_that (at.now ++ name.now ∷ []) (matches components.now) (entries child.now)) }
{
    // What `entry` says of the child: something stands at its own path, which is clean then.
    let _entry = child.entry();
    let path = at.child(alloc, name)?;
    descend(alloc, components, child, path, found)
}

/// Whether a name begins with a text.
fn begins_as(name: &Text, front: &Text) -> bool
    ensures { IsTrue result ↔ BeginsAs front.now name.now }
{
    name.as_str().starts_with(front.as_str())
}

/// Goes on below each child of the branch at a path to whose name a component relates. All these names begin with the component's front.
/// Names that begin alike follow each other in their order, so no other child is gone through but the one behind them.
#[cycle(descending)]
fn go_through(
    alloc: Global,
    component: &Component,
    rest: &[Component],
    branch: &Branch<'_>,
    at: &Path,
    found: &mut Vec<Path>,
) -> Result<(), Memory>
    requires { AreClean at.now (entries branch.now) }
    ensures { OnOk result (found.new.items ≡ found.old.items ++ paths_that at.now (matches (component.now ∷ rest.now)) (entries branch.now)) }
{
    let front = component.front();
    let mut children = branch.children_from(front);
    while let Some((name, child)) = children.next() {
        if !begins_as(name, front) {
            return Ok(());
        }
        if !component.matches(name) {
            continue;
        }
        enter(alloc, rest, &child, at, name, found)?;
    }
    Ok(())
}
