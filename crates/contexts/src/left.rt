ghost use Rattle.std.specs.Prelude.{◌≡◌, ◌↔◌, ◌⊎◌, ◌+◌, ◌<◌, ◌≤◌, ℕ, List, true, false, is_some, length, take, IfOk, OnOk, MatchOption};
ghost use Rattle.std.specs.FinMap.{get};
ghost use Rattle.std.specs.BTreeSet.{contains};
ghost use Rattle.paths.specs.Order.{path_cmp};
ghost use Rattle.paths.specs.Path.{is_at_or_under};
ghost use Rattle.trees.specs.TreeMap.{IsTree};
ghost use Rattle.contexts.specs.Left.{IsGap, AreLeftOut};
ghost use Rattle.contexts.specs.PrivateLeft.{Stand, AreGaps};

use paths::Path;
use plain::{Items, Memory, Text};
use std::alloc::Global;
use std::collections::BTreeSet;
use trees::Tree;

/// How many of these names lead to something that stands in a tree: the root always does.
fn standing(tree: &Tree, names: &[Text]) -> usize
    ensures { Stand tree.now names.now result }
{
    let mut branch = tree.branch();
    let _root = branch.entry();
    let mut depth = 0;
    for name in names {
        match branch.child(name) {
            Some(child) => {
                let _entry = child.entry();
                branch = child;
            }
            None => return depth,
        }
        depth += 1;
    }
    depth
}

/// The path of the first names of a path.
fn front_of(alloc: Global, path: &Path, depth: usize) -> Result<Path, Memory>
    requires { depth ≤ length path.now }
    ensures { IfOk result (λ front. front ≡ take depth path.now) }
{
    let names = path.components();
    let mut front = Path::root(alloc);
    for name in &names[..depth] {
        front = front.child(alloc, name)?;
    }
    Ok(front)
}

/// The gap of a tree at a path or above it, if the path isn't there.
fn gap(alloc: Global, tree: &Tree, path: &Path) -> Result<Option<Path>, Memory>
    ensures gap { IfOk result (λ gap. MatchOption gap (is_some (get tree.now path.now) ≡ true)
        (λ gap. IsGap tree.now gap × (is_at_or_under path.now gap ≡ true))) }
    ensures tree { IsTree tree.now }
{
    let _root = tree.root();
    let depth = standing(tree, path.components());
    if depth == path.depth() {
        return Ok(None);
    }
    let front = front_of(alloc, path, depth + 1)?;
    Ok(Some(front))
}

/// Adds the gap of a tree at a path or above it, if the path isn't there.
fn add_gap(
    alloc: Global,
    tree: &Tree,
    path: &Path,
    found: &mut BTreeSet<Path>,
) -> Result<(), Memory>
    ensures { OnOk result ((q : List (List ℕ)) → (contains path_cmp found.new q ≡ true)
        ↔ ((contains path_cmp found.old q ≡ true) ⊎ (IsGap tree.now q × (is_at_or_under path.now q ≡ true)))) }
{
    match gap(alloc, tree, path)? {
        Some(gap) => {
            found.insert(gap)?;
            Ok(())
        }
        None => Ok(()),
    }
}

/// The gaps of a tree at the paths of a list or above them.
fn gaps(alloc: Global, tree: &Tree, paths: &[Path]) -> Result<BTreeSet<Path>, Memory>
    ensures { IfOk result (λ found. AreGaps tree.now paths.now found.keys) }
{
    let mut found = BTreeSet::new(alloc);
    for path in paths {
        add_gap(alloc, tree, path, &mut found)?;
    }
    let _ordered = found.len();
    Ok(found)
}

/// What is left out of a tree, of a list of paths: for each of them that isn't there, the shortest path at or above it that isn't there
/// either. Each is there once, in the order of paths.
pub fn left_out(alloc: Global, tree: &Tree, paths: &[Path]) -> Result<Items<Path>, Memory>
    ensures { IfOk result (λ left. AreLeftOut tree.now paths.now left) }
{
    let mut found = gaps(alloc, tree, paths)?;
    let mut left = Items::new(alloc);
    while let Some(path) = found.pop_first() {
        left.push(path)?;
    }
    Ok(left)
}
