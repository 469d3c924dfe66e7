// `trees`: a name, and behind ` | ` each its steps; the answer is the name and what they tell. Every case has trees by their numbers, of which 0 is empty;
// a step begins with a number. Steps that change a copy of the tree of this number, which becomes the next tree:
//
// - `N files PATH ..` puts files that hold their own paths; `N file META PATH TEXT` and `N folder META PATH` put one entry, of a mode in
//   octal digits, a user and a group, as `644:0:0`; `N dirs PATH`, `N remove PATH`
// - `N below PATH` takes what lies under a path; `N over M` lays the tree M over it, and `N merged` all trees from N on over each other
// - `N copy M META DEST SOURCE ..` is a COPY from the tree M, with `-` for no owner and mode; `N heredoc NAME TEXT DEST` one of a heredoc
//
// A cause is told, and the copy is the next tree as it is then. Other steps tell something alone: `N show` a tree, `N root` what its root
// has, `N sums` a number for all trees from N on together, and `N run SCRIPT`, `N mounted SCRIPT` and `N idle SCRIPT` what a command comes
// to on the tree N.
//
// Cases whose names begin with `list_` are made by `tools/check lists`, which answers them by maps from paths to entries that share nothing.
// The flat map of `flat` answers them too, and a list of which it tells something else says so.

use crate::changing::change;
use crate::flat;
use crate::reading::{cut, tree_at, trees_from};
use crate::running::{tell_idle, tell_mounted, tell_run};
use crate::telling::{begin, push_listing, push_root, push_sum};
use plain::{Exact, Fault, Memory};
use std::alloc::Global;
use trees::Tree;

pub fn answer(alloc: Global, case: &str) -> Result<String, Memory> {
    let (name, steps) = case.split_once(" | ").unwrap_or((case, ""));
    let told = told_by(alloc, steps)?;
    if name.starts_with("list_") {
        let flat = flat::told_by(alloc, steps)?;
        if flat.as_str() != told.as_str() {
            return Ok(format!(in alloc; "{name}: {told}, by a flat map {flat}")?);
        }
    }
    Ok(format!(in alloc; "{name}: {told}")?)
}

/// What the steps of a case tell.
fn told_by(alloc: Global, steps: &str) -> Result<String, Memory> {
    let mut case = Case::new(alloc)?;
    let mut told = String::new(alloc);
    let done = case.take_steps(alloc, &mut told, steps);
    drop(case);
    match done {
        Ok(()) => Ok(told),
        Err(memory) => {
            drop(told);
            Err(memory)
        }
    }
}

/// The trees of a case, by their numbers.
#[derive(Drop)]
struct Case {
    trees: Vec<Tree>,
}

impl Case {
    /// The empty tree alone.
    fn new(alloc: Global) -> Result<Case, Memory> {
        let mut trees = Vec::new(alloc);
        trees.push(Tree::empty(alloc))?;
        Ok(Case { trees })
    }

    /// Takes steps in order, and tells what they say.
    fn take_steps(&mut self, alloc: Global, told: &mut String, steps: &str) -> Result<(), Memory> {
        for step in steps.split(" | ") {
            self.take_step(alloc, told, step)?;
        }
        Ok(())
    }

    fn take_step(&mut self, alloc: Global, told: &mut String, step: &str) -> Result<(), Memory> {
        let (number, rest) = cut(step);
        let (verb, rest) = cut(rest);
        let trees = self.trees.as_slice();
        match verb {
            "show" => push_listing(alloc, told, tree_at(trees, number)?),
            "root" => push_root(told, tree_at(trees, number)?),
            "sums" => push_sum(alloc, told, trees_from(trees, number)?),
            "run" => tell_run(alloc, told, tree_at(trees, number)?, rest),
            "mounted" => tell_mounted(alloc, told, tree_at(trees, number)?, rest),
            "idle" => tell_idle(alloc, told, tree_at(trees, number)?, rest),
            _ => self.change(alloc, told, number, verb, rest),
        }
    }

    /// Makes the next tree.
    fn change(
        &mut self,
        alloc: Global,
        told: &mut String,
        number: &str,
        verb: &str,
        rest: &str,
    ) -> Result<(), Memory> {
        let mut tree = tree_at(self.trees.as_slice(), number)?.copy(alloc)?;
        match change(alloc, self.trees.as_slice(), &mut tree, verb, rest) {
            Ok(()) => Ok(self.trees.push(tree)?),
            Err(Fault::Because(cause)) => {
                self.trees.push(tree)?;
                begin(told)?;
                Ok(write!(told, "{cause}")?)
            }
            Err(Fault::Memory) => {
                drop(tree);
                Err(Memory)
            }
        }
    }
}
