ghost use Rattle.std.specs.Prelude.{◌≡◌, ◌++◌, [], List, true, IfOk, OnOk};
ghost use Rattle.trees.specs.Row.{Row};
ghost use Rattle.trees.specs.Builder.{IsBuiltOf};
ghost use Rattle.entries.specs.Listing.{is_listing};

use crate::listed_tree::ListedTree;
use crate::taking::TakesRows;
use paths::Path;
use plain::{Fault, Memory};
use std::alloc::Global;
use std::marker::Model;
use std::mem;
use std::snapshot::Snapshot;
use strict::{NotRead, ReadFault};
use trees::{Entry, TreeBuilder};

/// A tree that grows by rows in the order of a walk, none of which is kept. Contracts see the rows.
#[derive(Drop)]
pub(crate) struct GrowingTree {
    /// What contracts see of the rows, run by run. A snapshot has no bytes, so the list takes one byte, however many it has.
    runs: Vec<Snapshot<Vec<(Path, Entry)>>>,
    builder: TreeBuilder,
}

impl Model for GrowingTree {
    ghost use Rattle.std.specs.Prelude.{List};
    ghost use Rattle.trees.specs.Row.{Row};
    ghost use Rattle.entries.specs.Row.{rows_code};

    ghost Value = { List Row };

    ghost coded = { rows_code };

    ghost use Rattle.trees.specs.Builder.{IsBuiltOf};
    ghost use Rattle.entries.specs.PrivateRuns.{rows_of_runs};

    ghost view = { λ g. rows_of_runs g.runs.items };

    ghost invariant = { λ g. IsBuiltOf (rows_of_runs g.runs.items) g.builder };
}

impl GrowingTree {
    /// No row yet. It takes no memory.
    pub(crate) fn new(alloc: Global) -> GrowingTree
        ensures { result ≡ [] }
    {
        GrowingTree {
            runs: Vec::new(alloc),
            builder: TreeBuilder::new(alloc),
        }
    }

    /// The tree of the rows. Those that follow one another are a list.
    pub(crate) fn into_listed(self, alloc: Global) -> Result<ListedTree, Memory>
        ensures value { IfOk result (λ listed. listed ≡ self) }
        ensures listing { is_listing self ≡ true }
    {
        let GrowingTree { runs, builder } = self;
        let tree = builder.into_tree(alloc)?;
        Ok(ListedTree::of_runs(runs, tree))
    }
}

impl TakesRows for GrowingTree {
    ghost rows = { λ g. g };

    /// `NotRead` where a row doesn't follow the one before it. After an error no row is left.
    fn take(&mut self, alloc: Global, run: Vec<(Path, Entry)>) -> Result<(), ReadFault> {
        self.runs.push(Snapshot::of(&run))?;
        match add_each(alloc, &mut self.builder, run) {
            Ok(()) => Ok(()),
            Err(fault) => {
                self.runs.clear();
                drop(mem::replace(&mut self.builder, TreeBuilder::new(alloc)));
                Err(fault)
            }
        }
    }
}

/// Adds rows to what is built. `NotRead` if one doesn't follow the one before it.
fn add_each(
    alloc: Global,
    builder: &mut TreeBuilder,
    run: Vec<(Path, Entry)>,
) -> Result<(), ReadFault>
    ensures { OnOk result ((rows : List Row) → IsBuiltOf rows builder.old → IsBuiltOf (rows ++ run.items) builder.new) }
{
    'adding: for (path, entry) in run {
        if !builder.add(alloc, &path, entry)? {
            return Err(Fault::Because(NotRead));
        }
    }
    Ok(())
}
