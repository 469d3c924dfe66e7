ghost use Rattle.std.specs.Prelude.{◌≡◌, true, IfOk};
ghost use Rattle.borrowed.specs.Pulled.{Pulls};
ghost use Rattle.entries.specs.Listing.{is_listing, listing_in};
ghost use Rattle.entries.specs.PrivateRuns.{rows_of_runs};
ghost use Rattle.trees.specs.Whole.{tree_of};

use crate::growing_tree::GrowingTree;
use crate::listing::Listing;
use crate::pulling::pull_rows;
use borrowed::FromLent;
use json::{Reader, Value};
use paths::Path;
use plain::{Items, Memory};
use std::alloc::Global;
use std::marker::Model;
use std::snapshot::Snapshot;
use std::thread::Threads;
use strict::ReadFault;
use trees::{Entry, Tree};

/// The tree of a list of entries, of which only the tree is kept. Contracts see the list's rows.
#[derive(Drop)]
pub struct ListedTree {
    /// What contracts see of the rows, run by run. A snapshot has no bytes, so the list takes one byte, however many it has.
    runs: Vec<Snapshot<Vec<(Path, Entry)>>>,
    tree: Tree,
}

impl Model for ListedTree {
    ghost use Rattle.std.specs.Prelude.{◌≡◌, List, true};
    ghost use Rattle.trees.specs.Row.{Row};
    ghost use Rattle.entries.specs.Row.{rows_code};

    ghost Value = { List Row };

    ghost coded = { rows_code };

    ghost use Rattle.trees.specs.Whole.{tree_of};
    ghost use Rattle.entries.specs.Listing.{is_listing};
    ghost use Rattle.entries.specs.PrivateRuns.{rows_of_runs};

    ghost view = { λ l. rows_of_runs l.runs.items };

    ghost invariant = { λ l. (is_listing (rows_of_runs l.runs.items) ≡ true) × (l.tree ≡ tree_of (rows_of_runs l.runs.items)) };
}

impl FromLent for ListedTree {
    ghost use Rattle.entries.specs.Listing.{listing_in};

    ghost reading = { listing_in };

    /// The tree of the list that a value is. `NotRead` where it is none.
    fn from_lent(alloc: Global, value: &Value<'_>) -> Result<ListedTree, ReadFault> {
        let listing = Listing::from_lent(alloc, value)?;
        Ok(ListedTree::of_listing(alloc, listing)?)
    }
}

impl ListedTree {
    /// The list that comes next in a text that is read token by token, nested no deeper than so, as `Listing::pull` reads it, and its tree.
    /// `NotRead` where no list comes next, and where that can't be told without what comes later.
    ///
    /// If `in_order`, it may also be `NotRead` where a row doesn't follow the one before it in the order of a walk: such a list is read where
    /// it needn't be in order.
    pub fn pull(
        alloc: Global,
        rt: &(impl Threads + Sync),
        reader: &mut Reader<'_>,
        depth: usize,
        in_order: bool,
    ) -> Result<ListedTree, ReadFault>
        ensures { IfOk result (λ listed. Pulls depth listing_in reader.old reader.new listed) }
    {
        if in_order {
            let mut tree = GrowingTree::new(alloc);
            pull_rows(alloc, rt, reader, depth, &mut tree)?;
            return Ok(tree.into_listed(alloc)?);
        }
        let listing = Listing::pull(alloc, rt, reader, depth)?;
        Ok(ListedTree::of_listing(alloc, listing)?)
    }

    /// The tree of rows that are a list.
    pub(crate) fn of_runs(runs: Vec<Snapshot<Vec<(Path, Entry)>>>, tree: Tree) -> ListedTree
        requires listing { is_listing (rows_of_runs runs.items) ≡ true }
        requires tree { tree ≡ tree_of (rows_of_runs runs.items) }
        ensures { result ≡ rows_of_runs runs.items }
    {
        ListedTree { runs, tree }
    }

    /// The tree of a list. Its rows end here.
    fn of_listing(alloc: Global, listing: Listing) -> Result<ListedTree, Memory>
        ensures { IfOk result (λ listed. listed ≡ listing) }
    {
        let rows = listing.into_rows();
        let mut runs = Vec::new(alloc);
        runs.push(Snapshot::of(&rows))?;
        let tree = Tree::of_rows(alloc, rows)?;
        Ok(ListedTree { runs, tree })
    }

    /// Its tree. It takes no memory.
    pub fn into_tree(self) -> Tree
        ensures value { result ≡ tree_of self }
        ensures listing { is_listing self ≡ true }
    {
        let ListedTree { runs: _, tree } = self;
        tree
    }
}
