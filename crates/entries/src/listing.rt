ghost use Rattle.std.specs.Prelude.{◌≡◌, [], true, IfOk};
ghost use Rattle.borrowed.specs.Pulled.{Pulls};
ghost use Rattle.entries.specs.Listing.{is_listing, listing_in};
ghost use Rattle.trees.specs.Whole.{tree_of};

use crate::apart::is_listing;
use crate::pulling::pull_rows;
use crate::reading::read_rows;
use borrowed::FromLent;
use json::{Reader, Value};
use paths::Path;
use plain::{Fault, Items, Memory};
use std::alloc::Global;
use std::marker::Model;
use std::thread::Threads;
use strict::{NotRead, ReadFault};
use trees::{Entry, Tree};

/// A list of a tree's entries with their paths, as it was written: no path stands in it twice, no file stands on the way to another entry,
/// and the root is no file. Contracts see its rows.
#[derive(Drop)]
pub struct Listing {
    rows: Items<(Path, Entry)>,
}

impl Model for Listing {
    ghost use Rattle.std.specs.Prelude.{◌≡◌, List, true};
    ghost use Rattle.trees.specs.Row.{Row};
    ghost use Rattle.entries.specs.Row.{rows_code};
    ghost use Rattle.entries.specs.Listing.{is_listing};

    ghost Value = { List Row };

    ghost coded = { rows_code };

    ghost view = { λ l. l.rows };

    ghost invariant = { λ l. is_listing l.rows ≡ true };
}

impl FromLent for Listing {
    ghost use Rattle.entries.specs.Listing.{listing_in};

    ghost reading = { listing_in };

    /// The list that a value is. `NotRead` where it is none.
    #[tactic(auto, unfolding(crate::specs::Listing::listing_in))]
    fn from_lent(alloc: Global, value: &Value<'_>) -> Result<Listing, ReadFault> {
        let rows = read_rows(alloc, value)?;
        if is_listing(alloc, rows.as_slice())? {
            Ok(Listing { rows })
        } else {
            Err(Fault::Because(NotRead))
        }
    }
}

impl Listing {
    /// The list that comes next in a text that is read token by token, nested no deeper than so. Its rows are made by several threads, where
    /// they are many. `NotRead` where no list comes next, and where that can't be told without what comes later.
    #[tactic(auto, unfolding(crate::specs::Listing::listing_in))]
    pub fn pull(
        alloc: Global,
        rt: &(impl Threads + Sync),
        reader: &mut Reader<'_>,
        depth: usize,
    ) -> Result<Listing, ReadFault>
        ensures { IfOk result (λ listing. Pulls depth listing_in reader.old reader.new listing) }
    {
        let mut rows: Vec<(Path, Entry)> = Vec::new(alloc);
        pull_rows(alloc, rt, reader, depth, &mut rows)?;
        if is_listing(alloc, rows.as_slice())? {
            Ok(Listing {
                rows: Items::from_vec(rows),
            })
        } else {
            Err(Fault::Because(NotRead))
        }
    }

    /// The empty list, that of the empty tree. It takes no memory.
    #[tactic(auto, unfolding(crate::specs::Listing::is_listing))]
    pub fn empty(alloc: Global) -> Listing
        ensures { result ≡ [] }
    {
        Listing {
            rows: Items::new(alloc),
        }
    }

    /// The rows, in the order that they are written in, lent.
    pub fn rows(&self) -> &[(Path, Entry)]
        ensures value { result.now ≡ self.now }
        ensures listing { is_listing self.now ≡ true }
    {
        self.rows.as_slice()
    }

    /// The rows, in the order that they are written in. It takes no memory.
    pub fn into_rows(self) -> Vec<(Path, Entry)>
        ensures value { result.items ≡ self }
        ensures listing { is_listing self ≡ true }
    {
        let Listing { rows } = self;
        rows.into_vec()
    }

    /// The tree of the list: each entry stands at its path, and directories on the way that the list doesn't have are made, 0755 and 0:0,
    /// as the root is.
    pub fn into_tree(self, alloc: Global) -> Result<Tree, Memory>
        ensures { IfOk result (λ tree. tree ≡ tree_of self) }
    {
        Tree::of_rows(alloc, self.into_rows())
    }
}
