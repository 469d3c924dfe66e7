// The trees of a claim's inputs, each where it stands.
ghost use Rattle.std.specs.Prelude.{◌≡◌, ◌<◌, ◌++◌, ◌∷◌, [], IfOk, OnOk, Ok, Some, true, length, slice_get};
ghost use Rattle.std.specs.Option.{option_map};
ghost use Rattle.board.specs.Readiness.{has_tree};
ghost use Rattle.board.specs.PrivateShelf.{tree_or_empty};

use cells::Place;
use plain::Memory;
use std::alloc::Global;
use std::marker::Model;
use trees::{Tree, TreeOrCause};

/// Trees, each where it stands. Contracts see the trees.
#[derive(Drop)]
pub(crate) struct Inputs<P: Place<TreeOrCause>> {
    places: Vec<P>,
}

impl<P: Place<TreeOrCause>> Model for Inputs<P> {
    ghost use Rattle.std.specs.Prelude.{◌≡◌, List, Some, true, map};
    ghost use Rattle.std.specs.List.{list_all};
    ghost use Rattle.std.specs.Coded.{coded_list};
    ghost use Rattle.trees.specs.TreeMap.{TreeMap};
    ghost use Rattle.board.specs.Readiness.{has_tree};
    ghost use Rattle.board.specs.PrivateShelf.{tree_or_empty, trees_code};

    ghost Value = { List TreeMap };

    ghost coded = { trees_code };

    ghost view = { λ i. map (λ p. tree_or_empty (P.stands p)) i.places.items };

    ghost invariant = { λ i. list_all (λ p. has_tree (Some (P.stands p))) i.places.items ≡ true };
}

impl<P: Place<TreeOrCause>> Inputs<P> {
    /// No trees, with room for so many.
    pub(crate) fn with_capacity(alloc: Global, count: usize) -> Result<Inputs<P>, Memory>
        ensures { IfOk result (λ inputs. inputs ≡ []) }
    {
        let places = Vec::with_capacity(alloc, count)?;
        Ok(Inputs { places })
    }

    /// One tree more.
    pub(crate) fn push(&mut self, place: P) -> Result<(), Memory>
        requires { has_tree (Some (P.stands place)) ≡ true }
        ensures { OnOk result (self.new ≡ self.old ++ tree_or_empty (P.stands place) ∷ []) }
    {
        self.places.push(place)?;
        Ok(())
    }

    /// How many there are.
    pub(crate) fn len(&self) -> usize
        ensures { result ≡ length self.now }
    {
        self.places.len()
    }

    /// The tree at a position.
    pub(crate) fn tree(&self, at: usize) -> &Tree
        requires { at < length self.now }
        ensures { slice_get self.now at ≡ Some result.now }
    {
        match self.places[at].value() {
            Ok(tree) => tree,
            Err(_) => unreachable!(),
        }
    }

    /// The place in which the tree at a position stands.
    pub(crate) fn place(&self, at: usize) -> &P
        requires { at < length self.now }
        ensures { option_map Ok (slice_get self.now at) ≡ Some (P.stands result.now) }
    {
        &self.places[at]
    }
}
