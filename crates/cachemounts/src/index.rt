ghost use Rattle.std.specs.Prelude.{◌≡◌, [], ◌∷◌, OnOk, OnErr};
ghost use Rattle.std.specs.List.{Contains};
ghost use Rattle.cachemounts.specs.PrivateIndex.{under, IsPut, Grows, AreEntered};

use crate::Content;
use plain::{Exact, Items, Memory, Text};
use std::alloc::Global;
use std::collections::BTreeMap;

/// Places of contents in a list, by the ids of their caches. Those of one id stand together: its common content and its private slots, so they
/// are few.
#[derive(Drop)]
pub(crate) struct Index {
    places: BTreeMap<Text, Items<usize>>,
}

impl Index {
    /// Nothing entered. It takes no memory.
    pub(crate) fn new(alloc: Global) -> Index
        ensures { result.places.entries ≡ [] }
    {
        Index {
            places: BTreeMap::new(alloc),
        }
    }

    /// The places under an id.
    pub(crate) fn under(&self, id: &Text) -> &[usize]
        ensures { result.now ≡ under self.now.places.entries id.now }
    {
        match self.places.get(id) {
            Some(places) => places.as_slice(),
            None => &[],
        }
    }

    /// Enters the contents from a place on, each under the id of its cache. After `Memory` some of them may be entered, which is no harm where
    /// nothing stands at their places.
    pub(crate) fn enter_from(
        &mut self,
        alloc: Global,
        contents: &[Content],
        from: usize,
    ) -> Result<(), Memory>
        ensures grows { Grows self.old.places.entries self.new.places.entries }
        ensures entered { OnOk result (AreEntered self.new.places.entries from contents.now) }
    {
        for at in from..contents.len() {
            enter(&mut self.places, alloc, &contents[at].id, at)?;
        }
        Ok(())
    }
}

/// Enters a place under an id, after those that are there.
fn enter(
    places: &mut BTreeMap<Text, Items<usize>>,
    alloc: Global,
    id: &Text,
    place: usize,
) -> Result<(), Memory>
    ensures grows { Grows places.old.entries places.new.entries }
    ensures entered { OnOk result (Contains (under places.new.entries id.now) place) }
{
    match places.get_mut(id) {
        Some(known) => known.push(place),
        None => enter_first(places, alloc, id, place),
    }
}

/// Enters a place alone under an id. After `Memory` the places are as they were.
fn enter_first(
    places: &mut BTreeMap<Text, Items<usize>>,
    alloc: Global,
    id: &Text,
    place: usize,
) -> Result<(), Memory>
    ensures ok { OnOk result (IsPut places.old.entries places.new.entries id.now (place ∷ [])) }
    ensures err { OnErr result (places.new.entries ≡ places.old.entries) }
{
    let id = id.copy(alloc)?;
    let mut first = Items::new(alloc);
    first.push(place)?;
    places.insert(id, first)?;
    Ok(())
}
