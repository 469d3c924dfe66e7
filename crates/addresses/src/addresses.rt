ghost use Rattle.std.specs.Prelude.{◌≡◌, ◌++◌, ◌∷◌, ◌<◌, [], None, length, slice_get, slice_index_or, IfOk, OnOk, OnErr, option_copied};
ghost use Rattle.std.specs.Option.{option_map};
ghost use Rattle.plain.specs.Limits.{most_vertices};
ghost use Rattle.addresses.specs.Address.{addresses_at, place_of, places_of, AreOnce};

use llb::VertexId;
use plain::{Exact, Items, Memory, Text};
use std::alloc::Global;
use std::collections::BTreeMap;
use std::marker::Model;

/// The addresses of a graph's vertices, by their ids, each once, and found without comparing with all.
#[derive(Drop)]
pub struct Addresses {
    texts: Vec<Text>,
    places: BTreeMap<Text, u32>,
}

impl Model for Addresses {
    ghost use Rattle.std.specs.Prelude.{List, ℕ};
    ghost use Rattle.std.specs.Coded.{coded_list, coded_ℕ};
    ghost use Rattle.addresses.specs.Address.{AreOnce};
    ghost use Rattle.addresses.specs.PrivateAddresses.{ArePlaces};

    ghost Value = { List (List ℕ) };

    ghost coded = { coded_list (coded_list coded_ℕ) };

    ghost view = { λ a. a.texts.items };

    ghost invariant = { λ a. AreOnce a.texts.items × ArePlaces a.texts.items a.places.entries };
}

impl Addresses {
    /// No address yet. It takes no memory.
    pub fn new(alloc: Global) -> Addresses
        ensures { result ≡ [] }
    {
        Addresses {
            texts: Vec::new(alloc),
            places: BTreeMap::new(alloc),
        }
    }

    /// How many there are.
    pub fn len(&self) -> usize
        ensures value { result ≡ length self.now }
        ensures once { AreOnce self.now }
    {
        self.texts.len()
    }

    /// The number of the vertex that has this address.
    pub fn place(&self, address: &Text) -> Option<u32>
        ensures { result ≡ place_of self.now address.now }
    {
        self.places.get(address).copied()
    }

    /// The addresses of some vertices; of one that isn't there the empty text.
    pub fn named(&self, alloc: Global, ids: &[VertexId]) -> Result<Vec<Text>, Memory>
        ensures { IfOk result (λ named. named.items ≡ addresses_at self.now ids.now) }
    {
        let mut named = Vec::with_capacity(alloc, ids.len())?;
        for id in ids {
            named.push(self.name(alloc, *id)?)?;
        }
        Ok(named)
    }

    /// The address of a vertex; of one that isn't there the empty text.
    pub fn name(&self, alloc: Global, id: VertexId) -> Result<Text, Memory>
        ensures { IfOk result (λ name. name ≡ slice_index_or self.now id []) }
    {
        match self.texts.get(id.index()) {
            Some(text) => text.copy(alloc),
            None => Text::from_str(alloc, ""),
        }
    }

    /// The vertices that have these addresses; none where one has no vertex.
    pub fn ids(&self, alloc: Global, addresses: &[Text]) -> Result<Option<Items<VertexId>>, Memory>
        ensures { IfOk result (λ ids. ids ≡ places_of self.now addresses.now) }
    {
        let mut ids = Items::new(alloc);
        for address in addresses {
            match self.place(address) {
                Some(place) => ids.push(VertexId::new(place))?,
                None => return Ok(None),
            }
        }
        Ok(Some(ids))
    }

    /// Adds the address of the next vertex, where `place` finds none that has it, and `len` is below what a graph may have. After `Memory` the
    /// addresses are as they were.
    pub fn push(&mut self, alloc: Global, address: Text) -> Result<(), Memory>
        requires fresh { place_of self.old address ≡ None }
        requires few { length self.old < most_vertices }
        ensures ok { OnOk result (self.new ≡ self.old ++ address ∷ []) }
        ensures err { OnErr result (self.new ≡ self.old) }
    {
        let place = self.texts.len() as u32;
        self.texts.reserve(1)?;
        self.places.insert(address.copy(alloc)?, place)?;
        self.texts.push(address).unwrap();
        Ok(())
    }
}
