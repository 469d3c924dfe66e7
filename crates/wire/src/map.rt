ghost use Rattle.std.specs.Prelude.{◌≡◌, ◌↔◌, [], ◌++◌, IsTrue, IfOk};
ghost use Rattle.wire.specs.Kinds.{map_field, entry_fields};
ghost use Rattle.wire.specs.Maps.{Ascends, IsAfter, Pushes};

use crate::{EntryValue, Message};
use plain::{Fault, Memory, Text};
use std::alloc::Global;
use std::cmp::Ordering;
use std::collections::BTreeMap;
use std::marker::Model;
use thiserror::Error;

/// A key isn't after the keys of a map.
#[derive(Clone, Copy, Debug, PartialEq, Eq, Error)]
#[error("the key isn't after the keys of the map")]
pub struct Unordered;

/// A map from texts. Contracts see the list of its entries, which are in the order of their keys' bytes.
#[derive(Drop)]
pub struct Map<V> {
    entries: Vec<(Text, V)>,
}

impl<V> Model for Map<V> {
    ghost use Rattle.std.specs.Prelude.{List, ℕ};
    ghost use Rattle.std.specs.Coded.{coded_list, coded_ℕ, coded×};
    ghost use Rattle.wire.specs.Maps.{Ascends};

    ghost Value = { List (List ℕ × V) };

    ghost coded = { coded_list (coded× (coded_list coded_ℕ) V.code) };

    ghost view = { λ map. map.entries.items };

    ghost invariant = { λ map. Ascends map.entries.items };
}

impl<V> Map<V> {
    /// The map without an entry. It takes no memory.
    pub fn new(alloc: Global) -> Map<V>
        ensures { result ≡ [] }
    {
        Map {
            entries: Vec::new(alloc),
        }
    }

    /// The entries, lent.
    pub fn entries(&self) -> &[(Text, V)]
        ensures value { result.now ≡ self.now }
        ensures ascends { Ascends self.now }
    {
        self.entries.as_slice()
    }
}

impl<V: Drop> Map<V> {
    /// The map of these entries, whose keys are sorted as they are here.
    pub fn from_sorted(alloc: Global, sorted: BTreeMap<Text, V>) -> Result<Map<V>, Memory>
        ensures { IfOk result (λ map. map ≡ sorted.entries) }
    {
        let mut entries = Vec::new(alloc);
        for entry in sorted {
            entries.push(entry)?;
        }
        Ok(Map { entries })
    }

    /// Adds an entry at the end. It is `Unordered` only if its key isn't after all those that are there. After an error the map is as
    /// it was.
    pub fn push(&mut self, key: Text, value: V) -> Result<(), Fault<Unordered>>
        ensures { Pushes self.old self.new key value result }
    {
        if !is_after(&key, self.entries.as_slice()) {
            return Err(Fault::Because(Unordered));
        }
        self.entries.push((key, value))?;
        Ok(())
    }
}

/// Whether a key is after those of some entries, which ascend.
fn is_after<V>(key: &Text, entries: &[(Text, V)]) -> bool
    requires { Ascends entries.now }
    ensures { IsTrue result ↔ IsAfter key.now entries.now }
{
    match entries {
        [] => true,
        [.., (last, _)] => matches!(last.cmp(key), Ordering::Less),
    }
}

/// Writes an entry: a message of its key and its value.
fn entry<V: EntryValue>(alloc: Global, key: &Text, value: &V) -> Result<Message, Memory>
    ensures { IfOk result (λ message. message ≡ entry_fields V.held (key.now, value.now)) }
{
    let message = Message::new(alloc).with_set_bytes(1, key.as_str().as_bytes())?;
    value.add_to(alloc, message)
}

impl Message {
    /// With a map.
    pub fn with_map<V: EntryValue>(
        self,
        alloc: Global,
        field: u32,
        map: &Map<V>,
    ) -> Result<Message, Memory>
        ensures { IfOk result (λ message. message ≡ self ++ map_field V.held field map.now) }
    {
        let mut message = self;
        for (key, value) in &map.entries {
            message = message.with_message(field, &entry(alloc, key, value)?)?;
        }
        Ok(message)
    }
}
