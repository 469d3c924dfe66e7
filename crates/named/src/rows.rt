ghost use Rattle.std.specs.Prelude.{◌≡◌, ◌==◌, ◌≤◌, ◌<◌, ◌+◌, true, [], ◌∷◌, ◌++◌, length, not, option_map, bytes_eq, IfOk, OnOk, OnErr};
ghost use Rattle.std.specs.Map.{lookup};
ghost use Rattle.indexmap.specs.IndexMap.{spare};
ghost use Rattle.named.specs.Rows.{put_row, put_rows, add_row, has_row, give_row, give_rows};

use indexmap::IndexMap;
use indexmap::map::Slice;
use plain::{Exact, Items, Memory, Text};
use std::alloc::Global;
use std::hash::RandomState;
use std::marker::Model;

/// What rows stand in: strangers choose the names, so the hash has keys that they can't know.
type Kept<V> = IndexMap<Text, V, RandomState>;

/// Values by names: each name once, in the order in which the names came first.
#[derive(Drop)]
pub struct NamedRows<V> {
    rows: Kept<V>,
}

impl<V> Model for NamedRows<V> {
    ghost use Rattle.std.specs.Prelude.{List, ℕ};
    ghost use Rattle.std.specs.Coded.{coded_list, coded_ℕ, coded×};

    ghost Value = { List (List ℕ × V) };

    ghost coded = { coded_list (coded× (coded_list coded_ℕ) V.code) };

    ghost view = { λ r. r.rows.entries };
}

impl<V> NamedRows<V> {
    /// No rows, and the keys of the hash by which names are found. It takes no memory.
    pub fn new(alloc: Global, keys: RandomState) -> NamedRows<V>
        ensures { result ≡ [] }
    {
        NamedRows {
            rows: IndexMap::with_hasher(alloc, keys),
        }
    }

    /// How many rows there are.
    pub fn len(&self) -> usize
        ensures { result ≡ length self.now }
    {
        self.rows.len()
    }

    /// Whether there is no row.
    pub fn is_empty(&self) -> bool
        ensures { result ≡ (length self.now == 0) }
    {
        self.rows.is_empty()
    }

    /// The rows, lent.
    pub fn as_slice(&self) -> Slice<'_, Text, V>
        ensures { result ≡ self.now }
    {
        self.rows.as_slice()
    }

    /// The value of a name; none where it has no row.
    pub fn get(&self, name: &Text) -> Option<&V>
        ensures { option_map (λ value. value.now) result ≡ lookup (bytes_eq name.now) self.now }
    {
        self.rows.get(name)
    }

    /// Whether a name has a row.
    pub fn has(&self, name: &Text) -> bool
        ensures { result ≡ has_row name.now self.now }
    {
        self.rows.contains_key(name)
    }
}

impl<V: Drop> NamedRows<V> {
    /// Gives a name a value, in place of the one that it has. After `Memory` the rows are as they were.
    pub fn set(&mut self, name: Text, value: V) -> Result<(), Memory>
        ensures ok { OnOk result (self.new ≡ put_row self.old name value) }
        ensures err { OnErr result (self.new ≡ self.old) }
    {
        self.rows.insert(name, value)?;
        Ok(())
    }

    /// Adds a row, unless its name has one, and answers whether it was added. After `Memory` the rows are as they were.
    pub fn add(&mut self, name: Text, value: V) -> Result<bool, Memory>
        ensures added { IfOk result (λ added. added ≡ not (has_row name self.old)) }
        ensures ok { OnOk result (self.new ≡ add_row self.old name value) }
        ensures err { OnErr result (self.new ≡ self.old) }
    {
        if self.rows.contains_key(&name) {
            return Ok(false);
        }
        self.rows.insert(name, value)?;
        Ok(true)
    }

    /// Gives names values, one after another. After `Memory` the rows are as they were.
    pub fn set_all(&mut self, more: Items<(Text, V)>) -> Result<(), Memory>
        ensures ok { OnOk result (self.new ≡ put_rows self.old more) }
        ensures err { OnErr result (self.new ≡ self.old) }
    {
        self.rows.reserve(more.len())?;
        put_all(&mut self.rows, more.into_vec());
        Ok(())
    }
}

impl<V: Drop> NamedRows<Option<V>> {
    /// Gives names values, or none, one after another: a row without a value leaves a name that is there as it was. After `Memory` the rows are as they
    /// were.
    pub fn give_all(&mut self, more: Items<(Text, Option<V>)>) -> Result<(), Memory>
        ensures ok { OnOk result (self.new ≡ give_rows self.old more) }
        ensures err { OnErr result (self.new ≡ self.old) }
    {
        self.rows.reserve(more.len())?;
        give_each(&mut self.rows, more.into_vec());
        Ok(())
    }
}

impl<V: Exact + Drop> NamedRows<V> {
    /// Equal rows of its own.
    pub fn copy(&self, alloc: Global) -> Result<NamedRows<V>, Memory>
        ensures { IfOk result (λ copied. copied ≡ self.now) }
    {
        let keys = *self.rows.hasher();
        let mut rows = IndexMap::with_capacity_and_hasher(alloc, self.rows.len(), keys)?;
        for (name, value) in self.rows.iter() {
            put_copy(alloc, &mut rows, name, value)?;
        }
        Ok(NamedRows { rows })
    }
}

/// Puts a row for which there is room. It takes no memory.
fn put<V: Drop>(rows: &mut Kept<V>, name: Text, value: V)
    requires room { 0 < spare rows.old }
    ensures rows { rows.new.entries ≡ put_row rows.old.entries name value }
    ensures spare { spare rows.old ≤ spare rows.new + 1 }
{
    rows.insert(name, value).unwrap();
}

/// Puts rows for which there is room, one after another. It takes no memory.
fn put_all<V: Drop>(rows: &mut Kept<V>, more: Vec<(Text, V)>)
    requires room { length more.items ≤ spare rows.old }
    ensures rows { rows.new.entries ≡ put_rows rows.old.entries more.items }
{
    for (name, value) in more {
        put(rows, name, value);
    }
}

/// Puts a copy of a row.
fn put_copy<V: Exact + Drop>(
    alloc: Global,
    rows: &mut Kept<V>,
    name: &Text,
    value: &V,
) -> Result<(), Memory>
    ensures { OnOk result (rows.new.entries ≡ put_row rows.old.entries name.now value.now) }
{
    let name = name.copy(alloc)?;
    let value = value.copy(alloc)?;
    rows.insert(name, value)?;
    Ok(())
}

/// Gives rows for which there is room, one after another. It takes no memory.
fn give_each<V: Drop>(rows: &mut Kept<Option<V>>, more: Vec<(Text, Option<V>)>)
    requires room { length more.items ≤ spare rows.old }
    ensures rows { rows.new.entries ≡ give_rows rows.old.entries more.items }
{
    for (name, value) in more {
        give(rows, name, value);
    }
}

/// Gives a row for which there is room. It takes no memory.
fn give<V: Drop>(rows: &mut Kept<Option<V>>, name: Text, value: Option<V>)
    requires room { 0 < spare rows.old }
    ensures rows { rows.new.entries ≡ give_row rows.old.entries name value }
    ensures spare { spare rows.old ≤ spare rows.new + 1 }
{
    if value.is_some() {
        put(rows, name, value);
        return;
    }
    if !rows.contains_key(&name) {
        put(rows, name, value);
    }
}
