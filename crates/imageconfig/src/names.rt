ghost use Rattle.std.specs.Prelude.{◌≡◌, ◌==◌, ◌↔◌, [], length, map, IsTrue, IfOk, OnOk, OnErr};
ghost use Rattle.std.specs.String.{string_bytes};
ghost use Rattle.serde_json.specs.View.{view, members_view};
ghost use Rattle.serde_json.specs.Data.{no_members};
ghost use Rattle.serde_json.specs.Written.{compact_text};
ghost use Rattle.imageconfig.specs.PrivateRows.{of_names};
ghost use Rattle.imageconfig.specs.Rows.{add_names};
ghost use Rattle.imageconfig.specs.Writing.{put_names, names_data};

use named::{NamedRows, Present};
use plain::{Exact, Items, Memory, Text};
use serde_json::{Map, Value};
use std::alloc::Global;
use std::hash::RandomState;
use std::marker::Model;
use strict::put;

/// Names, each once, in the order in which they came first.
#[derive(Drop)]
pub struct Names {
    names: NamedRows<Present>,
}

impl Model for Names {
    ghost use Rattle.std.specs.Prelude.{List, ℕ};
    ghost use Rattle.std.specs.Coded.{coded_list, coded_ℕ};
    ghost use Rattle.imageconfig.specs.PrivateRows.{of_names};

    ghost Value = { List (List ℕ) };

    ghost coded = { coded_list (coded_list coded_ℕ) };

    ghost view = { λ n. of_names n.names };
}

impl Names {
    /// No names, which are found by a hash with these keys. It takes no memory.
    pub fn new(alloc: Global, keys: RandomState) -> Names
        ensures { result ≡ [] }
    {
        Names {
            names: NamedRows::new(alloc, keys),
        }
    }

    /// Whether there is no name.
    pub fn is_empty(&self) -> bool
        ensures { result ≡ (length self.now == 0) }
    {
        self.names.is_empty()
    }

    /// Adds names, but for those that are there. After `Memory` the names are as they were.
    pub(crate) fn add_all(&mut self, alloc: Global, names: Items<Text>) -> Result<(), Memory>
        ensures ok { OnOk result (self.new ≡ add_names self.old names) }
        ensures err { OnErr result (self.new ≡ self.old) }
    {
        let rows = present(alloc, names)?;
        self.names.set_all(rows)
    }

    /// The names as an object whose values are empty objects.
    #[tactic(auto, unfolding(crate::specs::Writing::names_data))]
    pub(crate) fn to_json(&self, alloc: Global) -> Result<Value, Memory>
        ensures { IfOk result (λ v. view v ≡ names_data self.now) }
    {
        let members = members(alloc, &self.names)?;
        Ok(Value::Object(members))
    }

    /// The names as compact JSON: an object whose values are empty objects.
    pub fn to_text(&self, alloc: Global) -> Result<String, Memory>
        ensures { IfOk result (λ text. string_bytes text ≡ compact_text (names_data self.now)) }
    {
        let value = self.to_json(alloc)?;
        let text = value.to_string(alloc)?;
        Ok(text)
    }
}

impl Exact for Names {
    fn same(&self, other: &Names) -> bool {
        are_names_same(&self.names, &other.names)
    }

    fn copy(&self, alloc: Global) -> Result<Names, Memory> {
        let names = self.names.copy(alloc)?;
        Ok(Names { names })
    }
}

/// Whether two sets have the same names in the same order.
fn are_names_same(these: &NamedRows<Present>, those: &NamedRows<Present>) -> bool
    ensures { IsTrue result ↔ (of_names these.now ≡ of_names those.now) }
{
    these.as_slice().keys().as_slice() == those.as_slice().keys().as_slice()
}

/// Names as rows of a set.
fn present(alloc: Global, names: Items<Text>) -> Result<Items<(Text, Present)>, Memory>
    ensures { IfOk result (λ rows. of_names rows ≡ names) }
{
    let mut rows = Items::new(alloc);
    for name in names.into_vec() {
        rows.push((name, Present))?;
    }
    Ok(rows)
}

/// The members of an object, one for each name.
fn members(alloc: Global, names: &NamedRows<Present>) -> Result<Map<String, Value>, Memory>
    ensures { IfOk result (λ m. members_view m.entries ≡ put_names (of_names names.now) no_members) }
{
    let mut members = Map::new(alloc);
    for (name, _) in names.as_slice().iter() {
        put(
            alloc,
            &mut members,
            name.as_str(),
            Value::Object(Map::new(alloc)),
        )?;
    }
    Ok(members)
}
