ghost use Rattle.std.specs.Prelude.{◌≡◌, ◌==◌, ◌↔◌, [], length, map, true, IsTrue, IfOk, OnOk, OnErr};
ghost use Rattle.std.specs.List.{list_all};
ghost use Rattle.plain.specs.Variable.{HaveNames};
ghost use Rattle.plain.specs.VariableName.{is_variable_name};
ghost use Rattle.serde_json.specs.View.{view, members_view, items_view, items_of};
ghost use Rattle.serde_json.specs.Data.{no_members};
ghost use Rattle.strict.specs.Gives.{Gives};
ghost use Rattle.strict.specs.Written.{list_data};
ghost use Rattle.imageconfig.specs.Environment.{row_of, variables_of};
ghost use Rattle.imageconfig.specs.PrivateRows.{add_rows};
ghost use Rattle.imageconfig.specs.Reading.{if_they_differ};
ghost use Rattle.imageconfig.specs.Rows.{names_of, put_rows};
ghost use Rattle.imageconfig.specs.Writing.{variable_data, put_texts_of, rows_data};

use indexmap::map::Slice;
use named::NamedRows;
use plain::{Exact, Fault, Items, Memory, Text, Variable, VariableName};
use serde_json::{Map, Value};
use std::alloc::Global;
use std::hash::RandomState;
use std::marker::Model;
use strict::{NotRead, ReadFault, put};

/// Values by names, in the order in which the names came first.
#[derive(Drop)]
pub struct Rows {
    rows: NamedRows<Text>,
}

impl Model for Rows {
    ghost use Rattle.std.specs.Prelude.{List, ℕ};
    ghost use Rattle.std.specs.Coded.{coded_list, coded_ℕ, coded×};

    ghost Value = { List (List ℕ × List ℕ) };

    ghost coded = { coded_list (coded× (coded_list coded_ℕ) (coded_list coded_ℕ)) };

    ghost view = { λ r. r.rows };
}

impl Rows {
    /// No rows, whose names are found by a hash with these keys. It takes no memory.
    pub fn new(alloc: Global, keys: RandomState) -> Rows
        ensures { result ≡ [] }
    {
        Rows {
            rows: NamedRows::new(alloc, keys),
        }
    }

    /// Whether there is no row.
    pub fn is_empty(&self) -> bool
        ensures { result ≡ (length self.now == 0) }
    {
        self.rows.is_empty()
    }

    /// The rows, lent.
    pub fn as_slice(&self) -> Slice<'_, Text, Text>
        ensures { result ≡ self.now }
    {
        self.rows.as_slice()
    }

    /// Rows of which none may have another one's name. `NotRead` where two have the same.
    pub(crate) fn once(
        alloc: Global,
        keys: RandomState,
        rows: Items<(Text, Text)>,
    ) -> Result<Rows, ReadFault>
        ensures { Gives result (if_they_differ rows) }
    {
        Rows::added(alloc, keys, rows)
    }

    /// The same, as the rows are taken one after another.
    fn added(alloc: Global, keys: RandomState, rows: Items<(Text, Text)>) -> Result<Rows, ReadFault>
        ensures { Gives result (add_rows [] rows) }
    {
        let mut once = NamedRows::new(alloc, keys);
        for (name, value) in rows.into_vec() {
            if !once.add(name, value)? {
                return Err(Fault::Because(NotRead));
            }
        }
        Ok(Rows { rows: once })
    }

    /// Gives names values. After `Memory` the rows are as they were.
    pub(crate) fn set_all(&mut self, rows: Items<(Text, Text)>) -> Result<(), Memory>
        ensures ok { OnOk result (self.new ≡ put_rows self.old rows) }
        ensures err { OnErr result (self.new ≡ self.old) }
    {
        self.rows.set_all(rows)
    }

    /// The rows as variables.
    pub(crate) fn variables(&self, alloc: Global) -> Result<Items<Variable>, Memory>
        requires { list_all is_variable_name (names_of self.now) ≡ true }
        ensures { IfOk result (λ variables. variables ≡ variables_of self.now) }
    {
        variables(alloc, &self.rows)
    }

    /// The rows as a list of texts `NAME=VALUE`.
    pub(crate) fn to_list(&self, alloc: Global) -> Result<Value, Memory>
        ensures { IfOk result (λ v. view v ≡ list_data variable_data self.now) }
    {
        let values = texts(alloc, &self.rows)?;
        Ok(Value::Array(values))
    }

    /// The rows as an object of texts.
    #[tactic(auto, unfolding(crate::specs::Writing::rows_data))]
    pub(crate) fn to_json(&self, alloc: Global) -> Result<Value, Memory>
        ensures { IfOk result (λ v. view v ≡ rows_data self.now) }
    {
        let members = members(alloc, &self.rows)?;
        Ok(Value::Object(members))
    }
}

impl Exact for Rows {
    fn same(&self, other: &Rows) -> bool {
        are_rows_same(&self.rows, &other.rows)
    }

    fn copy(&self, alloc: Global) -> Result<Rows, Memory> {
        let rows = self.rows.copy(alloc)?;
        Ok(Rows { rows })
    }
}

/// Whether two lists of rows are the same.
fn are_rows_same(these: &NamedRows<Text>, those: &NamedRows<Text>) -> bool
    ensures { IsTrue result ↔ (these.now ≡ those.now) }
{
    these.as_slice() == those.as_slice()
}

/// Variables as rows.
pub(crate) fn variable_rows(
    alloc: Global,
    variables: &[Variable],
) -> Result<Items<(Text, Text)>, Memory>
    ensures rows { IfOk result (λ rows. rows ≡ map row_of variables.now) }
    ensures names { IfOk result (λ rows. HaveNames variables.now) }
{
    let mut rows = Items::new(alloc);
    for variable in variables {
        let name = variable.name.as_text().copy(alloc)?;
        let value = variable.value.copy(alloc)?;
        rows.push((name, value))?;
    }
    Ok(rows)
}

/// A text `NAME=VALUE`.
fn variable_value(alloc: Global, name: &str, value: &str) -> Result<Value, Memory>
    ensures { IfOk result (λ v. view v ≡ variable_data (name.now, value.now)) }
{
    let mut text = String::from_str(alloc, name)?;
    text.push('=')?;
    text.push_str(value)?;
    Ok(Value::String(text))
}

/// A text `NAME=VALUE` for each row.
fn texts(alloc: Global, rows: &NamedRows<Text>) -> Result<Vec<Value>, Memory>
    ensures { IfOk result (λ values. items_view values.items ≡ items_of (map variable_data rows.now)) }
{
    let mut values = Vec::new(alloc);
    for (name, value) in rows.as_slice().iter() {
        values.push(variable_value(alloc, name.as_str(), value.as_str())?)?;
    }
    Ok(values)
}

/// The members of an object, one for each row.
fn members(alloc: Global, rows: &NamedRows<Text>) -> Result<Map<String, Value>, Memory>
    ensures { IfOk result (λ m. members_view m.entries ≡ put_texts_of rows.now no_members) }
{
    let mut members = Map::new(alloc);
    for (name, value) in rows.as_slice().iter() {
        let text = Value::String(String::from_str(alloc, value.as_str())?);
        put(alloc, &mut members, name.as_str(), text)?;
    }
    Ok(members)
}

/// The rows as variables.
fn variables(alloc: Global, rows: &NamedRows<Text>) -> Result<Items<Variable>, Memory>
    requires { list_all is_variable_name (names_of rows.now) ≡ true }
    ensures { IfOk result (λ variables. variables ≡ variables_of rows.now) }
{
    let mut variables = Items::new(alloc);
    for (name, value) in rows.as_slice().iter() {
        let name = VariableName::of(name.copy(alloc)?);
        let value = value.copy(alloc)?;
        variables.push(Variable { name, value })?;
    }
    Ok(variables)
}
