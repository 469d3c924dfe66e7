// How a value of any kind is looked at, and the ways that are found.

ghost use Rattle.std.specs.Prelude.{◌≡◌, [], ◌∷◌, IfOk};
ghost use Rattle.borrowed.specs.Seen.{data_of};
ghost use Rattle.borrowed.specs.Lent.{items_data};
ghost use Rattle.flaws.specs.Looks.{below, read_as, optional, required, among_items, items, rows};
ghost use Rattle.flaws.specs.PrivateRows.{first_found};

use crate::flaw::Step;
use borrowed::{FromLent, FromLentKeyed, at, keyed_rows, list_of};
use json::Value;
use plain::{Fault, Items, Memory, Text};
use std::alloc::Global;
use std::hash::RandomState;
use std::marker::PhantomData;
use strict::ReadFault;

/// Values of a kind that is looked at.
pub(crate) trait Look {
    ghost use Rattle.std.specs.Prelude.{Option, List};
    ghost use Rattle.serde_json.specs.Data.{Data};
    ghost use Rattle.flaws.specs.declared.flaw.Step.{Step};

    ghost looks: { Data → Option (List Step) };

    /// The way to where a value is wrong; none if it is of this kind.
    fn look(
        alloc: Global,
        keys: RandomState,
        value: &Value<'_>,
    ) -> Result<Option<Items<Step>>, Memory>
        ensures { IfOk result (λ found. found ≡ looks (data_of value.now)) };
}

/// The way of this one step.
pub(crate) fn one_step(alloc: Global, step: Step) -> Result<Items<Step>, Memory>
    ensures { IfOk result (λ way. way ≡ step ∷ []) }
{
    let mut way = Items::new(alloc);
    way.push(step)?;
    Ok(way)
}

/// The way to this key.
pub(crate) fn to_key(alloc: Global, key: &str) -> Result<Items<Step>, Memory>
    ensures { IfOk result (λ way. way ≡ Step.Key key.now ∷ []) }
{
    one_step(alloc, Step::Key(Text::from_str(alloc, key)?))
}

/// A way that begins with this step and goes on so.
fn after_step(step: Step, way: Items<Step>) -> Result<Items<Step>, Memory>
    ensures { IfOk result (λ whole. whole ≡ step ∷ way) }
{
    let mut steps = way.into_vec();
    steps.insert(0, step)?;
    Ok(Items::from_vec(steps))
}

/// The way that was found below a key, seen from the object.
fn below_key(
    alloc: Global,
    key: &str,
    found: Option<Items<Step>>,
) -> Result<Option<Items<Step>>, Memory>
    ensures { IfOk result (λ way. way ≡ below (Step.Key key.now) found) }
{
    match found {
        Some(way) => {
            let key = Text::from_str(alloc, key)?;
            Ok(Some(after_step(Step::Key(key), way)?))
        }
        None => Ok(None),
    }
}

/// Where a value is wrong that stands at a key which may be missing.
pub(crate) fn optional<L: Look>(
    alloc: Global,
    keys: RandomState,
    value: &Value<'_>,
    key: &str,
) -> Result<Option<Items<Step>>, Memory>
    ensures { IfOk result (λ found. found ≡ optional key.now L.looks (data_of value.now)) }
{
    match at(value, key) {
        Some(value) => below_key(alloc, key, L::look(alloc, keys, value)?),
        None => Ok(None),
    }
}

/// Where a value is wrong that stands at a key which may not be missing.
pub(crate) fn required<L: Look>(
    alloc: Global,
    keys: RandomState,
    value: &Value<'_>,
    key: &str,
) -> Result<Option<Items<Step>>, Memory>
    ensures { IfOk result (λ found. found ≡ required key.now L.looks (data_of value.now)) }
{
    match at(value, key) {
        Some(value) => below_key(alloc, key, L::look(alloc, keys, value)?),
        None => Ok(Some(to_key(alloc, key)?)),
    }
}

/// Where a value is wrong that has to be read as this.
pub(crate) fn read_as<T: FromLent>(
    alloc: Global,
    value: &Value<'_>,
) -> Result<Option<Items<Step>>, Memory>
    ensures { IfOk result (λ found. found ≡ read_as T.reading (data_of value.now)) }
{
    match T::from_lent(alloc, value) {
        Ok(read) => {
            drop(read);
            Ok(None)
        }
        Err(Fault::Because(_)) => Ok(Some(Items::new(alloc))),
        Err(Fault::Memory) => Err(Memory),
    }
}

/// The same of what is read with these keys.
pub(crate) fn read_keyed<T: FromLentKeyed>(
    alloc: Global,
    keys: RandomState,
    value: &Value<'_>,
) -> Result<Option<Items<Step>>, Memory>
    ensures { IfOk result (λ found. found ≡ read_as T.reading (data_of value.now)) }
{
    match T::from_lent_keyed(alloc, keys, value) {
        Ok(read) => {
            drop(read);
            Ok(None)
        }
        Err(Fault::Because(_)) => Ok(Some(Items::new(alloc))),
        Err(Fault::Memory) => Err(Memory),
    }
}

/// Where the first of some values is wrong that is.
fn among_items<L: Look>(
    alloc: Global,
    keys: RandomState,
    values: &[Value<'_>],
) -> Result<Option<Items<Step>>, Memory>
    ensures { IfOk result (λ found. found ≡ among_items L.looks 0 (items_data values.now)) }
{
    for (place, value) in values.iter().enumerate() {
        if let Some(way) = L::look(alloc, keys, value)? {
            return Ok(Some(after_step(Step::Item(place), way)?));
        }
    }
    Ok(None)
}

/// Where a list is wrong.
pub(crate) fn items<L: Look>(
    alloc: Global,
    keys: RandomState,
    value: &Value<'_>,
) -> Result<Option<Items<Step>>, Memory>
    ensures { IfOk result (λ found. found ≡ items L.looks (data_of value.now)) }
{
    match list_of(value) {
        Some(values) => among_items::<L>(alloc, keys, values),
        None => Ok(Some(Items::new(alloc))),
    }
}

/// What was found of a value. Any value is read as one, so an object's members are looked at in the order of their keys' bytes.
#[derive(Drop)]
pub(crate) struct Looked<L> {
    pub(crate) found: Option<Items<Step>>,
    pub(crate) kind: PhantomData<L>,
}

impl<L: Look> FromLentKeyed for Looked<L> {
    ghost use Rattle.std.specs.Prelude.{Some};
    ghost use Rattle.flaws.specs.PrivateRows.{looked};

    ghost reading = { λ d. Some (looked (L.looks d)) };

    fn from_lent_keyed(
        alloc: Global,
        keys: RandomState,
        value: &Value<'_>,
    ) -> Result<Looked<L>, ReadFault> {
        let found = L::look(alloc, keys, value)?;
        Ok(Looked {
            found,
            kind: PhantomData,
        })
    }
}

/// What was found first of some members, with its key.
fn first_found<L>(rows: Items<(Text, Looked<L>)>) -> Result<Option<Items<Step>>, Memory>
    ensures { IfOk result (λ found. found ≡ first_found rows) }
{
    for (key, looked) in rows.into_vec() {
        if let Some(way) = looked.found {
            return Ok(Some(after_step(Step::Key(key), way)?));
        }
    }
    Ok(None)
}

/// Where an object of any keys is wrong.
#[tactic(auto, using(crate::proofs::RowFacts::rows_found))]
pub(crate) fn rows<L: Look>(
    alloc: Global,
    keys: RandomState,
    value: &Value<'_>,
) -> Result<Option<Items<Step>>, Memory>
    ensures { IfOk result (λ found. found ≡ rows L.looks (data_of value.now)) }
{
    match keyed_rows::<Looked<L>>(alloc, keys, value) {
        Ok(rows) => first_found(rows),
        Err(Fault::Because(_)) => Ok(Some(Items::new(alloc))),
        Err(Fault::Memory) => Err(Memory),
    }
}
