// The parts of an operation, alone and in lists: kinds of values of other crates, of which `strict` has none, since a trait of another
// crate is implemented for types of one's own alone.

ghost use Rattle.std.specs.Prelude.{◌≡◌, IfOk};
ghost use Rattle.std.specs.List.{AllByRecursion};
ghost use Rattle.std.specs.Option.{option_and_then};
ghost use Rattle.serde_json.specs.Find.{get};
ghost use Rattle.serde_json.specs.View.{view, items_view};
ghost use Rattle.strict.specs.Gives.{Gives};
ghost use Rattle.strict.specs.Strict.{all_in, list_in};
ghost use Rattle.strict.specs.Written.{list_data};

use plain::{Fault, Items, Memory};
use serde_json::Value;
use std::alloc::Global;
use strict::{NotRead, ReadFault};

/// Parts of a kind that is read from JSON.
pub(crate) trait Readable: Sized + Drop {
    ghost use Rattle.std.specs.Prelude.{Option};
    ghost use Rattle.serde_json.specs.Data.{Data};

    ghost reading: { Data → Option Self };

    /// What a value is. `NotRead` where it is nothing of this kind.
    fn read(alloc: Global, value: &Value) -> Result<Self, ReadFault>
        ensures { Gives result (reading (view value.now)) };
}

/// What stands at a key.
pub(crate) fn part_at<T: Readable>(alloc: Global, value: &Value, key: &str) -> Result<T, ReadFault>
    ensures { Gives result (option_and_then T.reading (get key.now (view value.now))) }
{
    match value.get(key) {
        Some(value) => T::read(alloc, value),
        None => Err(Fault::Because(NotRead)),
    }
}

/// A list that stands at a key.
pub(crate) fn parts_at<T: Readable>(
    alloc: Global,
    value: &Value,
    key: &str,
) -> Result<Items<T>, ReadFault>
    ensures { Gives result (option_and_then (list_in T.reading) (get key.now (view value.now))) }
{
    match value.get(key) {
        Some(value) => read_list(alloc, value),
        None => Err(Fault::Because(NotRead)),
    }
}

/// A list of parts of one kind.
#[tactic(auto, unfolding(strict::specs::Strict::list_in))]
fn read_list<T: Readable>(alloc: Global, value: &Value) -> Result<Items<T>, ReadFault>
    ensures { Gives result (list_in T.reading (view value.now)) }
{
    let Some(values) = value.as_array() else {
        return Err(Fault::Because(NotRead));
    };
    read_parts(alloc, values.as_slice())
}

/// What each of some values is.
fn read_parts<T: Readable>(alloc: Global, values: &[Value]) -> Result<Items<T>, ReadFault>
    ensures { Gives result (all_in T.reading (items_view values.now)) }
{
    let mut parts = Items::new(alloc);
    for value in values {
        parts.push(T::read(alloc, value)?)?;
    }
    Ok(parts)
}

/// Parts of a kind that is written as JSON.
pub(crate) trait Writable {
    ghost use Rattle.serde_json.specs.Data.{Data};

    // as what a value is written
    ghost written: { Self → Data };

    // what the types of its parts keep
    ghost proper: { Self → Type 0 };

    /// The part as JSON.
    fn write(&self, alloc: Global) -> Result<Value, Memory>
        ensures data { IfOk result (λ v. view v ≡ written self.now) }
        ensures proper { IfOk result (λ _. proper self.now) };
}

/// A list of parts as JSON, in their order.
pub(crate) fn parts_value<T: Writable>(alloc: Global, parts: &[T]) -> Result<Value, Memory>
    ensures data { IfOk result (λ v. view v ≡ list_data T.written parts.now) }
    ensures proper { IfOk result (λ _. AllByRecursion T.proper parts.now) }
{
    let mut values = Vec::with_capacity(alloc, parts.len())?;
    for part in parts {
        values.push(part.write(alloc)?)?;
    }
    Ok(Value::Array(values))
}
