ghost use Rattle.std.specs.Prelude.{◌≡◌, IfOk, OnOk, OnErr};
ghost use Rattle.std.specs.List.{AllByRecursion};
ghost use Rattle.serde_json.specs.View.{view, members_view};
ghost use Rattle.serde_json.specs.Data.{put};
ghost use Rattle.strict.specs.Written.{list_data};

use plain::{Memory, Text};
use serde_json::{Map, Value};
use std::alloc::Global;

/// Values of a kind that is written as JSON.
pub trait ToJson {
    ghost use Rattle.serde_json.specs.Data.{Data};

    // as what a value is written
    ghost written: { Self → Data };

    // what is known of each value of the kind
    ghost known: { Self → Type 0 } = { λ _. Unit {0} };

    /// The value as JSON.
    fn to_json(&self, alloc: Global) -> Result<Value, Memory>
        ensures data { IfOk result (λ v. view v ≡ written self.now) }
        ensures known { IfOk result (λ _. known self.now) };
}

impl ToJson for Text {
    ghost use Rattle.serde_json.specs.Data.{string};

    ghost written = { λ text. string text };

    fn to_json(&self, alloc: Global) -> Result<Value, Memory> {
        Ok(Value::String(String::from_str(alloc, self.as_str())?))
    }
}

/// A list of values as JSON, in their order.
pub fn list_to_json<T: ToJson>(alloc: Global, items: &[T]) -> Result<Value, Memory>
    ensures data { IfOk result (λ v. view v ≡ list_data T.written items.now) }
    ensures known { IfOk result (λ _. AllByRecursion T.known items.now) }
{
    let mut values = Vec::with_capacity(alloc, items.len())?;
    for item in items {
        values.push(item.to_json(alloc)?)?;
    }
    Ok(Value::Array(values))
}

/// Gives a key of an object this value, in place of the one that it had, if any. After `Memory` the object is as it was.
pub fn put(
    alloc: Global,
    members: &mut Map<String, Value>,
    key: &str,
    value: Value,
) -> Result<(), Memory>
    ensures ok { OnOk result
        (members_view members.new.entries ≡ put key.now (view value) (members_view members.old.entries)) }
    ensures err { OnErr result (members.new.entries ≡ members.old.entries) }
{
    members.insert(String::from_str(alloc, key)?, value)?;
    Ok(())
}
