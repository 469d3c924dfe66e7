ghost use Rattle.std.specs.Prelude.{◌≡◌, IfOk};
ghost use Rattle.json.specs.Value.{items_view as items_lent, members_view as members_lent};
ghost use Rattle.serde_json.specs.Data.{no_members};
ghost use Rattle.serde_json.specs.Read.{number_of};
ghost use Rattle.serde_json.specs.View.{view, items_view, members_view};
ghost use Rattle.borrowed.specs.Seen.{data_of, seen_number, seen_items, seen_members};

use crate::numbers::read_number;
use json::Value;
use plain::Memory;
use serde_json::Map;
use std::alloc::Global;

/// A copy of a value that owns its texts, for readers that take a `serde_json::Value`. A number that is out of range, of which `read`
/// answers none, is null.
#[cycle(own)]
pub fn owned(alloc: Global, value: &Value<'_>) -> Result<serde_json::Value, Memory>
    ensures { IfOk result (λ v. view v ≡ data_of value.now) }
{
    match value {
        Value::Null => Ok(serde_json::Value::Null),
        Value::Bool(flag) => Ok(serde_json::Value::Bool(*flag)),
        Value::Number(text) => Ok(owned_number(text)),
        Value::String(text) => Ok(serde_json::Value::String(String::from_str(alloc, text)?)),
        Value::Array(values) => Ok(serde_json::Value::Array(owned_items(alloc, values)?)),
        Value::Object(members) => Ok(serde_json::Value::Object(owned_members(alloc, members)?)),
    }
}

/// A number, where it is in range, else null.
fn owned_number(text: &str) -> serde_json::Value
    ensures { view result ≡ seen_number (number_of text.now) }
{
    match read_number(text) {
        Some(number) => serde_json::Value::Number(number),
        None => serde_json::Value::Null,
    }
}

/// Copies of some values.
#[cycle(own)]
fn owned_items(alloc: Global, values: &[Value<'_>]) -> Result<Vec<serde_json::Value>, Memory>
    ensures { IfOk result (λ v. items_view v.items ≡ seen_items (items_lent values.now)) }
{
    let mut copies = Vec::with_capacity(alloc, values.len())?;
    for value in values {
        copies.push(owned(alloc, value)?)?;
    }
    Ok(copies)
}

/// Copies of some members, of each key the last.
#[cycle(own)]
fn owned_members(
    alloc: Global,
    members: &[(&str, Value<'_>)],
) -> Result<Map<String, serde_json::Value>, Memory>
    ensures { IfOk result
        (λ m. members_view m.entries ≡ seen_members (members_lent members.now) no_members) }
{
    let mut copies = Map::new(alloc);
    for member in members {
        let key = String::from_str(alloc, member.0)?;
        let copy = owned(alloc, &member.1)?;
        drop(copies.insert(key, copy)?);
    }
    Ok(copies)
}
