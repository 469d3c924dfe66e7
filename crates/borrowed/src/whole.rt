ghost use Rattle.std.specs.Prelude.{◌≡◌};
ghost use Rattle.serde_json.specs.Read.{read};
ghost use Rattle.json.specs.Value.{value_view, items_view, members_view};
ghost use Rattle.borrowed.specs.PrivateRange.{in_range, items_in_range, members_in_range};
ghost use Rattle.borrowed.specs.Lent.{GivesData};
ghost use Rattle.borrowed.specs.PrivateText.{GivesJson, json_of};

use crate::numbers::read_number;
use json::{Error, Reader, Scratch, Value};
use plain::Fault;
use std::alloc::Global;
use strict::{NotRead, ReadFault};

/// How deep arrays and objects may nest, as in `serde_json`.
pub const MAX_DEPTH: usize = 127;

/// The value that a text is. `NotRead` where it is none: no JSON, nested too deep, or with a number that is out of range. The value's
/// strings are parts of the text, or of `scratch` where they were written with escapes.
pub fn read<'a>(
    alloc: Global,
    text: &'a str,
    scratch: &'a mut Scratch,
) -> Result<Value<'a>, ReadFault>
    ensures { GivesData result (read text.now) }
{
    let value = read_any(alloc, text, scratch)?;
    if is_in_range(&value) {
        return Ok(value);
    }
    drop(value);
    Err(Fault::Because(NotRead))
}

/// The value that a text is, whatever its numbers.
fn read_any<'a>(
    alloc: Global,
    text: &'a str,
    scratch: &'a mut Scratch,
) -> Result<Value<'a>, ReadFault>
    ensures { GivesJson result (json_of text.now) }
{
    let Ok(mut reader) = Reader::new(text, scratch) else {
        return Err(Fault::Memory);
    };
    match Value::read(alloc, &mut reader, MAX_DEPTH) {
        Ok(value) => {
            if reader.next().is_none() {
                return Ok(value);
            }
            drop(value);
            Err(Fault::Because(NotRead))
        }
        Err(Error::OutOfMemory) => Err(Fault::Memory),
        Err(_) => Err(Fault::Because(NotRead)),
    }
}

/// Whether each number in a value has a value.
#[cycle(range)]
pub(crate) fn is_in_range(value: &Value<'_>) -> bool
    ensures { result ≡ in_range (value_view value.now) }
{
    match value {
        Value::Null | Value::Bool(_) | Value::String(_) => true,
        Value::Number(text) => read_number(text).is_some(),
        Value::Array(values) => are_in_range(values),
        Value::Object(members) => are_members_in_range(members),
    }
}

/// Whether each number in some values has a value.
#[cycle(range)]
fn are_in_range(values: &[Value<'_>]) -> bool
    ensures { result ≡ items_in_range (items_view values.now) }
{
    for value in values {
        if !is_in_range(value) {
            return false;
        }
    }
    true
}

/// Whether each number in some members has a value.
#[cycle(range)]
fn are_members_in_range(members: &[(&str, Value<'_>)]) -> bool
    ensures { result ≡ members_in_range (members_view members.now) }
{
    for member in members {
        if !is_in_range(&member.1) {
            return false;
        }
    }
    true
}
