ghost use Rattle.std.specs.Prelude.{◌≡◌, ◌≤◌, ◌<◌, map, length, option_map};
ghost use Rattle.std.specs.List.{list_any};
ghost use Rattle.std.specs.Option.{option_and_then};
ghost use Rattle.plain.specs.Limits.{most_vertices};
ghost use Rattle.serde_json.specs.Find.{get};
ghost use Rattle.serde_json.specs.View.{view};
ghost use Rattle.definition.specs.Lines.{operation_in};
ghost use Rattle.definition.specs.Reading.{IsReadAs, IsEnd, parted, parted_few, parts_in, as_list, version_in, is_end, only, end_in};
ghost use Rattle.definition.specs.PrivateReading.{IsAllRead, IsOneRead};
ghost use Rattle.strict.specs.Gives.{Gives};

use crate::known::Known;
use crate::lines::operation_in;
use crate::{DefFault, Defect};
use llb::{Graph, VertexId};
use operations::inputs_in;
use plain::limits::MOST_VERTICES;
use plain::{Exact, Fault, Text};
use serde_json::Value;
use std::alloc::Global;
use strict::{NotRead, ReadFault, is_strict};

/// Reads a definition of version 1 or 2: its graph, and the vertex that its end points to. Behind the vertices are the lines that the
/// operations say; in version 1 they say none.
///
/// The operations are gone through in their order, and the first that has a defect decides: `Malformed` where it is no operation that is
/// well formed on its inputs, `Unknown` where an input names none before it, `Repeated` where an equal one stands before it, `Clash` where a
/// different one before it has the same address. Neither equality nor address knows lines. In version 2 an operation is `Malformed` also where
/// it doesn't say its lines, as a list of numbers from 1 to `plain::limits::MOST_LINE_NUMBER` in ascending order, each once; in version 1 where it
/// says them. `Malformed(0)` where the text isn't an object of just the keys `ops` and `version`, of version 1 or 2, of which the last operation
/// alone says that it is the end, and at most 16,384 stand before it.
pub fn read(alloc: Global, text: &str) -> Result<(Graph, VertexId), DefFault>
    ensures { IsReadAs text.now result }
{
    match Value::from_str(alloc, text) {
        Ok(value) => {
            let Some(parts) = parts_in(value) else {
                return Err(Fault::Because(Defect::Malformed(0)));
            };
            let Parts {
                says_lines,
                operations,
                end,
            } = parts;
            let known = read_operations(alloc, says_lines, operations)?;
            match read_end(alloc, &end, &known) {
                Ok(wanted) => Ok((known.into_graph(), wanted)),
                Err(fault) => Err(fault),
            }
        }
        Err(e) => {
            if e.is_memory() {
                Err(Fault::Memory)
            } else {
                Err(Fault::Because(Defect::Malformed(0)))
            }
        }
    }
}

/// A definition taken apart: whether its operations have to say their lines, these, and the end.
#[derive(Drop)]
struct Parts {
    says_lines: bool,
    operations: Vec<Value>,
    end: Value,
}

/// The operations and the end of a definition, where a value has that shape.
#[tactic(auto, unfolding(crate::specs::Reading::parts_in))]
fn parts_in(value: Value) -> Option<Parts>
    ensures { option_map (λ parts. (map (operation_in parts.says_lines) (map view parts.operations.items), view parts.end)) result
        ≡ parts_in (view value) }
{
    if !is_strict(&value, &["ops", "version"]) {
        return None;
    }
    let says_lines = version_at(&value, "version")?;
    let values = list_at(value, "ops")?;
    let (operations, end) = parted_few(values)?;
    Some(Parts {
        says_lines,
        operations,
        end,
    })
}

/// Whether operations have to say their lines, by the version at a key.
fn version_at(value: &Value, key: &str) -> Option<bool>
    ensures { result ≡ option_and_then version_in (get key.now (view value.now)) }
{
    let version = value.get(key)?;
    version_in(version)
}

/// Whether operations have to say their lines, by what stands for the version.
fn version_in(value: &Value) -> Option<bool>
    ensures { result ≡ version_in (view value.now) }
{
    match value.as_u64() {
        Some(1) => Some(false),
        Some(2) => Some(true),
        _ => None,
    }
}

/// The values of the list at a key.
fn list_at(value: Value, key: &str) -> Option<Vec<Value>>
    ensures { option_map (λ values. map view values.items) result ≡ option_and_then as_list (get key.now (view value)) }
{
    match value {
        Value::Object(mut members) => {
            let list = members.remove(key)?;
            values_of(list)
        }
        _ => None,
    }
}

/// The values of a list.
fn values_of(value: Value) -> Option<Vec<Value>>
    ensures { option_map (λ values. map view values.items) result ≡ as_list (view value) }
{
    match value {
        Value::Array(values) => Some(values),
        _ => None,
    }
}

/// Values of which the last one alone says that it is an end, and that are no more than a graph has.
#[tactic(auto, unfolding(crate::specs::Reading::parted_few))]
fn parted_few(values: Vec<Value>) -> Option<(Vec<Value>, Value)>
    ensures { option_map (λ parts. (map view parts.0.items, view parts.1)) result ≡ parted_few (map view values.items) }
{
    let (operations, end) = parted(values)?;
    if operations.len() <= MOST_VERTICES {
        Some((operations, end))
    } else {
        None
    }
}

/// Values of which the last one alone says that it is an end: those before it, and it.
fn parted(values: Vec<Value>) -> Option<(Vec<Value>, Value)>
    ensures { option_map (λ parts. (map view parts.0.items, view parts.1)) result ≡ parted (map view values.items) }
{
    let mut operations = values;
    let end = operations.pop()?;
    if has_end(operations.as_slice()) {
        return None;
    }
    if !is_end(&end) {
        return None;
    }
    Some((operations, end))
}

/// Whether one of the values says that it is an end.
fn has_end(values: &[Value]) -> bool
    ensures { result ≡ list_any (λ v. is_end (view v)) values.now }
{
    values.iter().any(is_end)
}

/// Whether a value says that it is an end.
fn is_end(value: &Value) -> bool
    ensures { result ≡ is_end (view value.now) }
{
    match value.get("op").and_then(Value::as_str) {
        Some(kind) => kind == "end",
        None => false,
    }
}

/// The graph that operations make one after another.
fn read_operations(
    alloc: Global,
    says_lines: bool,
    operations: Vec<Value>,
) -> Result<Known, DefFault>
    requires { length operations.items ≤ most_vertices }
    ensures { IsAllRead (map (operation_in says_lines) (map view operations.items)) result }
{
    let mut known = Known::new(alloc);
    for value in operations {
        match read_operation(alloc, says_lines, known, value) {
            Ok(more) => known = more,
            Err(fault) => return Err(fault),
        }
    }
    Ok(known)
}

/// The graph with the vertex of one operation more, and its lines.
fn read_operation(
    alloc: Global,
    says_lines: bool,
    known: Known,
    value: Value,
) -> Result<Known, DefFault>
    requires { length known.vertices < most_vertices }
    ensures { IsOneRead known (operation_in says_lines (view value)) result }
{
    let (operation, lines) = match operation_in(alloc, says_lines, value) {
        Ok(both) => both,
        Err(_) => {
            // Let go by name, here and below: at each end of the function the proof would walk all that a value has.
            drop(known);
            return Err(Fault::Memory);
        }
    };
    let next = known.next(alloc, &operation);
    drop(operation);
    match next {
        Ok((vertex, address)) => {
            let more = known.with(alloc, vertex, address, lines.as_slice())?;
            Ok(more)
        }
        Err(fault) => {
            drop(known);
            Err(fault)
        }
    }
}

/// The vertex that an end points to.
fn read_end(alloc: Global, end: &Value, known: &Known) -> Result<VertexId, DefFault>
    requires { length known.now.vertices ≤ most_vertices }
    ensures { IsEnd known.now.vertices (view end.now) result }
{
    let place = known.len() as u32;
    match end_in(alloc, end) {
        Ok(address) => match known.place(&address) {
            Some(wanted) => Ok(VertexId::new(wanted)),
            None => Err(Fault::Because(Defect::Unknown(place))),
        },
        Err(Fault::Because(_)) => Err(Fault::Because(Defect::Malformed(place))),
        Err(Fault::Memory) => Err(Fault::Memory),
    }
}

/// The address that an end points to.
#[tactic(auto, unfolding(crate::specs::Reading::end_in))]
fn end_in(alloc: Global, value: &Value) -> Result<Text, ReadFault>
    ensures { Gives result (end_in (view value.now)) }
{
    if !is_strict(value, &["inputs", "op"]) {
        return Err(Fault::Because(NotRead));
    }
    let inputs = inputs_in(alloc, value)?;
    only(alloc, inputs.as_slice())
}

/// A copy of the only one.
fn only(alloc: Global, texts: &[Text]) -> Result<Text, ReadFault>
    ensures { Gives result (only texts.now) }
{
    match texts {
        [text] => Ok(text.copy(alloc)?),
        _ => Err(Fault::Because(NotRead)),
    }
}
