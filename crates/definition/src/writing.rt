ghost use Rattle.std.specs.Prelude.{◌≡◌, ◌<◌, [], false, Ok, IfOk, map, length};
ghost use Rattle.serde_json.specs.View.{view};
ghost use Rattle.serde_json.specs.Written.{has_float};
ghost use Rattle.addresses.specs.Address.{vertex_data};
ghost use Rattle.plain.specs.Limits.{most_vertices};
ghost use Rattle.operations.specs.Proper.{IsProper};
ghost use Rattle.definition.specs.Definition.{IsWritten, end_data, whole_data};
ghost use Rattle.definition.specs.PrivateWriting.{IsNamed, IsPut, ArePut, IsWholePut, IsTextOf};
ghost use Rattle.definition.specs.Reading.{IsReadAs};

use crate::lines::lined;
use crate::{DefFault, Defect};
use addresses::{Addresses, address_of};
use llb::{Graph, Vertex, VertexId};
use operations::op_value;
use plain::{Fault, Memory, Text};
use plans::Plan;
use serde_json::{Map, Value, json};
use std::alloc::Global;
use strict::{ToJson, put};

/// The definition text of a plan's graph, in version 2: its operations in their order, each with the lines that it comes from, and an end that
/// points to the target.
///
/// `Clash` exactly where two different operations have the same address; its place is that of the later one. Lines are no part of an
/// operation's address. What was written reads back: `read` gives the plan's graph, with its lines, and its target.
pub fn write<C>(alloc: Global, plan: &Plan<C>) -> Result<Text, DefFault>
    ensures written { IsWritten plan.now.graph plan.now.target result }
    ensures back { IfOk result (λ text. IsReadAs text (Ok (plan.now.graph, plan.now.target))) }
{
    write_graph(alloc, plan.graph(), plan.target())
}

/// The definition text of a graph and its result.
fn write_graph(alloc: Global, graph: &Graph, wanted: VertexId) -> Result<Text, DefFault>
    requires { wanted < length graph.now.vertices }
    ensures written { IsWritten graph.now wanted result }
    ensures back { IfOk result (λ text. IsReadAs text (Ok (graph.now, wanted))) }
{
    let _known = graph.vertices();
    let mut values = Vec::new(alloc);
    match put_whole(alloc, graph, wanted, &mut values) {
        Ok(()) => {
            let text = whole_text(alloc, values)?;
            Ok(text)
        }
        Err(fault) => {
            // Let go by name, here and below: at each end of a function the proof would walk all that a value has.
            drop(values);
            Err(fault)
        }
    }
}

/// Adds a graph's operations and its end.
fn put_whole(
    alloc: Global,
    graph: &Graph,
    wanted: VertexId,
    values: &mut Vec<Value>,
) -> Result<(), DefFault>
    requires { values.old.items ≡ [] }
    ensures { IsWholePut graph.now wanted (map view values.new.items) result }
{
    let mut known = Addresses::new(alloc);
    match put_operations(alloc, graph, &mut known, values) {
        Ok(()) => {}
        Err(fault) => {
            drop(known);
            return Err(fault);
        }
    }
    let address = known.name(alloc, wanted);
    drop(known);
    let end = end_value(alloc, &address?)?;
    values.push(end)?;
    Ok(())
}

/// Adds a graph's operations and their addresses.
fn put_operations(
    alloc: Global,
    graph: &Graph,
    known: &mut Addresses,
    values: &mut Vec<Value>,
) -> Result<(), DefFault>
    requires known { known.old ≡ [] }
    requires values { values.old.items ≡ [] }
    ensures { ArePut graph.now known.new (map view values.new.items) result }
{
    let vertices = graph.vertices();
    for (place, vertex) in vertices.iter().enumerate() {
        let lines = graph.places(VertexId::new(place as u32));
        match put_operation(alloc, known, values, vertex, lines) {
            Ok(()) => {}
            Err(fault) => return Err(fault),
        }
    }
    Ok(())
}

/// Adds the operation of the next vertex, with its lines, and its address.
fn put_operation(
    alloc: Global,
    known: &mut Addresses,
    values: &mut Vec<Value>,
    vertex: &Vertex,
    lines: &[u32],
) -> Result<(), DefFault>
    requires { length known.old < most_vertices }
    ensures { IsPut vertex.now lines.now known.old known.new (map view values.old.items) (map view values.new.items) result }
{
    let value = vertex_value(alloc, vertex, known)?;
    match put_address(alloc, known, &value) {
        Ok(()) => {}
        Err(fault) => {
            drop(value);
            return Err(fault);
        }
    }
    let value = lined(alloc, value, lines)?;
    values.push(value)?;
    Ok(())
}

/// Adds the address of the next operation, if no other has it.
fn put_address(alloc: Global, known: &mut Addresses, operation: &Value) -> Result<(), DefFault>
    requires few { length known.old < most_vertices }
    requires plain { has_float (view operation.now) ≡ false }
    ensures { IsNamed (view operation.now) known.old known.new result }
{
    let place = known.len() as u32;
    let address = address_of(alloc, operation)?;
    match known.place(&address) {
        Some(_) => Err(Fault::Because(Defect::Clash(place))),
        None => {
            known.push(alloc, address)?;
            Ok(())
        }
    }
}

/// A vertex as JSON, in a graph whose vertices have these addresses.
fn vertex_value(alloc: Global, vertex: &Vertex, known: &Addresses) -> Result<Value, Memory>
    ensures data { IfOk result (λ v. view v ≡ vertex_data known.now vertex.now) }
    ensures plain { IfOk result (λ v. has_float (view v) ≡ false) }
    ensures proper { IfOk result (λ _. IsProper vertex.now.op) }
{
    let inputs = known.named(alloc, vertex.inputs.as_slice())?;
    let value = op_value(alloc, &vertex.op, inputs.as_slice())?;
    Ok(value)
}

/// The end of a definition, as JSON.
#[tactic(auto, unfolding(crate::specs::Definition::end_data))]
fn end_value(alloc: Global, address: &Text) -> Result<Value, Memory>
    ensures { IfOk result (λ v. view v ≡ end_data address.now) }
{
    let address = address.to_json(alloc)?;
    let inputs = Value::Array(vec![in alloc; address]?);
    let kind = Value::String(String::from_str(alloc, "end")?);
    let mut members = Map::new(alloc);
    put(alloc, &mut members, "inputs", inputs)?;
    put(alloc, &mut members, "op", kind)?;
    Ok(Value::Object(members))
}

/// The text of a whole definition, from its operations and its end.
fn whole_text(alloc: Global, operations: Vec<Value>) -> Result<Text, Memory>
    ensures { IfOk result (IsTextOf (whole_data 2 (map view operations.items))) }
{
    let whole = whole_value(alloc, operations)?;
    let text = whole.to_string(alloc);
    drop(whole);
    let text = text?;
    Ok(Text::from_string(text))
}

/// A whole definition as JSON, in version 2, from its operations and its end.
#[tactic(auto, unfolding(crate::specs::Definition::whole_data))]
fn whole_value(alloc: Global, operations: Vec<Value>) -> Result<Value, Memory>
    ensures { IfOk result (λ v. view v ≡ whole_data 2 (map view operations.items)) }
{
    let operations = Value::Array(operations);
    Ok(json!(in alloc; {"ops": operations, "version": 2u64})?)
}
