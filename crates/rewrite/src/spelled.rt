// The lines of merges that others were spelled out of: what is equal to one of them has its lines too.
ghost use Rattle.std.specs.Prelude.{◌≡◌, ◌<◌, ◌↔◌, ℕ, [], Some, true, false, length, slice_get, Contains, IfOk, IsTrue};
ghost use Rattle.std.specs.List.{All};
ghost use Rattle.llb.specs.Graph.{AreVertices, IsGraph};
ghost use Rattle.llb.specs.Places.{AreLines};
ghost use Rattle.rewrite.specs.PrivateJoined.{HasName};
ghost use Rattle.rewrite.specs.PrivateSpelled.{AreSpelled, TakesLines, TakesOne, TakesSome, spelled_vertex};
ghost use Rattle.rewrite.specs.declared.spelled.Spelled.{Spelled as SpelledValue};

use crate::joining::rename;
use llb::{Full, Graph, Op, Vertex, VertexId};
use plain::{Exact, Fault, Items, Memory};
use reached::{flat_inputs, is_merge};
use std::alloc::Global;

/// A merge with its inputs spelled out, and the lines behind it.
#[derive(Drop)]
pub(crate) struct Spelled {
    pub inputs: Items<VertexId>,
    pub lines: Items<u32>,
}

/// The merges that are marked, with their inputs spelled out, under their numbers. If merges differ, none is equal to another one, and there is no need of
/// any.
pub(crate) fn spell_merges(
    alloc: Global,
    vertices: &[Vertex],
    places: &[Items<u32>],
    marks: &[bool],
    differ: bool,
) -> Result<Items<Option<Spelled>>, Memory>
    requires graph { IsGraph (record { vertices = vertices.now; places = places.now }) }
    requires long { length marks.now ≡ length vertices.now }
    ensures spelled { IfOk result (λ spelled. differ ≡ false
        → AreSpelled (record { vertices = vertices.now; places = places.now }) marks.now (length vertices.now) spelled) }
    ensures none { IfOk result (λ spelled. differ ≡ true → spelled ≡ []) }
{
    if differ {
        return Ok(Items::new(alloc));
    }
    spell_all(alloc, vertices, places, marks)
}

/// The same, whether they differ or not.
fn spell_all(
    alloc: Global,
    vertices: &[Vertex],
    places: &[Items<u32>],
    marks: &[bool],
) -> Result<Items<Option<Spelled>>, Memory>
    requires graph { IsGraph (record { vertices = vertices.now; places = places.now }) }
    requires long { length marks.now ≡ length vertices.now }
    ensures { IfOk result (AreSpelled (record { vertices = vertices.now; places = places.now }) marks.now (length vertices.now)) }
{
    let mut spelled = Vec::new(alloc);
    for (at, vertex) in vertices.iter().enumerate() {
        let lines = places[at].as_slice();
        let one = spell_merge(alloc, vertices, vertex, lines, marks[at])?;
        spelled.push(one)?;
    }
    Ok(Items::from_vec(spelled))
}

/// A merge that is marked, with its inputs spelled out; `None` for what isn't marked or is no merge.
fn spell_merge(
    alloc: Global,
    vertices: &[Vertex],
    vertex: &Vertex,
    lines: &[u32],
    mark: bool,
) -> Result<Option<Spelled>, Memory>
    requires vertices { AreVertices vertices.now }
    requires inside { All (λ input. input < length vertices.now) vertex.now.inputs }
    ensures { IfOk result (λ one. one ≡ spelled_vertex vertices.now vertex.now lines.now mark) }
{
    if mark && is_merge(&vertex.op) {
        let inputs = flat_inputs(alloc, vertices, vertex)?;
        let lines = Items::from_vec(Vec::from_slice(alloc, lines)?);
        Ok(Some(Spelled { inputs, lines }))
    } else {
        Ok(None)
    }
}

/// The graph with the lines of these merges at the vertices that are equal to them, on the new numbers of their inputs.
pub(crate) fn take_lines(
    alloc: Global,
    graph: Graph,
    names: &[Option<VertexId>],
    spelled: &[Option<Spelled>],
) -> Result<Graph, Memory>
    requires named { (k : ℕ) (one : SpelledValue) → slice_get spelled.now k ≡ Some (Some one) → All (HasName names.now) one.inputs }
    requires lines { (k : ℕ) (one : SpelledValue) → slice_get spelled.now k ≡ Some (Some one) → AreLines one.lines }
    ensures { IfOk result (λ taken. TakesLines graph taken names.now spelled.now (length spelled.now)) }
{
    let mut graph = graph;
    let _known = graph.vertices();
    for one in spelled {
        take_some(alloc, &mut graph, names, one)?;
    }
    Ok(graph)
}

/// Has the vertex that is equal to a merge take its lines, if there is the merge.
fn take_some(
    alloc: Global,
    graph: &mut Graph,
    names: &[Option<VertexId>],
    one: &Option<Spelled>,
) -> Result<(), Memory>
    requires named { (is : SpelledValue) → one.now ≡ Some is → All (HasName names.now) is.inputs }
    requires lines { (is : SpelledValue) → one.now ≡ Some is → AreLines is.lines }
    ensures { IfOk result (λ _. TakesSome graph.old graph.new names.now one.now) }
{
    match one {
        Some(one) => take_one(alloc, graph, names, one),
        None => Ok(()),
    }
}

/// Has the vertex that is equal to a merge take its lines, if there is one.
fn take_one(
    alloc: Global,
    graph: &mut Graph,
    names: &[Option<VertexId>],
    one: &Spelled,
) -> Result<(), Memory>
    requires named { All (HasName names.now) one.now.inputs }
    requires lines { AreLines one.now.lines }
    ensures { IfOk result (λ _. TakesOne graph.old graph.new names.now one.now) }
{
    let inputs = Items::from_vec(Vec::from_slice(alloc, one.inputs.as_slice())?);
    let inputs = rename(names, inputs);
    let vertex = Vertex {
        op: Op::Merge,
        inputs,
    };
    if !stands(graph.vertices(), &vertex) {
        drop(vertex);
        return Ok(());
    }
    match graph.add_all(alloc, vertex, one.lines.as_slice()) {
        Ok(_) => Ok(()),
        Err(Fault::Memory) => Err(Memory),
        Err(Fault::Because(Full)) => unreachable!(),
    }
}

/// Whether one of these is equal to a vertex.
fn stands(vertices: &[Vertex], vertex: &Vertex) -> bool
    ensures { IsTrue result ↔ Contains vertices.now vertex.now }
{
    for other in vertices {
        if other.same(vertex) {
            return true;
        }
    }
    false
}
