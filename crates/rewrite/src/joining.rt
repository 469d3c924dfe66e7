// Puts the vertices that are marked into a new graph, equal ones as one.
ghost use Rattle.std.specs.Prelude.{◌≡◌, ◌<◌, length, IsTrue, IfOk, Some, true, slice_get};
ghost use Rattle.std.specs.List.{All};
ghost use Rattle.plain.specs.Limits.{most_vertices};
ghost use Rattle.llb.specs.Graph.{IsAfterInputs, IsNew, Adds};
ghost use Rattle.llb.specs.Places.{AreLines};
ghost use Rattle.llb.specs.WellFormed.{is_well_formed};
ghost use Rattle.rewrite.specs.Pruned.{AreNames};
ghost use Rattle.rewrite.specs.PrivateJoined.{HasName, AreInside, AreJoinable, AreDistinct, ComesNew, IsJoined, IsNamedJoined, AreJoined};

use llb::{Full, Graph, GraphFault, Vertex, VertexId};
use plain::{Fault, Items, Memory};
use std::alloc::Global;

/// The new number of a vertex that has one.
pub(crate) fn find_name(names: &[Option<VertexId>], id: VertexId) -> VertexId
    requires { HasName names.now id }
    ensures { slice_get names.now id ≡ Some (Some result) }
{
    match names[id.index()] {
        Some(name) => name,
        None => unreachable!(),
    }
}

/// The new numbers of these vertices, in place of the old ones.
pub(crate) fn rename(names: &[Option<VertexId>], inputs: Items<VertexId>) -> Items<VertexId>
    requires { All (HasName names.now) inputs }
    ensures { AreNames names.now inputs result }
{
    let mut found = inputs.into_vec();
    for input in found.iter_mut() {
        *input = find_name(names, *input);
    }
    Items::from_vec(found)
}

/// Adds a vertex with its lines. With `is_new` it isn't compared with those that are there.
fn put(
    alloc: Global,
    graph: &mut Graph,
    vertex: Vertex,
    lines: &[u32],
    is_new: bool,
) -> Result<VertexId, GraphFault>
    requires inputs { IsAfterInputs (length graph.old.vertices) vertex }
    requires well_formed { IsTrue (is_well_formed vertex) }
    requires lines { AreLines lines.now }
    requires fresh { is_new ≡ true → IsNew graph.old.vertices vertex }
    ensures adds { Adds graph.old graph.new vertex lines.now result }
{
    if !is_new {
        return graph.add_all(alloc, vertex, lines);
    }
    let Ok(lines) = Vec::from_slice(alloc, lines) else {
        // Let go by name: at the end of the function the proof would walk all its parts.
        drop(vertex);
        return Err(Fault::Memory);
    };
    graph.append(vertex, Items::from_vec(lines))
}

/// Adds a vertex, on the new numbers of its inputs and with its lines, to a graph that isn't full. With `is_new` it isn't compared with those
/// that are there.
fn join(
    alloc: Global,
    graph: &mut Graph,
    names: &[Option<VertexId>],
    vertex: Vertex,
    lines: &[u32],
    is_new: bool,
) -> Result<VertexId, Memory>
    requires named { All (HasName names.now) vertex.inputs }
    requires inside { AreInside names.now (length graph.old.vertices) }
    requires well_formed { IsTrue (is_well_formed vertex) }
    requires lines { AreLines lines.now }
    requires room { length graph.old.vertices < most_vertices }
    requires fresh { is_new ≡ true → ComesNew graph.old names.now vertex }
    ensures { IfOk result (IsJoined graph.old graph.new names.now vertex lines.now) }
{
    let Vertex { op, inputs } = vertex;
    let inputs = rename(names, inputs);
    match put(alloc, graph, Vertex { op, inputs }, lines, is_new) {
        Ok(id) => Ok(id),
        Err(Fault::Memory) => Err(Memory),
        Err(Fault::Because(Full)) => unreachable!(),
    }
}

/// The new number of a vertex, which is added where it is marked; `None` for one that isn't.
fn join_marked(
    alloc: Global,
    graph: &mut Graph,
    names: &[Option<VertexId>],
    vertex: Vertex,
    lines: &[u32],
    mark: bool,
    is_new: bool,
) -> Result<Option<VertexId>, Memory>
    requires named { mark ≡ true → All (HasName names.now) vertex.inputs }
    requires inside { AreInside names.now (length graph.old.vertices) }
    requires well_formed { mark ≡ true → IsTrue (is_well_formed vertex) }
    requires lines { AreLines lines.now }
    requires room { length graph.old.vertices < most_vertices }
    requires fresh { mark ≡ true → is_new ≡ true → ComesNew graph.old names.now vertex }
    ensures { IfOk result (IsNamedJoined graph.old graph.new names.now vertex lines.now mark) }
{
    if mark {
        let id = join(alloc, graph, names, vertex, lines, is_new)?;
        Ok(Some(id))
    } else {
        Ok(None)
    }
}

/// A graph, and the numbers in it of other vertices, by their old numbers; none for one that it doesn't have.
#[derive(Drop)]
pub(crate) struct Joined {
    pub graph: Graph,
    pub names: Items<Option<VertexId>>,
}

/// The graph of the vertices that are marked, in their order. Equal ones are one, which stands where the first of them stood and has the
/// lines of all. With `differ` no two are equal, so equal ones aren't looked for.
pub(crate) fn join_all(
    alloc: Global,
    vertices: Items<Vertex>,
    places: Items<Items<u32>>,
    marks: &[bool],
    differ: bool,
) -> Result<Joined, Memory>
    requires joinable { AreJoinable (record { vertices = vertices; places = places }) marks.now }
    requires differ { differ ≡ true → AreDistinct vertices marks.now }
    ensures { IfOk result (λ joined. AreJoined (record { vertices = vertices; places = places }) marks.now (length vertices) joined.graph joined.names) }
{
    let mut graph = Graph::new(alloc);
    let mut names = Vec::new(alloc);
    let mut at = 0;
    for vertex in vertices.into_vec() {
        let lines = places.as_slice()[at].as_slice();
        let name = join_marked(
            alloc,
            &mut graph,
            names.as_slice(),
            vertex,
            lines,
            marks[at],
            differ,
        )?;
        names.push(name)?;
        at += 1;
    }
    let names = Items::from_vec(names);
    Ok(Joined { graph, names })
}
