// Spells out the merges that stand first in merges.
ghost use Rattle.std.specs.Prelude.{◌≡◌, ◌<◌, ◌++◌, length, reverse, IfOk};
ghost use Rattle.std.specs.List.{All};
ghost use Rattle.llb.specs.Graph.{AreVertices};
ghost use Rattle.reached.specs.Spelled.{flat_inputs, spelled_out, with_first};
ghost use Rattle.reached.specs.Reached.{AreFlattened};
ghost use Rattle.reached.specs.Spelled.{is_merge};

use crate::marks::mark;
use llb::{Op, Vertex, VertexId};
use plain::{Items, Memory, no_marks};
use std::alloc::Global;

/// Whether the operation is a merge.
pub fn is_merge(op: &Op) -> bool
    ensures { result ≡ is_merge op.now }
{
    match op {
        Op::Source(_) => false,
        Op::Exec(_) => false,
        Op::Copy(_) => false,
        Op::MakeDirs(_) => false,
        Op::Merge => true,
    }
}

/// Adds these at the end, the last one first.
fn push_reversed(list: &mut Vec<VertexId>, ids: &[VertexId]) -> Result<(), Memory>
    ensures { IfOk result (λ _. list.new.items ≡ list.old.items ++ reverse ids.now) }
{
    let mut at = ids.len();
    while at > 0 {
        at -= 1;
        list.push(ids[at])?;
    }
    Ok(())
}

/// The inputs of a merge, the first one spelled out. They are found from the last one to the first, so it takes as many steps as there are
/// of them, however many merges stand in each other's first place.
fn spell_out(
    alloc: Global,
    vertices: &[Vertex],
    first: VertexId,
    rest: &[VertexId],
) -> Result<Items<VertexId>, Memory>
    requires vertices { AreVertices vertices.now }
    requires inside { first < length vertices.now }
    ensures { IfOk result (λ flat. flat ≡ spelled_out vertices.now first ++ rest.now) }
{
    let mut flat = Vec::new(alloc);
    push_reversed(&mut flat, rest)?;
    let mut at = first;
    while is_merge(&vertices[at.index()].op) {
        let [below, others @ ..] = vertices[at.index()].inputs.as_slice() else {
            unreachable!()
        };
        push_reversed(&mut flat, others)?;
        at = *below;
    }
    flat.push(at)?;
    flat.reverse();
    Ok(Items::from_vec(flat))
}

/// The inputs of a vertex, flat.
pub fn flat_inputs(
    alloc: Global,
    vertices: &[Vertex],
    vertex: &Vertex,
) -> Result<Items<VertexId>, Memory>
    requires vertices { AreVertices vertices.now }
    requires inside { All (λ input. input < length vertices.now) vertex.now.inputs }
    ensures { IfOk result (λ flat. flat ≡ flat_inputs vertices.now vertex.now.op vertex.now.inputs) }
{
    let inputs = vertex.inputs.as_slice();
    if is_merge(&vertex.op) {
        if let [first, rest @ ..] = inputs {
            return spell_out(alloc, vertices, *first, rest);
        }
    }
    Ok(Items::from_vec(Vec::from_slice(alloc, inputs)?))
}

/// Vertices, and which of them are marked.
#[derive(Drop)]
pub struct Flattened {
    pub vertices: Items<Vertex>,
    pub marks: Items<bool>,
}

/// Marks the vertices that the target reaches once each is on its flat inputs, and puts these vertices on them. One pass from the last one
/// on is enough: inputs stand before their vertices, and what is spelled out rests on vertices before them, which are as they were.
pub fn flatten_reached(
    alloc: Global,
    vertices: Items<Vertex>,
    target: VertexId,
) -> Result<Flattened, Memory>
    requires vertices { AreVertices vertices }
    requires target { target < length vertices }
    ensures { IfOk result (λ flat. AreFlattened vertices target flat.marks flat.vertices) }
{
    let mut marks = no_marks(alloc, vertices.len())?;
    marks[target.index()] = true;
    let mut vertices = vertices.into_vec();
    let mut at = vertices.len();
    while at > 0 {
        at -= 1;
        if marks[at] {
            let inputs = flat_inputs(alloc, &vertices[..at], &vertices[at])?;
            mark(&mut marks, inputs.as_slice());
            vertices[at].inputs = inputs;
        }
    }
    let vertices = Items::from_vec(vertices);
    let marks = Items::from_vec(marks);
    Ok(Flattened { vertices, marks })
}
