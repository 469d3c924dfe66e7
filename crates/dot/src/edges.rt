// The edges.
ghost use Rattle.std.specs.Prelude.{◌≡◌, ◌<◌, ◌++◌, OnOk};
ghost use Rattle.std.specs.String.{string_bytes};
ghost use Rattle.paths.specs.Path.{text_of};
ghost use Rattle.dot.specs.Labels.{input_attributes};
ghost use Rattle.dot.specs.Drawn.{line_of, lines_of, number_of, inputs, mounts, edges};
ghost use Rattle.dot.specs.Drawn.Statement.{Edge, Mount};

use crate::caches::{caches_of, number_of};
use crate::labels::push_input_attributes;
use crate::quoted::push_quoted;
use llb::{Op, Vertex, VertexId};
use plain::{Memory, Text};
use runs::CacheUse;
use std::alloc::Global;

/// Adds the edge from the input of this place to a vertex.
#[tactic(auto, unfolding(crate::specs::Drawn::line_of))]
fn push_input(
    alloc: Global,
    out: &mut String,
    to: usize,
    op: &Op,
    place: usize,
    from: VertexId,
) -> Result<(), Memory>
    requires { place < usize.MAX }
    ensures { OnOk result (string_bytes out.new ≡ string_bytes out.old ++ line_of (Edge from to (input_attributes op.now place))) }
{
    let from = from.number();
    out.push_str(format!(in alloc; "  v{from} -> v{to}")?.as_str())?;
    push_input_attributes(alloc, out, op, place)?;
    out.push_str(";\n")?;
    Ok(())
}

/// Adds the edges from the inputs of a vertex.
fn push_inputs(
    alloc: Global,
    out: &mut String,
    to: usize,
    op: &Op,
    ids: &[VertexId],
) -> Result<(), Memory>
    ensures { OnOk result (string_bytes out.new ≡ string_bytes out.old ++ lines_of (inputs to op.now 0 ids.now)) }
{
    for (place, id) in ids.iter().enumerate() {
        push_input(alloc, out, to, op, place, *id)?;
    }
    Ok(())
}

/// Adds the edge from the cache of this number to a vertex that mounts it.
#[tactic(auto, unfolding(crate::specs::Drawn::line_of))]
fn push_mount(
    alloc: Global,
    out: &mut String,
    to: usize,
    number: usize,
    cache: &CacheUse,
) -> Result<(), Memory>
    ensures { OnOk result (string_bytes out.new ≡ string_bytes out.old ++ line_of (Mount number to (text_of cache.now.target))) }
{
    let before = format!(in alloc; "  c{number} -> v{to} [label=\"")?;
    let target = cache.target.text(alloc)?;
    push_quoted(out, before.as_str(), target.as_str(), "\" style=dotted];\n")?;
    Ok(())
}

/// Adds the edges from the caches of a vertex.
fn push_mounts(
    alloc: Global,
    out: &mut String,
    ids: &[Text],
    to: usize,
    caches: &[CacheUse],
) -> Result<(), Memory>
    ensures { OnOk result (string_bytes out.new ≡ string_bytes out.old ++ lines_of (mounts ids.now to caches.now)) }
{
    for cache in caches {
        push_mount(alloc, out, to, number_of(ids, &cache.id), cache)?;
    }
    Ok(())
}

/// Adds the edges to all vertices, whose caches have these ids.
pub(crate) fn push_edges(
    alloc: Global,
    out: &mut String,
    ids: &[Text],
    vertices: &[Vertex],
) -> Result<(), Memory>
    ensures { OnOk result (string_bytes out.new ≡ string_bytes out.old ++ lines_of (edges ids.now 0 vertices.now)) }
{
    for (number, vertex) in vertices.iter().enumerate() {
        push_inputs(alloc, out, number, &vertex.op, vertex.inputs.as_slice())?;
        push_mounts(alloc, out, ids, number, caches_of(&vertex.op))?;
    }
    Ok(())
}
