// The nodes of operations, and the clusters that they are in.
ghost use Rattle.std.specs.Prelude.{◌≡◌, ◌<◌, ◌++◌, [], length, slice_index_or, OnOk};
ghost use Rattle.std.specs.String.{string_bytes};
ghost use Rattle.dot.specs.Drawn.{line_of, lines_of, mark, node, sources, ended, begun, between, steps};
ghost use Rattle.dot.specs.Drawn.Statement.{Begin};

use crate::labels::{label, shape_of, title_at};
use crate::quoted::push_quoted;
use crate::stages::{is_source, stage_in};
use llb::{Graph, Op, VertexId};
use plain::{Memory, Text};
use std::alloc::Global;

/// The lines behind the vertex of this number.
fn places_at(graph: &Graph, number: usize) -> &[u32]
    requires { number < length graph.now.vertices }
    ensures { result.now ≡ slice_index_or graph.now.places number [] }
{
    let _known = graph.vertices();
    graph.places(VertexId::new(number as u32))
}

/// What marks the target.
fn mark(is_target: bool) -> &'static str
    ensures { result.now ≡ mark is_target }
{
    if is_target { " peripheries=2" } else { "" }
}

/// Adds the node of a vertex with these lines.
#[tactic(auto, unfolding(crate::specs::Drawn::line_of))]
fn push_node(
    alloc: Global,
    out: &mut String,
    titles: &[Option<Text>],
    target: usize,
    lines: &[u32],
    number: usize,
    op: &Op,
) -> Result<(), Memory>
    ensures { OnOk result (string_bytes out.new ≡ string_bytes out.old ++ line_of (node titles.now target lines.now number op.now)) }
{
    let label = label(alloc, titles, lines, op)?;
    let shape = shape_of(op);
    let mark = mark(number == target);
    let line = format!(in alloc; "  v{number} [label=\"{label}\" shape={shape}{mark}];\n")?;
    Ok(out.push_str(line.as_str())?)
}

/// Adds the nodes of all sources.
pub(crate) fn push_sources(
    alloc: Global,
    out: &mut String,
    titles: &[Option<Text>],
    graph: &Graph,
    target: usize,
) -> Result<(), Memory>
    ensures { OnOk result (string_bytes out.new ≡ string_bytes out.old ++ lines_of (sources titles.now target graph.now.places 0 graph.now.vertices)) }
{
    let vertices = graph.vertices();
    for (number, vertex) in vertices.iter().enumerate() {
        if is_source(&vertex.op) {
            let lines = places_at(graph, number);
            push_node(alloc, out, titles, target, lines, number, &vertex.op)?;
        }
    }
    Ok(())
}

/// Ends the cluster of a stage, unless it has no name.
#[tactic(auto, unfolding(crate::specs::Drawn::line_of))]
fn push_ended(out: &mut String, stage: &str) -> Result<(), Memory>
    ensures { OnOk result (string_bytes out.new ≡ string_bytes out.old ++ lines_of (ended stage.now)) }
{
    if !stage.is_empty() {
        out.push_str("  }\n")?;
    }
    Ok(())
}

/// Adds what the cluster of a stage begins with.
#[tactic(auto, unfolding(crate::specs::Drawn::line_of))]
fn push_begin(out: &mut String, stage: &str) -> Result<(), Memory>
    ensures { OnOk result (string_bytes out.new ≡ string_bytes out.old ++ line_of (Begin stage.now)) }
{
    push_quoted(out, "  subgraph \"cluster_", stage, "\" {\n")?;
    push_quoted(out, "  label=\"", stage, "\";\n")?;
    Ok(())
}

/// Begins the cluster of a stage, unless it has no name.
fn push_begun(out: &mut String, stage: &str) -> Result<(), Memory>
    ensures { OnOk result (string_bytes out.new ≡ string_bytes out.old ++ lines_of (begun stage.now)) }
{
    if stage.is_empty() {
        return Ok(());
    }
    push_begin(out, stage)
}

/// Adds what comes between an operation of one stage and one of another.
fn push_between(out: &mut String, stage: &str, next: &str) -> Result<(), Memory>
    ensures { OnOk result (string_bytes out.new ≡ string_bytes out.old ++ lines_of (between stage.now next.now)) }
{
    if stage == next {
        return Ok(());
    }
    push_ended(out, stage)?;
    push_begun(out, next)
}

/// Adds the nodes of all operations but sources, in the clusters of their stages.
pub(crate) fn push_steps(
    alloc: Global,
    out: &mut String,
    titles: &[Option<Text>],
    graph: &Graph,
    target: usize,
) -> Result<(), Memory>
    ensures { OnOk result (string_bytes out.new ≡ string_bytes out.old ++ lines_of (steps titles.now target graph.now.places [] 0 graph.now.vertices)) }
{
    let mut stage = "";
    let vertices = graph.vertices();
    for (number, vertex) in vertices.iter().enumerate() {
        if !is_source(&vertex.op) {
            let lines = places_at(graph, number);
            let next = stage_in(title_at(titles, lines));
            push_between(out, stage, next)?;
            push_node(alloc, out, titles, target, lines, number, &vertex.op)?;
            stage = next;
        }
    }
    push_ended(out, stage)
}
