// A whole drawing.
ghost use Rattle.std.specs.Prelude.{◌≡◌, ◌++◌, IfOk, OnOk};
ghost use Rattle.std.specs.String.{string_bytes};
ghost use Rattle.dot.specs.Drawn.{lines_of, statements, heading, drawing};

use crate::caches::{ids_of, push_caches};
use crate::edges::push_edges;
use crate::nodes::{push_sources, push_steps};
use llb::{Graph, VertexId};
use plain::{Memory, Text};
use plans::Plan;
use std::alloc::Global;

/// A plan's graph in the DOT language, with its target marked, which Graphviz's `dot` lays out. `titles` has at the number of a line the title
/// of the instruction of that line, if it has one, as `[build 2/5] RUN make`.
///
/// Each vertex is a node: a source by what it is, a merge as such, and another operation with the title of the instruction on its least line. Below
/// stand the lines of all instructions that it stands for. Operations whose titles name a stage are in that stage's cluster. Each input of a vertex
/// is an edge, in their order, and so is each cache that it mounts; a cache is a node too. The text is ASCII: other bytes of titles, names and
/// paths are shown by their numbers, as `\x1b`.
pub fn write<C>(alloc: Global, plan: &Plan<C>, titles: &[Option<Text>]) -> Result<Text, Memory>
    ensures { IfOk result (λ text. text ≡ drawing titles.now plan.now.graph plan.now.target) }
{
    let text = written(alloc, titles, plan.graph(), plan.target())?;
    Ok(Text::from_string(text))
}

/// A graph with this target in the DOT language.
#[tactic(auto, unfolding(crate::specs::Drawn::heading))]
fn written(
    alloc: Global,
    titles: &[Option<Text>],
    graph: &Graph,
    target: VertexId,
) -> Result<String, Memory>
    ensures { IfOk result (λ text. string_bytes text ≡ drawing titles.now graph.now target) }
{
    let mut out = String::from_str(
        alloc,
        "digraph dfsolve {\n  graph [fontname=\"monospace\" fontsize=10];\n  node [fontname=\"monospace\" fontsize=10];\n  edge [fontname=\"monospace\" fontsize=10];\n",
    )?;
    push_statements(alloc, &mut out, titles, graph, target.index())?;
    out.push_str("}\n")?;
    Ok(out)
}

/// Adds the statements of a graph with this target.
fn push_statements(
    alloc: Global,
    out: &mut String,
    titles: &[Option<Text>],
    graph: &Graph,
    target: usize,
) -> Result<(), Memory>
    ensures { OnOk result (string_bytes out.new ≡ string_bytes out.old ++ lines_of (statements titles.now graph.now target)) }
{
    let ids = ids_of(alloc, graph.vertices())?;
    push_sources(alloc, out, titles, graph, target)?;
    push_caches(alloc, out, ids.as_slice())?;
    push_steps(alloc, out, titles, graph, target)?;
    push_edges(alloc, out, ids.as_slice(), graph.vertices())
}
