// `plans`: a name, ` | `, and a plan by hand.
//
// The answer is the name, and on a line of its own each what the plan comes to, its graph once links are put into one and what the target doesn't
// need is gone, and what that comes to. Of each vertex the graph shows whether it is a merge, its inputs and its lines.

use crate::by_hand::plan_read;
use crate::stores::solution_text;
use cachemounts::CacheStore;
use executor::Fixture;
use llb::{Graph, Op, Vertex, VertexId};
use plain::Memory;
use plans::Plan;
use rewrite::{flatten_links, prune};
use solver::solve_problem;
use std::alloc::Global;

pub fn answer(alloc: Global, case: &str) -> Result<String, Memory> {
    let (name, text) = case.split_once(" | ").unwrap_or((case, ""));
    let plan = plan_read(alloc, text)?;
    let first = built(alloc, &plan);
    let then = flattened_text(alloc, plan);
    let (first, then) = (first?, then?);
    Ok(format!(in alloc; "{name}\n    {first}\n    {then}")?)
}

/// What a plan comes to.
fn built(alloc: Global, plan: &Plan<u8>) -> Result<String, Memory> {
    let mut caches = CacheStore::new(alloc);
    let solution = solve_problem(alloc, plan, &Fixture, &mut caches);
    drop(caches);
    match solution {
        Ok(solution) => solution_text(alloc, solution),
        Err(memory) => Err(memory),
    }
}

/// The graph of a plan once its links are put into one, and what that plan comes to.
fn flattened_text(alloc: Global, plan: Plan<u8>) -> Result<String, Memory> {
    match flattened(alloc, plan) {
        Ok(flat) => {
            let graph = drawn(alloc, &flat);
            let then = built(alloc, &flat);
            drop(flat);
            let (graph, then) = (graph?, then?);
            Ok(format!(in alloc; "{graph}\n    {then}")?)
        }
        Err(memory) => Err(memory),
    }
}

/// A plan with its links put into one, and without what its target doesn't need.
fn flattened(alloc: Global, plan: Plan<u8>) -> Result<Plan<u8>, Memory> {
    match flatten_links(alloc, plan) {
        Ok(flat) => prune(alloc, flat),
        Err(memory) => Err(memory),
    }
}

/// A plan's graph and its target, in a line.
fn drawn(alloc: Global, plan: &Plan<u8>) -> Result<String, Memory> {
    let mut text = String::new(alloc);
    push_graph(&mut text, plan.graph())?;
    write!(text, "target {}", plan.target().number())?;
    Ok(text)
}

/// A graph: of each vertex whether it is a merge, its inputs and its lines.
pub fn push_graph(text: &mut String, graph: &Graph) -> Result<(), Memory> {
    for (number, vertex) in graph.vertices().iter().enumerate() {
        let id = VertexId::new(u32::try_from(number).unwrap_or(u32::MAX));
        push_vertex(text, vertex, graph.places(id))?;
    }
    Ok(())
}

fn push_vertex(text: &mut String, vertex: &Vertex, lines: &[u32]) -> Result<(), Memory> {
    let kind = if matches!(vertex.op, Op::Merge) {
        "merge"
    } else {
        "vertex"
    };
    write!(text, "{kind}")?;
    for input in vertex.inputs.as_slice() {
        write!(text, " {}", input.number())?;
    }
    write!(text, " of")?;
    for line in lines {
        write!(text, " {line}")?;
    }
    Ok(write!(text, "; ")?)
}
