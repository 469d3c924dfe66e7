// `graphs`: a name, ` | `, and vertices as a plan by hand has them (`by_hand`), in which a piece may stand many times (`repeating`). They are added in their order.
// The answer is the name, the number that each gets, or `-` where it can't be added; of many the last three. Then it is the graph, of many
// vertices how many there are.

use crate::by_hand::add;
use crate::flattening::push_graph;
use crate::repeating::spread;
use llb::Graph;
use plain::Memory;
use std::alloc::Global;

/// How many vertices are shown.
const MOST_SHOWN: usize = 40;

pub fn answer(alloc: Global, case: &str) -> Result<String, Memory> {
    let (name, vertices) = case.split_once(" | ").unwrap_or((case, ""));
    let bytes = spread(alloc, vertices)?;
    let vertices = std::str::from_utf8(bytes.as_slice()).unwrap_or("");
    let mut graph = Graph::new(alloc);
    let mut told = String::new(alloc);
    let done = tell(alloc, &mut told, &mut graph, vertices);
    drop(graph);
    match done {
        Ok(()) => Ok(format!(in alloc; "{name}:{told}")?),
        Err(memory) => Err(memory),
    }
}

fn tell(alloc: Global, told: &mut String, graph: &mut Graph, vertices: &str) -> Result<(), Memory> {
    let count = vertices.split("; ").count();
    for (number, vertex) in vertices.split("; ").enumerate() {
        let added = add(alloc, graph, vertex)?;
        if count <= MOST_SHOWN || count.saturating_sub(number) <= 3 {
            push_number(told, added)?;
        }
    }
    told.push_str("; ")?;
    if count > MOST_SHOWN {
        return Ok(write!(told, "{} vertices", graph.len())?);
    }
    push_graph(told, graph)
}

fn push_number(told: &mut String, number: Option<u32>) -> Result<(), Memory> {
    match number {
        Some(number) => Ok(write!(told, " {number}")?),
        None => Ok(told.push_str(" -")?),
    }
}
