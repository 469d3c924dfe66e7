// Plans of cases: that of a bundle, or one by hand.
//
// A plan by hand is its vertices and then `target N`, with `; ` between each two. A vertex is `OPERATION on INPUT .. of LINE`: an operation as
// `samples::op_of` reads it, the numbers of the vertices that it works on, and the line of its instruction, 0 if it has none; it is `OPERATION of LINE` if it works
// on none. In an operation `⏎` is a LF and `⇥` a tab. The context has the files `/a/f1`, `/b/g` and `/f`, which hold 1, 2 and 3.

use crate::reading::number;
use ascii::split_at_blanks;
use build::{Asked, ask};
use imageconfig::Config;
use llb::Graph;
use plain::Memory;
use plans::Plan;
use samples::{add_row, plan_of, tree};
use std::alloc::Global;
use std::hash::RandomState;
use std::thread::Threads;

/// The files of each plan's context.
const FILES: [(&str, &str); 3] = [("/a/f1", "1"), ("/b/g", "2"), ("/f", "3")];

/// The plan of a bundle, without what its caches hold.
pub fn plan_of_bundle(
    alloc: Global,
    keys: RandomState,
    rt: &(impl Threads + Sync),
    bundle: &str,
) -> Result<Plan<Config>, Memory> {
    match ask(alloc, keys, rt, bundle.as_bytes()) {
        Ok(asked) => {
            let Asked { evaluated, caches } = asked;
            drop(caches);
            build::plan_of(alloc, evaluated)
        }
        Err(_) => Err(Memory),
    }
}

/// The plan that a text says.
pub fn plan_read(alloc: Global, text: &str) -> Result<Plan<u8>, Memory> {
    let (vertices, target) = text.rsplit_once("; target ").unwrap_or((text, ""));
    let target = number(target)?;
    let context = tree(alloc, &FILES)?;
    match graph_read(alloc, vertices) {
        Ok(graph) => plan_of(alloc, graph, target, context).ok_or(Memory),
        Err(memory) => {
            drop(context);
            Err(memory)
        }
    }
}

fn graph_read(alloc: Global, vertices: &str) -> Result<Graph, Memory> {
    let mut graph = Graph::new(alloc);
    match add_all(alloc, &mut graph, vertices) {
        Ok(()) => Ok(graph),
        Err(memory) => {
            drop(graph);
            Err(memory)
        }
    }
}

fn add_all(alloc: Global, graph: &mut Graph, vertices: &str) -> Result<(), Memory> {
    for vertex in vertices.split("; ") {
        add(alloc, graph, vertex)?.ok_or(Memory)?;
    }
    Ok(())
}

/// Adds the vertex that a text says, and gives its number; `None` where it can't be added.
pub fn add(alloc: Global, graph: &mut Graph, text: &str) -> Result<Option<u32>, Memory> {
    let (vertex, line) = text.rsplit_once(" of ").unwrap_or((text, ""));
    let line = number(line)?;
    let (op, inputs) = vertex.split_once(" on ").unwrap_or((vertex, ""));
    let op = op.replace(alloc, "⏎", "\n")?;
    let op = op.replace(alloc, "⇥", "\t")?;
    let inputs = numbers(alloc, inputs)?;
    add_row(alloc, graph, &(op.as_str(), inputs.as_slice(), line))
}

/// Numbers with a space between each two.
pub fn numbers(alloc: Global, texts: &str) -> Result<Vec<u32>, Memory> {
    let mut numbers = Vec::new(alloc);
    for text in split_at_blanks(alloc, texts)? {
        numbers.push(number(text)?)?;
    }
    Ok(numbers)
}
