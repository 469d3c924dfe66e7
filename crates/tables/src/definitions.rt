// `definitions`: a name, ` | `, and the text of a definition; or `many N`, a definition of N operations that is too long for a
// line of a table. The answer is the name and, behind a colon, the fault and its place; or how many vertices were read, which one the result
// is, and whether the graph is written as the text stood.
//
// The addresses in the cases were computed by another program.

use definition::{Defect, read, write};
use llb::{Graph, VertexId};
use plain::{Fault, Memory, Text};
use plans::{Plan, Sources};
use std::alloc::Global;
use trees::Tree;

/// The text of an operation that stands alone, with its line, and its address.
const SCRATCH: &str = r#"{"inputs":[],"op":"source","places":[1],"source":"scratch"}"#;

const SCRATCH_ADDRESS: &str =
    "sha256:76552e79413bf55d0c5d1deb6d66827a826db17e8dac7a4d75392760fd22987b";

pub fn answer(alloc: Global, case: &str) -> Result<String, Memory> {
    let (name, text) = case.split_once(" | ").unwrap_or((case, ""));
    let answer = answer_to_case(alloc, text)?;
    Ok(format!(in alloc; "{name}: {answer}")?)
}

fn answer_to_case(alloc: Global, case: &str) -> Result<String, Memory> {
    match case {
        "many 16384" => answer_to_text(alloc, many(alloc, 16_384)?.as_str()),
        "many 16385" => answer_to_text(alloc, many(alloc, 16_385)?.as_str()),
        _ => answer_to_text(alloc, case),
    }
}

/// What reading a text answers.
fn answer_to_text(alloc: Global, text: &str) -> Result<String, Memory> {
    match read(alloc, text) {
        Ok((graph, target)) => answer_to_graph(alloc, graph, target, text),
        Err(Fault::Because(defect)) => defect_text(alloc, defect),
        Err(Fault::Memory) => Err(Memory),
    }
}

/// A defect, with its place.
fn defect_text(alloc: Global, defect: Defect) -> Result<String, Memory> {
    let (kind, place) = match defect {
        Defect::Malformed(place) => ("Malformed", place),
        Defect::Unknown(place) => ("Unknown", place),
        Defect::Repeated(place) => ("Repeated", place),
        Defect::Clash(place) => ("Clash", place),
    };
    Ok(format!(in alloc; "{kind} {place}")?)
}

/// What was read from a text, and whether it is written so.
fn answer_to_graph(
    alloc: Global,
    graph: Graph,
    target: VertexId,
    text: &str,
) -> Result<String, Memory> {
    let count = graph.len();
    let words = if is_written_as(alloc, graph, target, text)? {
        "as it stood"
    } else {
        "in other words"
    };
    let result = target.number();
    Ok(format!(in alloc; "{count} vertices, result {result}, {words}")?)
}

/// Whether a graph and its result are written as this text. The plan is lent and let go by name: a `?` walks all that is held at it.
fn is_written_as(
    alloc: Global,
    graph: Graph,
    target: VertexId,
    text: &str,
) -> Result<bool, Memory> {
    match plan_of(alloc, graph, target) {
        Ok(Some(plan)) => {
            let is_same = is_plan_written_as(alloc, &plan, text);
            drop(plan);
            is_same
        }
        Ok(None) => Ok(false),
        Err(memory) => Err(memory),
    }
}

fn is_plan_written_as(alloc: Global, plan: &Plan<()>, text: &str) -> Result<bool, Memory> {
    match write(alloc, plan) {
        Ok(written) => Ok(written.as_str() == text),
        Err(Fault::Because(_)) => Ok(false),
        Err(Fault::Memory) => Err(Memory),
    }
}

/// The plan of a graph with the sources that the table names; none if it has others, or the result isn't in it.
fn plan_of(alloc: Global, graph: Graph, target: VertexId) -> Result<Option<Plan<()>>, Memory> {
    match sources(alloc) {
        Ok(sources) => {
            if target.index() < graph.len() && sources.suffice(&graph) {
                return Ok(Some(Plan::new(graph, target, (), sources)));
            }
            drop(sources);
            drop(graph);
            Ok(None)
        }
        Err(memory) => {
            drop(graph);
            Err(memory)
        }
    }
}

/// The trees of the sources that the table names.
fn sources(alloc: Global) -> Result<Sources, Memory> {
    let mut sources = Sources::new(alloc, Tree::empty(alloc));
    match add_images(alloc, &mut sources) {
        Ok(()) => Ok(sources),
        Err(memory) => {
            drop(sources);
            Err(memory)
        }
    }
}

fn add_images(alloc: Global, sources: &mut Sources) -> Result<(), Memory> {
    for name in ["a", "context", "Scratch", "image:a"] {
        let name = Text::from_str(alloc, name)?;
        sources.add_image(name, Tree::empty(alloc))?;
    }
    Ok(())
}

/// The definition of so many operations, each of a line of its own but for the first two: the empty tree, which is the result, and directories
/// in it.
fn many(alloc: Global, count: u32) -> Result<String, Memory> {
    let mut text = String::from_str(alloc, "{\"ops\":[")?;
    text.push_str(SCRATCH)?;
    for number in 1..count {
        text.push_str(",{\"action\":\"mkdir\",\"inputs\":[\"")?;
        text.push_str(SCRATCH_ADDRESS)?;
        text.push_str("\"],\"op\":\"file\",\"path\":\"/")?;
        text.push_str(format!(in alloc; "{number}")?.as_str())?;
        text.push_str("\",\"places\":[")?;
        text.push_str(format!(in alloc; "{number}")?.as_str())?;
        text.push_str("]}")?;
    }
    text.push_str(",{\"inputs\":[\"")?;
    text.push_str(SCRATCH_ADDRESS)?;
    text.push_str("\"],\"op\":\"end\"}],\"version\":2}")?;
    Ok(text)
}
