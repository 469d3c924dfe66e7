// The graph of a build: operations on trees, each after its inputs (after BuildKit's LLB).
//
// It says what an operation is and when it is well formed, and not what it gives: that is said in `plans`. It reads and
// writes no text of a graph.
//
// A graph holds no two equal vertices, so equal commands on equal inputs are one vertex, and it keeps the lines of all
// instructions behind each.
//
// ```
// let mut graph = Graph::new(alloc);
// let base = graph.add(alloc, scratch, None)?;              // the empty tree: vertex 0
// let run = graph.add(alloc, put_hi_on_base, Some(2))?;     // a command on it, from line 2: vertex 1
// ```
#![tactic(auto)]

mod fault;
mod graph;
mod hash;
mod index;
pub mod laws;
mod op;
mod places;
mod vertex;
mod well_formed;

pub use fault::{Full, GraphFault};
pub use graph::Graph;
pub use op::{Bind, CopyFiles, Exec, FileSource, Op, Source};
pub use vertex::{Vertex, VertexId};
