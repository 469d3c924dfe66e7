// The value of one vertex of a graph: one step, and nothing else.
//
// It knows one operation, the trees of its inputs, the sources and an executor. It knows no graph and no other vertex, keeps
// nothing from one call to the next, and decides neither when a vertex is run nor what becomes of its value. It is the one
// place that lends trees to an executor.
//
// Its central definitions are those of `plans`: the request of a command on the trees of its inputs (`request_of`), in which each
// bind has what is under its source in the tree of its own input, and what an operation gives (`result_of`).
//
// ```
// let ran = vertex_result(alloc, plan.sources(), &executor, &vertex.op, &[&root], &[])?;   // ran.value is Ok(tree), or Err(F1)
// ```
#![tactic(auto)]

mod files;
mod patterns;
mod requests;
mod results;

pub use files::{settle_file, settle_merge};
pub use requests::request_of;
pub use results::{Ran, vertex_result};
