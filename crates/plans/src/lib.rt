// What a build has to solve, and the value of each of its vertices.
//
// It is no solver: it runs nothing, and knows an executor by its answers alone.
//
// Its central definition is a vertex's value (`specs/Value.antt`): a source's tree, else what the operation gives on the
// trees of its inputs, under any executor. The law that crates above use is `value_is_local`.
//
// ```
// let plan = Plan::new(graph, run, config, Sources::new(alloc, context));
// ```
#![tactic(auto)]

mod images;
pub mod laws;
mod plan;
mod sorted;
mod sources;

pub use images::{Image, Images};
pub use plan::Plan;
pub use sources::Sources;
