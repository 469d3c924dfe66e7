// What a Dockerfile's stages mean, and the plan that means the same.
//
// A file comes as rows of plain data, one for each stage: what the stage begins with, and its instructions that give a tree, with all
// their texts evaluated and all their names resolved. `lower_program` makes one graph of all rows. Equal operations on equal inputs are
// one vertex, whichever lines they stand on, and the vertex has the lines of all of them.
//
// Its central definition is `stage_tree` (specs/Meaning.antt), what a stage's instructions give one after another; it knows no graph.
// Beside it stands `serial`, the first failure of a file in its order.
//
// ```
// let plan = lower_program(alloc, rows, 1, config, sources)?;   // the second stage is the target
// let graph = plan.graph();                                     // the vertices of both stages
// ```
#![tactic(auto)]

mod adding;
pub mod laws;
mod program;
mod steps;

pub use program::lower_program;
