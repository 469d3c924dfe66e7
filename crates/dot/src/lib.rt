// A plan's graph as a drawing, in the DOT language of Graphviz.
//
// Each operation is a node with the instruction that it stands for and the lines of all instructions that it does; those of a stage are in a
// cluster. Edges go from inputs to what uses them. It lays nothing out: that is the business of Graphviz's `dot`. It makes no plan smaller.
//
// The central definition is `drawing` in specs/Drawn.antt, over the statements of that file; `shown_byte` in specs/Quoted.antt says how a text is
// quoted.
//
// ```
// let text = write(alloc, &plan, titles)?;    // digraph dfsolve {
//                                             //   v0 [label="scratch\lline 1\l" shape=ellipse];
//                                             //   v1 [label="[2/2] RUN make\lline 2\l" shape=box peripheries=2];
//                                             //   v0 -> v1;
//                                             // }
// ```
#![tactic(auto)]

mod caches;
mod edges;
mod labels;
pub mod laws;
mod nodes;
mod quoted;
mod stages;
mod writing;

pub use writing::write;
