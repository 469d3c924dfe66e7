// Samples of what a build works on, for tests: trees of a few files, operations of one line each, and plans of a few vertices.
//
// It is a library of its own since a test crate can't be used by another one: the tests of graphs and of the solver take their plans from
// here, as the tables of `tables` do. What is no test doesn't use it.
//
// ```
// let rows: [Row; 2] = [("scratch", &[], 1), ("run put /a hi", &[0], 2)];
// let plan = plan_of_rows(alloc, &rows, 1, &[])?;                                 // Some(plan)
// ```
#![tactic(auto)]

mod data;
mod graphs;

pub use data::{listing, path, texts, tree};
pub use graphs::{
    Row, add, add_row, bind, cache, command, copy, graph_of, locked, op_of, patterns, plan_of,
    plan_of_rows,
};
