// The text of one operation of a graph, written and read.
//
// An operation is a JSON object that names its inputs by their addresses. Nothing here knows other operations: what an address stands for,
// and which operations make a graph, is the matter of `definition`.
//
// The central definitions are `op_data` in specs/Texts.antt, as what an operation is written, and `spelled_in` in specs/Spelled.antt, what a
// value spells. `laws` says that what is written is read as the operation that it was.
//
// ```
// let value = op_value(alloc, &vertex.op, &inputs)?;      // {"inputs":[],"op":"source","source":"scratch"}
// let Spelled { op, inputs } = read_spelled(alloc, &value)?;
// ```
#![tactic(auto)]

pub mod laws;
mod lists;
mod members;
mod operation;
mod spelled;

pub use operation::op_value;
pub use spelled::{Spelled, inputs_in, read_spelled};
