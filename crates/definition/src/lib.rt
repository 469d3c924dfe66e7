// The definition of a build: the text of its graph, written and read.
//
// Each operation names its inputs by their addresses, and an address is the SHA-256 of an operation's own text. So a text says the same of a
// graph wherever it stands. From version 2 on, an operation also says the lines of the Dockerfile that it comes from; they are no part of its
// own text, and its address stays. Nothing here knows trees, files or runs.
//
// The central definitions are `IsWritten` in specs/Definition.antt and `IsReadAs` in specs/Reading.antt, what a text is read as, by cases on
// what was answered. One operation's text is the matter of `operations`.
//
// ```
// let text = write(alloc, &plan)?;     // {"ops":[{"inputs":[],"op":"source","places":[1],"source":"scratch"},..],"version":2}
// let (graph, target) = read(alloc, text.as_str())?;
// ```
#![tactic(auto)]

mod fault;
mod known;
pub mod laws;
mod lines;
mod reading;
mod writing;

pub use fault::{DefFault, Defect};
pub use reading::read;
pub use writing::write;
