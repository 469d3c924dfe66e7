// A plan's graph as text, with its links put into one and without what its target doesn't need.
//
// It knows no file and no bundle: `rewrite` says how a plan is made smaller, `definition` how a graph is written.
//
// The central definition is `IsDrawn` in specs/Drawn.antt: the text is read as a graph all of whose operations are reached from its result, in
// which no merge is the first input of a merge, and under every executor the result is worth what the plan's target is. It says behind each
// operation the lines that the plan has behind it, those of all that became one with it.
//
// ```
// let text = draw(alloc, plan)?;   // {"ops":[{"inputs":[],"op":"source","places":[1],"source":"scratch"},..],"version":2}
// ```
#![tactic(auto)]

mod drawing;
mod fault;

pub use drawing::draw;
pub use fault::{Clash, DrawFault};
