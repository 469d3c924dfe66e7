// A build, from the bytes of a bundle to the bytes of its answer.
//
// `run_build` reads a bundle, makes its plan, solves it and writes one answer. It knows no command line and prints nothing else.
// The crate is no solver and runs no command: the solver decides whose turn a vertex is, and the executor is the caller's.
//
// `run_graph` writes the plan's graph in place of solving it: `specs/Graph.antt` says which text is that.
//
// The central definitions are in `specs/Meaning.antt`: `Asks`, what a bundle's bytes ask for or why they are refused, and `Answers`, which text
// tells what that gives under an executor. It runs the stages' instructions one after another and knows no graph.
//
// ```
// let mut input = Counted::new(rt.stdin());
// let mut output = Counted::new(rt.stdout());
// let mut memo = Memo::new(alloc, &Fixture);
// let ended = run_build(alloc, keys, &rt, &mut input, &mut output, &Fixture, 4, &OpenGate, &mut memo);
// let code = status_code(ended);
// ```
#![tactic(auto)]

mod asking;
mod building;
mod graphing;
pub mod laws;
mod lowered;
mod planning;
mod remains;
mod showing;
mod telling;
mod titled;

pub use answering::{BuildFault, Status, put_built, status_code};
pub use asking::{Asked, ask};
pub use building::{run_build, run_build_keeping};
pub use graphing::run_graph;
pub use lowered::lower;
pub use planning::plan_of;
pub use remains::Remains;
pub use titled::{Titled, ask_titled};
