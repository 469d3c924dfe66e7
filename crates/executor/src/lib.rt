// What runs a command of a build, and the executor that this program has.
//
// The trait `Executor` says what an answer to a request may depend on: the executor and the request, never what a cache
// holds. It says nothing of how a command runs. `Fixture` is an executor of a few commands of its own that works on trees
// alone: no process is started and no file of the machine is touched. Its central definition is `fixture_out`
// (specs/Fixture.antt): the commands of the request's words, one after another, each on the tree that the last one left.
//
// ```
// let outcome = Fixture.run(alloc, &request, &mut caches)?;   // Done(tree) or Exit(status)
// ```
#![tactic(auto)]

mod command;
mod edit;
mod executor;
mod fixture;
pub mod laws;
mod number;
mod place;
mod script;
mod sight;
mod stop;

pub use executor::Executor;
pub use fixture::Fixture;
pub use runs::{RunOutcome as Outcome, RunRequest as Request};
