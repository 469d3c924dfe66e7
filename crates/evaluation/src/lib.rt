// The needed stages of a file, evaluated: rows with all texts evaluated and all names resolved, the target's configuration, and the trees
// of the images that are named.
//
// It goes through the table of stages in the order of the file and knows no graph. What each kind of line does is said by the crates
// below: ENV and ARG by `scopes`, what becomes of the configuration by `imageconfig`, RUN and COPY by `actions`.
//
// The central definition is `evaluated` in specs/Evaluated.antt: stages one after another, in each its instructions one after another, each
// under what was set before it, up to the first line that is refused (specs/Refusals.antt). A stage that the target doesn't need is
// left out: nothing of it is evaluated, and nothing is refused.
//
// `list_faults` goes on after a line that is refused, with the stages that don't begin with the refused one, and answers the refusals alone
// (`evaluation_refusals` in specs/Faults.antt).
//
// Heavy values are dropped by name where a function ends early: the prover then meets a call, and doesn't walk the value at each end.
//
// ```
// let made = evaluate(alloc, keys, table, images, context, &args)?;
// made.rows                                    // a row for each stage, `None` for one that isn't needed
// ```
#![tactic(auto)]

mod evaluated;
mod faults;
mod given;
mod instruction;
pub mod laws;
mod names;
mod opening;
mod sources;
mod stage;
mod state;
mod users;
mod walk;

pub use evaluated::{Evaluated, evaluate};
pub use faults::list_faults;
