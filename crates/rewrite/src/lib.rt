// Plans made smaller: what their targets don't need goes, merges that stand first in merges are put into one, and what the plans mean stays.
//
// It knows no file and no line of one: the laws say what a pruned plan of a file means.
//
// ```
// let plan = lower_program(alloc, rows, 1, config, sources)?;   // stages 0 and 1, and 1 doesn't name 0
// let plan = prune(alloc, plan)?;                               // the vertices of stage 1 alone
// let plan = flatten_links(alloc, plan)?;                       // its COPY --link one after another as one merge
// let plan = shrink(alloc, plan)?;                              // both, as far as nothing is made twice for it
// ```
#![tactic(auto)]

mod joining;
pub mod laws;
mod links;
mod pruning;
mod shrinking;
mod spelled;

pub use links::{flatten_links, is_flat};
pub use pruning::prune;
pub use shrinking::shrink;
