// The solver of a plan: it runs the vertices that are ready, each on the trees of its inputs, until none is. Then the target has a tree, or a vertex fails.
//
// Whose turn a vertex is, the board decides; what its value is, `vertexrun` does. Here are the run of a claim (`run`) and the sweep of one worker: claim, run,
// settle, until no vertex is ready. It starts no thread, takes no lock and always returns. It also runs vertices that the target
// doesn't need, so who makes a plan leaves those out.
//
// The central definitions are `IsSolution` (`specs/Solution.antt`), over a problem: the tree that is the target's value, or the failure of least line that was settled; and
// `IsAnswer` (`specs/Answer.antt`), a solution with the plan's configuration. A plan with a vertex that fails and that the target doesn't need may have
// answers of both kinds; one whose target needs every vertex has not (`laws::answers_agree`). If the lines of such a plan are in order, its answers name
// one line, the first of all that fail (`laws::failures_name_the_first_line`).
//
// ```
// let mut caches = CacheStore::new(alloc);
// match solve_here(alloc, &plan, &executor, &mut caches)? {
//     Answer::Built(tree, config) => ..,
//     Answer::Failed { place, cause } => ..,
// }
// ```
#![tactic(auto)]

mod answer;
mod finding;
mod gate;
pub mod laws;
mod numbering;
mod recall;
mod recalling;
mod remembering;
mod running;
mod solution;
mod sweep;

pub use answer::Answer;
pub use finding::{Finding, Findings, FindingsOf};
pub use gate::{Gate, OpenGate};
pub use numbering::Numbering;
pub use recall::Recall;
pub use recalling::{Recalling, run_recalled};
pub use remembering::remember;
pub use running::{run, run_gated};
pub use solution::Solution;
pub use sweep::{finish, finish_recalled, solve_here, solve_problem};
