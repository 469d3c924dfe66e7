// A plan solved by several workers, each in a thread of its own.
//
// Each worker claims a vertex under the lock of the board's site, runs it without the lock, and settles it under the lock. One that finds nothing to claim
// sleeps. When no claim is out and nothing is to be claimed, or where memory is wanting, the workers leave, the site is closed, and the caller's
// thread goes on with the board as `solver::solve_problem` does. So the contract of `solve` is that of `solve_here`, and it is proved by `solver::finish`
// over whatever board the workers leave: which of them ran what, and in which order, stands in no definition.
//
// Nothing says that a call with threads returns, nor that workers run at the same time. That they do is shown by tests.
//
// ```
// let answer = solve(alloc, rt, &plan, &executor, 4, &OpenGate, &mut caches, &mut memo)?;
// ```
#![tactic(auto)]

mod leftover;
mod solving;
mod working;

pub use leftover::Leftover;
pub use solving::{solve, solve_keeping, solve_together};
