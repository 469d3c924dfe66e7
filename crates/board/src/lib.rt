// The board of a job: which vertices are settled, and which workers have which claims out.
//
// Workers take turns on it, each under its number. `claim` gives the ready vertex of least id, with the places of its inputs' trees and the lease of its caches;
// `settle` brings the vertex's value and the trees that go back to its caches; `abandon` gives the vertex up. It runs nothing itself, starts no
// thread and waits for nobody: who has a claim runs its vertex (`solver::run`), and locks the board as it likes.
//
// What may happen is said over histories alone (`specs/Legal.antt`, `Possible`), and the type of `Board` keeps that what it holds is the replay of its
// history (`IsReplay`, `specs/Play.antt`). From these two the laws follow (`src/laws.rt`), for every list of events of any number of
// workers: each settled value is the vertex's value, no vertex is settled twice, no two holds of caches clash, and a board is never stuck. If the target needs
// every vertex and lines are in order, a board on which nothing is left to do has the target's tree or the first failure. For that, a failure stops only the
// vertices of its own line and of later ones. If each settle so far gave back what a run left, so does the history that a call leaves (`specs/Leaving.antt`):
// then each content of a cache is as it was at the start, or what the last settle that gave it back brought, which its vertex's run left of what it was lent.
//
// ```
// let mut board = Board::new(alloc, Job::new(&plan, &executor), CacheStore::new(alloc))?;
// while let Some(claim) = board.claim(alloc, worker)? {
//     let Ran { value, given } = run(alloc, board.job(), &claim)?;
//     board.settle(alloc, claim, value, given)?;
// }
// ```
#![tactic(auto)]

mod board;
mod claim;
mod event;
mod frontier;
mod inputs;
mod job;
pub mod laws;
mod number_set;
mod shelf;
mod state;

pub use board::{Board, NoBoard};
pub use claim::{Claim, ClaimOut, Refused};
pub use event::{Event, Happened};
pub use job::Job;
