// Any list of events, played on a board by one thread: what several workers may do in whatever order, without a thread.
//
// `follow` claims, settles and abandons as the events say, and gives the history that they leave. Its contract is that of the rules over histories (`Plays`,
// crate `board`, `specs/Legal.antt`): each event that is possible when its turn comes happened, and no other.
//
// ```
// let history = follow(alloc, &plan, &executor, &[Event::Claim(0), Event::Claim(1), Event::Settle(1)])?;
// ```
#![tactic(auto)]

mod following;

pub use following::follow;
