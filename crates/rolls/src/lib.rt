// A roll: what each of several workers did, in order. Each worker has a slip with its own part of it.
//
// Beside a note stand the trees that are lent with it, as the caches of a claim are.
//
// The roll lies under a lock, a slip goes with its worker's thread. Only who has both can write, and each worker has one slip, so what a slip says of its worker
// is what the roll has of it, whatever others wrote since. Both are lists in the proofs alone: at run time a roll is one word, which nobody reads, and a
// slip has no bytes. It waits for nobody.
//
// The central definition is `of_worker` (`specs/Rolls.antt`): what a roll has of one worker. A roll is made without a name (`Opened`). Who needs to know of
// a roll and a slip in different places that they belong together names it by a type (`Room`).
//
// ```
// let (mut roll, mut giver) = Opened::new(alloc)?.named::<J>();
// let mut slip = roll.slip(&mut giver);
// roll.write(&mut slip, Note::Claimed { vertex: 3, at: 0 }, caches);
// roll.agree(&mut slip);                                          // the slip has what the roll has of its worker
// ```
#![tactic(auto)]

mod note;
mod roll;
mod room;
mod rule;

pub use note::{Note, Told};
pub use roll::{Giver, Opened, Roll, Slip};
pub use room::Room;
