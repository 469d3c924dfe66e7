// A board that several workers share, each in a thread of its own: the lock, and a seat for each worker.
//
// A `Site` has a board under a lock. A worker locks it, claims a vertex (`Held::claim`), lets the lock go, runs the vertex, puts the result into the vertex's cell
// (`Desk::keep`), and locks again to settle or abandon (`Held::settle`, `Held::abandon`). Each of these does what the call of the board of the same name does, for the worker of the `Seat` that it
// is lent, in the state that it finds. `Site::close` ends it all and gives the board back. It starts no thread and runs nothing.
//
// A value under a lock is known by its type alone: whoever locks it knows nothing of what others did before. So the type says what has to be known: which
// problem the board solves, and whether each settle gives back what a run left (`Case`); and that what a seat says of its worker is what the board has of it
// (`IsSeatOf`, `specs/Seats.antt`), for which board and seat are tied by a roll (crate `rolls`, `Room`). A case that promises nothing asks of a settle what the
// board's own asks. A site may be made of a board on which much has happened: a seat's tally has what was settled since.
//
// ```
// let results = Results::<J>::new(alloc, job.graph().len())?;
// let mut site = Site::<E, J>::new(board, &results, Opened::new(alloc)?);
// let mut seat = site.seat(alloc);
// let claimed = site.lock(rt).claim(alloc, &mut seat)?;
// if let Some(claim) = claimed {
//     let Ran { value, given } = run(alloc, job, &claim)?;           // without the lock
//     if let Some(known) = site.desk().keep(alloc, job, &claim, value)? {
//         site.lock(rt).settle(alloc, &mut seat, claim, known, given)?;
//     }
// }
// let board = site.close(&mut [seat]);
// ```
#![tactic(auto)]

mod case;
mod held;
mod seat;
mod site;
mod values;

pub use case::Case;
pub use held::Held;
pub use seat::Seat;
pub use site::{Desk, Site};
pub use values::{Known, Results, Values};
