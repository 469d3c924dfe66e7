// Values of numbered things, each in a cell that takes no lock; and where a value may stand.
//
// A row of cells (`Row`) has one for each number. Who has found the value of a thing puts it into the cell of the thing's number (`Row::keep`). What stands there
// then is what counts, whoever put it there first: a cell is filled once, and its value stays where it is for as long as the row is lent. It starts no thread,
// waits for nobody and doesn't know what the values are.
//
// Of what stands in a cell no more is known than its type says. So the type says that it is a value of the thing whose number it has (`Found`, `Meaning`). A
// `KnownCell` is a cell with what its holder knows of it: that a value stands there, and which.
//
// Who keeps values needn't know whether they stand in cells or in what keeps them itself: both are a `Place`.
//
// ```
// let row = Row::<TreeOrCause, J>::new(alloc, count)?;
// if let Some(known) = row.keep(alloc, number, value)? {
//     let value: &TreeOrCause = known.value();    // for as long as the row is lent
// }
// ```
#![tactic(auto)]

mod found;
mod known;
mod meaning;
mod own;
mod place;
mod row;

pub use found::Found;
pub use known::KnownCell;
pub use meaning::Meaning;
pub use place::Place;
pub use row::Row;
