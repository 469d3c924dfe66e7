// Values by names, in the order in which the names came first.
//
// A Dockerfile and an image's file choose their names freely, and may have hundreds of thousands. So a name is found by a hash whose keys the program draws
// at random before it reads anything: with keys that are known, names could be chosen that all meet in one place, and each would be compared with all before
// it. The keys are handed to what makes an empty list, and by a list to its copies. Contracts don't see them, so no answer depends on them.
//
// `NamedRows<V>` is such a list, which contracts see as its rows. A set of names is one whose values are `Present`. Nothing is taken out of it. What a row
// means is said by the crates that use it. The central definition is `put_row`.
//
// ```
// let mut rows = NamedRows::new(alloc, keys);
// rows.set(Text::from_str(alloc, "b")?, 1u8)?;
// rows.set(Text::from_str(alloc, "a")?, 2u8)?;
// rows.set(Text::from_str(alloc, "b")?, 3u8)?;
// rows.as_slice()                        // b with 3, and then a with 2
// ```
#![tactic(auto)]

mod present;
mod rows;

pub use present::Present;
pub use rows::NamedRows;
