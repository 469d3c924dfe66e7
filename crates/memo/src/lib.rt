// What earlier runs gave, kept from one build to the next.
//
// It knows one executor, and of it operations with the trees that they were given and the tree that they gave. Sources and failures aren't kept. It runs
// nothing, and doesn't know plans or builds.
//
// The central definition is `IsLawful` (`specs/Memo.antt`): an operation gives this tree on these trees under the executor, whatever the sources of a build
// are. The type of `Memo` keeps it of all that it holds, so what is found serves every plan. Equality of the operation and of the trees decides what is found;
// a hash of the operation narrows the search.
//
// To compare trees is to walk them. So the trees that a memo keeps have numbers: who knows the numbers of trees asks by these (`Memo::find_kept`), and then
// nothing is walked. The number of a source's tree is found by the source (`Memo::source_number`), that of another one among those that an operation was
// given (`Memo::input_number`).
//
// ```
// let mut memo = Memo::new(alloc, &executor);
// let inputs = [root];
// memo.add(alloc, &vertex.op, &[&inputs[0]], &tree)?;
// match memo.find(&vertex.op, &inputs) {         // the tree, also in a later build
//     Some(tree) => ..,
//     None => ..,
// }
// memo.forget(alloc);                            // what was added before the last such call goes
// ```
#![tactic(auto)]

mod content;
mod generation;
mod hit;
mod index;
mod key;
mod memo;
mod number;
mod sought;
mod step;
mod written;

pub use hit::Hit;
pub use memo::Memo;
pub use number::{Age, TreeNumber};
