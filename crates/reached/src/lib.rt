// The vertices of a graph that a target reaches: as the graph stands, and once the merges in it are spelled out.
//
// It marks vertices and puts them on other inputs; it makes no graph and no plan of them.
//
// The central definitions are `AreReached` in specs/Reached.antt and `spelled_out` in specs/Spelled.antt.
//
// ```
// let marks = mark_reached(alloc, vertices, target)?;              // true at the target, at its inputs, at theirs ..
// let flat = flatten_reached(alloc, owned_vertices, target)?;      // the same, with each merge that stands first in a merge replaced by its inputs
// ```
#![tactic(auto)]

mod marks;
mod spelling;

pub use marks::mark_reached;
pub use spelling::{Flattened, flat_inputs, flatten_reached, is_merge};
