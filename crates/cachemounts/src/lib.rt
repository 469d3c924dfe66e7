// The caches of RUN --mount=type=cache: what is in them, and who may hold them at once (Dockerfile reference).
//
// A `CacheStore` has, for each cache id, a common content, which shared uses hold together and a locked use holds alone, and private slots. A
// holder takes all its caches at once (`take`), as a `Lease` with copies of their trees, and gives as many trees back (`give`), which are the
// contents from then on, or none (`release`). Nothing here waits: `can_take` says whether uses may begin, and who asks waits as it likes.
//
// The central definitions are `can_take` and `new_holds` (`specs/Holds.antt`) and `holders` and `content_after` (`specs/Changes.antt`), the holds
// and the contents after a history. Each call is one change of that history (`IsAfter`, `specs/Store.antt`).
//
// ```
// if store.can_take(uses) {
//     let lease = store.take(alloc, uses)?;
//     let trees = ..;                               // made of lease.trees()
//     store.give(lease, trees);
// }
// ```
#![tactic(auto)]

mod content;
mod contents;
mod holds;
mod index;
pub mod laws;
mod store;

pub use content::Content;
pub use holds::{Access, Hold};
pub use store::{CacheStore, Lease};
