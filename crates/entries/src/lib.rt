// Lists of a tree's entries as JSON: how they are read, and how they are written.
//
// An entry is an object with a path, a mode and an owner; a file has its bytes, as a text or in hexadecimal, and a directory says that it
// is one. A list is a tree's where no two of its rows clash (`is_listing`), and it is the list of one tree (`tree_of`). Reading is strict, of
// JSON that is lent (`borrowed`), or token by token. Of a list that is wanted only for its tree nothing else is kept (`ListedTree`). What a
// list is for, as a build's context or an image, is said by the crates that have it.
//
// ```
// let listing = Listing::from_lent(alloc, &value)?;      // of [{"path":"/a","text":"hi"}]
// let tree = listing.into_tree(alloc)?;                  // the root, 0755, and /a, 0644
// ```
#![tactic(auto)]

mod apart;
mod digits;
mod fingerprint;
mod front;
mod growing_tree;
pub mod laws;
mod listed_tree;
mod listing;
mod making;
mod pieces;
mod printing;
mod pulling;
mod reading;
mod sought;
mod spelled;
mod taking;
mod together;
mod writing;

pub use listed_tree::ListedTree;
pub use listing::Listing;
pub use reading::read_content;
pub use together::{Unsaid, put_tree};
pub use writing::tree_to_json;
