// Trees of files, and what the instructions of a Dockerfile do to them.
//
// A tree is, for contracts, a finite map from paths to entries in which the root and all parents are directories (`IsTree` of
// specs/TreeMap.antt); how it is stored can't be seen. One entry is put at a path (`put_into`), a directory is made with its parents
// (`made`), a path is taken away (`removed`), a COPY places its sources (`copied`), and trees are laid over each other (`over`,
// `merged`). Each gives a tree or a cause (`TreeOrCause`). A `Walk` lends all entries with the names on the way to them, one after another, and
// a `Branch` what stands at one path, its children by their names. A `TreeBuilder` takes rows in the order of a walk, one after another.
// The crate knows no patterns: the sources of a COPY are paths.
//
// ```
// let mut tree = Tree::empty(alloc);
// tree.put(alloc, &path, Entry::File(Meta::file(), content))?;      // makes missing parents
// tree.get(&path)                                                   // Some(..)
// ```
#![tactic(auto)]

mod apply;
mod branch;
mod builder;
mod cause;
mod changes;
mod children;
mod content;
mod copy;
mod entry;
mod few;
mod folder;
mod growing;
mod inner;
mod kids;
mod landing;
pub mod laws;
mod lent_entry;
mod lent_kids;
mod lent_node;
mod meta;
mod names;
mod node;
mod part;
mod placing;
mod put;
mod slab;
mod spine;
mod tree;
mod walk;

pub use branch::{Branch, Branches};
pub use builder::TreeBuilder;
pub use cause::{Cause, TreeFault, TreeOrCause};
pub use content::Content;
pub use copy::{CopyOptions, Source};
pub use entry::Entry;
pub use lent_entry::LentEntry;
pub use meta::Meta;
pub use slab::Slab;
pub use tree::Tree;
pub use walk::Walk;
