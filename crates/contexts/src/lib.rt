// Contexts: the tree of a build's own folder, filtered by its ignore file.
//
// A context is made of the list of the folder's entries and an ignore file. It has the entries that the file keeps, the root, and the
// directories on the way to a kept entry; what is on the way to none is left out. It knows no bundle and no disk.
//
// Its central definition is `IsContext` (specs/Context.antt), entry by entry.
//
// ```
// let context = Context::build(alloc, rt, rows, ignore)?;
// context.tree().get(&path)
// ```
#![tactic(auto)]

mod context;
mod flags;
pub mod laws;
mod left;
mod places;

pub use context::Context;
pub use left::left_out;
