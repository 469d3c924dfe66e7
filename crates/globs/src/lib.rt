// Patterns of paths, as COPY and ignore files have them: how a text is read as one, and which paths it relates to.
//
// A pattern is cut into components as a path is, and each component is compared with one name: `*` takes any run of characters, `?` and
// a class one character. It knows no tree and no file system, and no pattern is handed to an engine for regular expressions: a component
// costs at most its length times the name's, and comparing takes no memory.
//
// Its central definition is `Relates` (specs/Glob.antt), on whole texts, over `CanBeCut` (specs/Cut.antt).
//
// ```
// let glob = Glob::read(alloc, "src/*.[ch]")?;
// glob.matches(&path)                          // true for /src/main.c
// ```
#![tactic(auto)]

mod component;
mod cut;
mod cutting;
mod fault;
mod glob;
pub mod laws;
mod part;
mod reading;
mod sign;
mod text;

pub use component::{Component, is_spelled_out};
pub use cut::{Fits, can_be_cut};
pub use cutting::cut_components;
pub use fault::{GlobFault, Malformed};
pub use glob::Glob;
pub use part::{Part, Range};
