// Absolute, clean paths, and how a text is read as one against a base.
//
// A path is the list of its components, each of them text, within two limits. It knows no file system: it has no links,
// and `..` is gone once a text is read. It isn't `std::path`, whose paths may be relative, unclean and of any length.
//
// Its central definition is `read_from` (specs/Reading.antt): where the pieces of a text between its slashes lead from the
// base. `laws` says what follows: a path's text reads back to it, and the clean form is the only one of its kind.
//
// ```
// let work = Path::read(alloc, "/srv/app", &Path::root(alloc))?;
// let data = work.join(alloc, "../data/./x//y")?;
// data.text(alloc)?.as_str()                     // /srv/data/x/y
// ```
#![tactic(auto)]

mod fault;
pub mod laws;
mod long;
mod name;
mod path;
mod pieces;
mod reading;
mod spelled;

pub use fault::{PathFault, PathLimit};
pub use long::LongPath;
pub use name::Name;
pub use path::Path;
