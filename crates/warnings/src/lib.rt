// What a Dockerfile means here and otherwise in BuildKit, though it isn't refused: warnings of its lines.
//
// It reads a file's lines and the instructions that they spell, and the build arguments. It evaluates nothing and knows
// no image: that a base image asks for what it doesn't get here, who has its configuration has to find. Of a file that
// is refused for its lines or instructions it warns of nothing.
//
// The central definition is `AreWarningsOf` in specs/Warnings.antt: the warnings of a file are just those of its lines,
// in their order. The files beside it say when each kind is due: specs/Escapes.antt, specs/Known.antt and
// specs/Place.antt. What is said of a kind is in specs/Table.antt.
//
// ```
// find_warnings(alloc, keys, b"FROM scratch\nARG TARGETARCH\n", &args)?
// // W04 of line 2, of the word TARGETARCH, if no build argument gives it a value
// ```
#![tactic(auto)]

mod escapes;
mod finding;
mod known;
pub mod laws;
mod place;
mod table;
mod warning;

pub use finding::find_warnings;
pub use warning::{Warning, WarningKind};
