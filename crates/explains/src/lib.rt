// What a person is told of a build: which instruction fails and why, or all faults of a bundle that is refused.
//
// It builds the bundle, as `build` does, and shows what came of it in the form of `checks`. It decides nothing of a build: what it tells is said by the
// answer that the build gives. It knows no command line and prints nothing. Of a COPY that misses a source it names the source, if
// `lacking` finds it, and the line of the ignore file that leaves it out.
//
// The central definition is `Explains` in specs/Explained.antt.
//
// ```
// let explained = explain(alloc, keys, &rt, "Dockerfile", bytes, &Fixture, 4)?; // of a bundle with the Dockerfile FROM scratch\nCOPY nope /d
// // Dockerfile:2: F1: a source isn't there: nope
// //     2 | COPY nope /d
// //       | name a file that the context, the stage or the image has
// ```
#![tactic(auto)]

mod explaining;
mod failing;

pub use explaining::{Explained, explain};
