// Which source a COPY misses that fails because one isn't there (`F1`).
//
// It looks at the rows of a file and at the trees that are there before a build, and runs nothing. The trees of stages aren't there any more if a build has
// failed, so of a COPY from a stage the source is known only if it is the only one. It knows no Dockerfile and no ignore file.
//
// The central definition is `missed_source` in specs/Missing.antt. A tree lacks a source if a COPY of it alone out of this tree fails by `F1`.
//
// ```
// let missed = missed_source(alloc, &evaluated.sources, evaluated.rows.as_slice(), 4, Cause::F1)?; // of COPY src dist/app.js /srv/ on line 4: dist/app.js
// ```
#![tactic(auto)]

pub mod laws;
mod missing;

pub use missing::{Missed, missed_source};
