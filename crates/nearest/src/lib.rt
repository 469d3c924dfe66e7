// Which name may have been meant by a word that is none: `biuld` may stand for the stage `build`, and `RUNN` for RUN.
//
// It knows no Dockerfile. How far two texts are apart is what `strsim` says.
//
// The central definition is `nearest` in specs/Nearness.antt.
//
// ```
// nearest(alloc, "biuld", &["deps", "build"])?    // Some("build")
// nearest(alloc, "web", &["deps", "build"])?      // None
// ```
#![tactic(auto)]

pub mod laws;
mod nearness;

pub use nearness::nearest;
