// Why paths of a context are kept or left out: the line of the ignore file that decided of each.
//
// It reads a bundle as a build does, and filters nothing: each path that is asked for is decided by itself, and need not be in the context.
// A folder that is left out stands in the context all the same if something in it is kept. The crate prints nothing and knows no command line.
//
// The central definition is `AreReasons` in specs/Reasons.antt: the text for the bytes of an ignore file and some paths. `leaving_line` answers the line
// alone that leaves a path out (specs/Leaving.antt).
//
// ```
// let text = reasons::<Config>(alloc, keys, rt, bundle, &paths)?;    // left out    a/x.o    .dockerignore:2:*.o
// ```
#![tactic(auto)]

mod cutting;
mod leaving;
mod telling;

pub use leaving::{LeavingLine, leaving_line};
pub use telling::reasons;
