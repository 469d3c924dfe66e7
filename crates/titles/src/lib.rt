// What an engine's progress calls the steps of a file, as `[build 2/5] RUN make`.
//
// It is given a file's logical lines and the stages that they make. It expands no text: a title has the instruction as it is written. It
// knows no graph, so it doesn't say which vertex has a title. Beside titles it tells what else is shown or asked of an instruction by its line: the
// stage in which it stands, and the last line of its text.
//
// The central definition is `titles_of` in specs/Titles.antt; beside it are `stages_of` in specs/Stages.antt and `ends_of` in specs/Ends.antt. The titles are those of BuildKit's own front end, but that variables aren't
// replaced by their values.
//
// ```
// titles_of(alloc, lines, names, stages)?     // FROM alpine AS build; RUN make: None, None, Some("[2/2] RUN make")
// ```
#![tactic(auto)]

mod ends;
pub mod laws;
mod staged;
mod steps;
mod title;
mod titling;

pub use ends::ends_of;
pub use staged::stages_of;
pub use titling::titles_of;
