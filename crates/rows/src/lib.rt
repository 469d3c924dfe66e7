// The rows of a file: its stages with all their texts evaluated and all their names resolved, as plain data.
//
// A row is a stage: the line of its FROM, the tree that it begins with, and a step for each instruction that gives a tree. Nothing here
// says what a row means (`lowering` does) or where it comes from. `IsWellFormed` in specs/WellFormed.antt says what rows have to be that are
// lowered.
//
// ```
// Stage { line: 1, base: Origin::Source(Source::Scratch), steps }      // FROM scratch, and what follows
// ```
#![tactic(auto)]

mod row;

pub use row::{Action, Origin, Stage, Step};
