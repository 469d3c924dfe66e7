// What BuildKit's operations on files do to trees: a model of its code, with the laws that it gives the trees of a plan.
//
// There is no code here. The definitions are read off BuildKit 0.13, whose code isn't proved. `with_path` in specs/Copying.antt is the copy of one
// path, `copied_by` in specs/Copies.antt is a copy action, and `operation_by` in specs/Actions.antt is a whole operation. Its actions work on the trees
// of its inputs and on those of actions before. Nothing is given where BuildKit fails, nor where a field has a value that `exported` never writes.
//
// How BuildKit finds what a pattern relates to isn't modelled: a `Finder` stands for it, and a law asks that it finds the same (`FindsAlike`). Nor is how
// it runs commands, fetches sources and merges layers: the law over a whole plan asks that it gives what the plan has (`IsMade` in specs/Engine.antt).
//
// Beside the model stands why `--follow` may name so little: `Reads` in specs/Followed.antt is what an operation may look at of its inputs, which lies at
// or below the paths that BuildKit is told of. That BuildKit takes from its folder what lies there isn't modelled.
#![tactic(auto)]

pub mod laws;
