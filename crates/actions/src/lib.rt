// What a RUN and a COPY do where they stand in a stage: the actions that they are, with all their texts evaluated, or why they are
// refused there.
//
// It knows no stage, no image and no file: where trees come from it is handed as origins, and what ENV, ARG, WORKDIR, USER and SHELL have
// set so far as `Surroundings`. Nothing is looked for in a tree.
//
// The central definitions are `run_action` and `run_due` in specs/Run.antt, and `copy_action`, `copy_due` and `copy_fault` in specs/Copy.antt:
// by cases of what the line says, the action that it is, the codes that are due for it, and what is against its texts. All tests are made on
// one line before the least code is reported, so it doesn't matter in which order they are made. An action for which no code is due is well
// formed (`laws`).
//
// ```
// copy_action(alloc, sources, destination, flags, origin, &at)?      // of `COPY $x /d/` where x is f: /d/f of the origin's /f
// ```
#![tactic(auto)]

mod copy;
pub mod laws;
mod mounts;
mod run;
mod sources;
mod surroundings;
mod texts;

pub use copy::copy_action;
pub use run::run_action;
pub use surroundings::Surroundings;
