// All faults of a bundle, and how a person or a program reads them.
//
// A build answers one refusal. `check_bundle` lists all of the first phase that has one: the bundle and its ignore file, the Dockerfile's text
// and lines, its instructions, its stages, and the evaluation of those that the target needs. Of the evaluation it lists one fault for each stage: the
// lines after one that is refused have no values to be judged by, nor has a stage that begins with one that is refused. It runs nothing, so it doesn't
// tell whether a build would fail.
//
// `shown_faults` shows faults, each with the lines that it is about, to a person or as lines of JSON. It is given the faults and their text, whose lines it
// lists first, so that each is found at once. `check` does both, and shows bytes that are no bundle with where they are wrong, which `flaws` finds.
//
// What is said of a fault, `meant` finds. If the lines of its instruction tell which of their words it is about, which `pointed` finds, the line of that word
// is shown, for a person with a mark under it, and else all lines of the instruction.
//
// `shown_failure` shows an instruction that a build failed at in the same form. Of a COPY that misses a source `shown_missing` names it, and
// `shown_left_out` the line of the ignore file that leaves it out.
//
// The central definitions are `AreFaultsOf` in specs/Checks.antt, `shown_faults` in specs/Shown.antt, `IsCheckOf` in specs/Checked.antt, and
// `shown_failure` in specs/Failing.antt.
//
// ```
// let checked = check(alloc, keys, &rt, "Dockerfile", bytes, Form::Plain)?; // of a bundle with the Dockerfile FROM scratch\nRUNN make
// // Dockerfile:2:1: R04: there is no such instruction here; did you mean RUN?
// //     2 | RUNN make
// //       | ^^^^
// //       | use FROM, ARG, ENV, ..
// ```
#![tactic(auto)]

mod checked;
mod checking;
mod failing;
mod form;
mod images;
pub mod laws;
mod layout;
mod mark;
mod showing;
mod visible;

pub use checked::{Checked, check};
pub use checking::{Findings, check_bundle};
pub use failing::{shown_failure, shown_left_out, shown_missing};
pub use form::Form;
pub use showing::shown_faults;
