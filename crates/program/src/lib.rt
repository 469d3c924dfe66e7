// What the program does, whole: the words of a command line, a reader and two writers in, an exit status out.
//
// It is no `main`: it opens nothing and knows no system. `dfsolve` joins it to standard input, output and error, and hands it the keys of the hash by which
// names are found, or says that there are none (`end_without_keys`). It decides nothing of
// a bundle either: `command` reads the words, and `build`, `packing`, `reasons`, `exported`, `checks` and `explains` do the work.
//
// Its central definition is `Runs` in specs/Runs.antt: for every end of every command what is written where, and the status.
//
// ```
// run_program(alloc, keys, &rt, &rt, Ok(["build"].as_slice()), &mut input, &mut output, &mut errors, &Fixture)    // 0, 1, 2 or 3
// ```
#![tactic(auto)]

mod arguments;
mod bundles;
mod checking;
mod config;
mod ending;
mod explaining;
mod exporting;
mod fault;
mod input;
pub mod laws;
mod picturing;
mod running;
mod saying;
mod telling;
mod told;
mod why;

pub use arguments::{NotText, WordsFault};
pub use ending::end_without_keys;
pub use running::run_program;
