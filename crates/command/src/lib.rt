// The command line of the program: which task its words ask for.
//
// `read_command` is clap's parse of the words by one fixed command, `whole_command`, and gives the task
// that clap's matches hold. It prints nothing and ends nothing: help, the version and every fault of the
// words are clap's `Error`, which the program prints.
//
// It knows nothing of what a task does. The central definitions are `whole_command`, the words that are
// taken, `IsTaskOf`, what they ask for, and `faults_of`, what is wrong with them.
//
// ```
// match read_command(alloc, ["build"].as_slice()) {
//     Ok(task) => ..,                    // Task::Build, with 4 workers, of standard input
//     Err(error) => error.print(rt)?,
// }
// ```
#![tactic(auto)]

mod commands;
mod llb;
mod reading;
mod task;

pub use reading::read_command;
pub use task::{
    BuildOptions, CheckOptions, Choice, GraphOptions, LlbOptions, MergeName, NetworkName,
    PackOptions, PlatformName, Source, Task, WhyOptions,
};
