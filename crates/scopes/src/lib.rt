// What names have values in a stage: the scope that its ENV and ARG lines make, and the environment of its RUNs.
//
// It reads no line and knows no stage: a line comes as what the crate `instructions` read of it, and the crates above choose
// the lines of a scope, and the scope before the first FROM.
//
// The central definitions are in specs/Scope.antt: `value_in`, the value that a list of ENV and ARG declarations gives a name;
// `run_env`, RUN's environment by them; and `kept`, the list that a scope holds, with each name once. What is kept gives each name
// the value that all declarations so far give it, and does so after any further lines too (`laws`): so the contract of a call on a line
// says which declarations the line adds, and what is kept then.
//
// A line adds nothing if one of its texts is too long, or is refused since a variable is required: the call says why
// (`ExpandFault`, of the crate `expand`). Tests are in `tables`.
//
// ```
// scope.declare(alloc, arguments, &args, &outer)?;   // ARG abc=default, with the build arguments and the scope before the first FROM
// scope.set_env(alloc, assignments)?;                // ENV abc=hello
// scope.get(&name)                                   // of abc: hello
// scope.run_env(alloc)?                              // abc=hello
// ```
#![tactic(auto)]

mod args;
mod declaration;
mod evaluate;
pub mod laws;
mod maps;
mod scope;

pub use args::Args;
pub use declaration::Declaration;
pub use scope::Scope;
