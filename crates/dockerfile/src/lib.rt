// The instructions of a Dockerfile: what its whole text spells.
//
// It joins the logical lines of a text (`lines`) with what each of them spells (`instructions`), and knows nothing of stages, names and
// values.
//
// The central definition is `IsRead` in specs/Dockerfile.antt: a text has a list of instructions, one for each logical line, or it is
// refused, and never both (`laws`). What each such list keeps is `IsDockerfile`, in the same file.
//
// ```
// let file = Dockerfile::read(alloc, b"FROM scratch\nRUN a\n")?;
// file.instructions().len()              // 2
// let again = Dockerfile::from_vec(file.into_instructions().into_vec());   // the same file
// ```
#![tactic(auto)]

mod checking;
mod dockerfile;
pub mod laws;
mod order;
mod reading;

pub use dockerfile::Dockerfile;
