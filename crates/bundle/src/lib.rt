// The two ends of a build as text: the bundle that it reads, and the answer that it writes.
//
// A bundle is one JSON object with the Dockerfile and all that the build may look at; an answer is one
// line of compact JSON. The crate knows nothing of graphs, executors or workers, and not what an image's configuration is: it is read by
// what the caller names. So the answer of a build that gave a tree is only defined here: `answering` makes its text whole (`answer_text`) or says it
// piece by piece.
//
// The central definitions are `ReadsBundle` in specs/Reading.antt, what the bytes of a bundle give, and `built_text`, `failed_text` and
// `refused_text` in specs/Answer.antt, the texts of the answers.
//
// ```
// let bundle: Bundle<Config> = read_bundle(alloc, keys, rt, bytes)?;    // of {"dockerfile":{"text":"FROM scratch\nRUN true\n"}}
// ```
#![tactic(auto)]

mod answering;
mod digest;
mod filtering;
pub mod laws;
mod parts;
mod pulling;
mod whole;

pub use answering::{failed_answer, refused_answer};
pub use digest::read_digest;
pub use filtering::read_with_left_out;
pub use whole::{Bundle, IgnoreFile, read_bundle, read_ignore_bytes, read_ignore_file};
