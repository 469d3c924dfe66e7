// Telling an answer: one line of bytes is written, and the status that it tells is returned.
//
// A failed or a refused build's line is held whole and written at once (`told.rt`). That of a build that gave a tree may be far larger than memory
// would bear twice, so it is said piece by piece (`built.rt`). Whichever it is, it has the text that `answer_text` gives whole (`text.rt`), and a write
// that failed isn't tried again.
//
// The crate knows no bundle's bytes, no graph and no executor: which answer is due is decided by `build`. How telling ends is `IsTold` in
// specs/Told.antt; the texts are those of `bundle`.
//
// ```
// let ended = tell_failure(alloc, 3, Cause::Exit(7), &mut output);    // {"cause":"exit 7","line":3,"result":"failed"}, and LF
// let code = status_code(ended);                                      // 1, or 3 if that wasn't written whole
// let text = answer_text(alloc, &Ok(Answer::Failed { place: 3, cause: Cause::Exit(7) }))?;    // the same without LF
// ```
#![tactic(auto)]

mod built;
mod code;
mod status;
mod text;
mod told;

pub use built::{put_built, tell_tree};
pub use code::status_code;
pub use status::{BuildFault, Status};
pub use text::answer_text;
pub use told::{Told, line_of, tell_failure, tell_refusal};
