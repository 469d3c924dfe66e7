// The logical lines of a Dockerfile, each with its heredocs, from a text that is fed in pieces.
//
// It knows lines and no instructions: the crates above say what a line's words mean. Of an instruction's name it asks only whether it is
// RUN or COPY, which alone have heredocs. It reads no file and keeps no comments.
//
// The central definition is `AreLines` in specs/Text.antt, and specs/File.antt says what a file is: directives at the top, then blocks,
// each of them a line that is dropped or a logical line with the bodies of its heredocs. Each list of lines has such a structure, and by
// it just one list of logical lines. `IsRefused` says by which one of its faults a text is refused, and `ReadsText` is both: what
// `Reader::finish` gives, however the text was cut. The files Private*.antt in specs/ serve private functions alone. `laws` says what
// follows.
//
// ```
// let mut reader = Reader::new(alloc);
// reader.feed(alloc, b"RUN a \\\n  b\n")?;
// reader.finish(alloc)?                  // one line: number 1, text "RUN a   b"
// ```
#![tactic(auto)]

mod blanks;
mod blocks;
mod directives;
mod escape;
mod fault;
mod faults;
mod kept;
pub mod laws;
mod line;
mod marks;
mod pieces;
mod reader;
mod scan;
mod state;
mod steps;
mod text;
mod written_mark;

pub use blocks::{goes_on, part_of};
pub use escape::Escape;
pub use fault::LineFault;
pub use line::{Heredoc, Line, Mark};
pub use marks::{is_flag, is_mark};
pub use reader::Reader;
