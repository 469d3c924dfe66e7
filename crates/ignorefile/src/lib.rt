// Ignore files: which of a context's paths the lines of a `.dockerignore` keep.
//
// The last line that relates to a path, or to a folder that it lies in, decides. It knows patterns of single names from `globs` and adds
// `**`; it knows no tree. Lines that end in a plain name, as most do, are found by that name, those that end in a plain beginning and a `*`
// by its first byte, those with a plain name before their last one by the folder's name, and others without `**` by how many names their
// paths have: few are tried one after another. What the lines decide of a folder is handed down to the paths in it, and of the lines that
// are tried one after another only those are tried there which the folder's names leave, most of them by a name's last byte alone.
//
// Its central definitions are `ignore_of` (specs/File.antt), what the bytes of a file say, and `Kept` (specs/Kept.antt).
//
// ```
// let ignore = Ignore::read(alloc, b"*.md\n!README.md\n")?;
// ignore.keeps(&path)                          // true for /README.md, false for /a.md
// ignore.deciding(&path)                      // Some(1) for /README.md, Some(0) for /a.md: positions in line_numbers of the bytes
// ```
#![tactic(auto)]

mod fault;
mod file;
mod ignore;
mod index;
pub mod laws;
mod line;
mod positions;
mod walk;

pub use fault::{BadLine, IgnoreFault};
pub use file::line_numbers;
pub use ignore::Ignore;
pub use line::{Line, Segment};
pub use walk::{Decided, FolderLines};
