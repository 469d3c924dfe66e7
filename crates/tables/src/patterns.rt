// `patterns`: a pattern, the paths that it relates to, and paths that it doesn't, or `!` where it is malformed; between tabs. A line that begins
// with `#` is a heading. A part of a pattern may be repeated, as `repeating` has it.
//
// `ignore files`: the lines of an ignore file, with `|` between them, the paths that it keeps, and those that it doesn't, or `!` and the number of its
// first bad line; between tabs. Carriage returns, tabs, byte order marks and bytes are shown as in the table `pieces`.
//
// Both were written by hand from the rules. A case has its answer in it: of all its paths the answer says anew where each belongs, so the case and its answer
// are the same text.

use crate::files::piece_bytes;
use crate::repeating::spread;
use ascii::split_at_blanks;
use globs::Glob;
use ignorefile::Ignore;
use paths::Path;
use plain::{Fault, Memory};
use std::alloc::Global;

/// Paths that a pattern relates to, or an ignore file keeps, and those that it doesn't, with a space between each two.
#[derive(Drop)]
struct Sorted {
    yes: String,
    no: String,
}

impl Sorted {
    fn new(alloc: Global) -> Sorted {
        Sorted {
            yes: String::new(alloc),
            no: String::new(alloc),
        }
    }

    fn push(&mut self, path: &str, is_yes: bool) -> Result<(), Memory> {
        push_path(if is_yes { &mut self.yes } else { &mut self.no }, path)
    }

    fn text(&self, alloc: Global, subject: &str) -> Result<String, Memory> {
        Ok(format!(in alloc; "{subject}\t{}\t{}", self.yes, self.no)?)
    }
}

fn push_path(paths: &mut String, path: &str) -> Result<(), Memory> {
    if !paths.is_empty() {
        paths.push_str(" ")?;
    }
    Ok(paths.push_str(path)?)
}

/// The subject of a case, and its paths.
fn fields(case: &str) -> (&str, &str) {
    case.split_once('\t').unwrap_or((case, ""))
}

/// The paths of a case, of whichever field.
fn paths_of(alloc: Global, fields: &str) -> Result<String, Memory> {
    Ok(fields.replace(alloc, "\t", " ")?)
}

fn path_of(alloc: Global, text: &str) -> Result<Path, Memory> {
    match Path::read(alloc, text, &Path::root(alloc)) {
        Ok(path) => Ok(path),
        Err(_) => Err(Memory),
    }
}

pub fn answer_of_pattern(alloc: Global, case: &str) -> Result<String, Memory> {
    if case.starts_with('#') {
        return Ok(String::from_str(alloc, case)?);
    }
    let (pattern, rest) = fields(case);
    let bytes = spread(alloc, pattern)?;
    match Glob::read(alloc, str::from_utf8(&bytes).unwrap_or("")) {
        Ok(glob) => {
            let mut sorted = Sorted::new(alloc);
            let done = sort_by_pattern(alloc, &mut sorted, &glob, rest);
            drop(glob);
            sorted_text(alloc, sorted, done, pattern)
        }
        Err(Fault::Because(_)) => Ok(format!(in alloc; "{pattern}\t!")?),
        Err(Fault::Memory) => Err(Memory),
    }
}

fn sort_by_pattern(
    alloc: Global,
    sorted: &mut Sorted,
    glob: &Glob,
    rest: &str,
) -> Result<(), Memory> {
    let paths = paths_of(alloc, rest)?;
    for path in split_at_blanks(alloc, paths.as_str())?.as_slice() {
        sorted.push(path, is_related(alloc, glob, path)?)?;
    }
    Ok(())
}

fn is_related(alloc: Global, glob: &Glob, path: &str) -> Result<bool, Memory> {
    Ok(glob.matches(&path_of(alloc, path)?))
}

pub fn answer_of_ignore_file(alloc: Global, case: &str) -> Result<String, Memory> {
    let (lines, rest) = fields(case);
    let file = piece_bytes(alloc, lines.replace(alloc, "|", "\n")?.as_str())?;
    match Ignore::read(alloc, &file) {
        Ok(ignore) => {
            let mut sorted = Sorted::new(alloc);
            let done = sort_by_ignore_file(alloc, &mut sorted, &ignore, rest);
            drop(ignore);
            sorted_text(alloc, sorted, done, lines)
        }
        Err(Fault::Because(bad)) => Ok(format!(in alloc; "{lines}\t!{}", bad.number)?),
        Err(Fault::Memory) => Err(Memory),
    }
}

fn sort_by_ignore_file(
    alloc: Global,
    sorted: &mut Sorted,
    ignore: &Ignore,
    rest: &str,
) -> Result<(), Memory> {
    let paths = paths_of(alloc, rest)?;
    for path in split_at_blanks(alloc, paths.as_str())?.as_slice() {
        sorted.push(path, is_kept(alloc, ignore, path)?)?;
    }
    Ok(())
}

fn is_kept(alloc: Global, ignore: &Ignore, path: &str) -> Result<bool, Memory> {
    Ok(ignore.keeps(&path_of(alloc, path)?))
}

/// The answer to a case, once its paths are sorted.
fn sorted_text(
    alloc: Global,
    sorted: Sorted,
    done: Result<(), Memory>,
    subject: &str,
) -> Result<String, Memory> {
    let text = sorted.text(alloc, subject);
    drop(sorted);
    match done {
        Ok(()) => text,
        Err(memory) => {
            drop(text);
            Err(memory)
        }
    }
}
