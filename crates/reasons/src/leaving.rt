// The line of an ignore file that leaves a path out, for what is said of one path beside other things.
ghost use Rattle.std.specs.Prelude.{◌≡◌, Some, Ok, IfOk};
ghost use Rattle.ignorefile.specs.File.{ignore_of};
ghost use Rattle.reasons.specs.Leaving.{leaving, LeavesBy, LeavesLine, IsLeaving, LeavesWord};
ghost use Rattle.reasons.specs.PrivateReasons.{IsCut, IsLineAt};

use crate::cutting::cut_lines;
use crate::telling::known_line;
use borrowed::FromLentKeyed;
use bundle::{IgnoreFile, read_ignore_file};
use ignorefile::line_numbers;
use paths::Path;
use plain::{Bytes, Fault, Memory, Refusal};
use std::alloc::Global;
use std::hash::RandomState;
use std::thread::Threads;

/// A line of an ignore file that leaves a path out.
#[derive(Drop)]
pub struct LeavingLine {
    /// Its number in the file, counted from 1.
    pub number: usize,
    /// Its text, without what ends it.
    pub text: Bytes,
}

/// A line that decides of a path, if it is no exception.
fn leaving(
    alloc: Global,
    exception: bool,
    number: usize,
    text: &[u8],
) -> Result<Option<LeavingLine>, Memory>
    ensures { IfOk result (λ left. left ≡ leaving exception number text.now) }
{
    if exception {
        return Ok(None);
    }
    let text = Bytes::from_slice(alloc, text)?;
    Ok(Some(LeavingLine { number, text }))
}

/// The line at a position, which decides of a path, if it is no exception.
fn leaving_at(
    alloc: Global,
    file: &IgnoreFile,
    numbers: &[usize],
    texts: &[&[u8]],
    position: usize,
    exception: bool,
) -> Result<Option<LeavingLine>, Memory>
    requires cut { IsCut file.now numbers.now texts.now }
    requires line { IsLineAt file.now position exception }
    ensures { IfOk result (LeavesLine file.now (Some position)) }
{
    known_line(file, numbers, texts, position, exception);
    let number = numbers[position];
    leaving(alloc, exception, number, texts[number.saturating_sub(1)])
}

/// The line that leaves a path out, where it has this position. The lines of the file are cut for it.
fn leaving_of(
    alloc: Global,
    file: &IgnoreFile,
    position: usize,
    exception: bool,
) -> Result<Option<LeavingLine>, Memory>
    requires read { ignore_of file.now.bytes ≡ Ok file.now.lines }
    requires line { IsLineAt file.now position exception }
    ensures { IfOk result (LeavesLine file.now (Some position)) }
{
    let bytes = file.bytes.as_slice();
    let numbers = line_numbers(alloc, bytes)?;
    let texts = cut_lines(alloc, bytes)?;
    leaving_at(
        alloc,
        file,
        numbers.as_slice(),
        texts.as_slice(),
        position,
        exception,
    )
}

/// The line that leaves a path out, if one does.
fn leaving_path(
    alloc: Global,
    file: &IgnoreFile,
    path: &Path,
) -> Result<Option<LeavingLine>, Memory>
    requires { ignore_of file.now.bytes ≡ Ok file.now.lines }
    ensures { IfOk result (LeavesBy file.now path.now) }
{
    match file.lines.deciding(path) {
        None => Ok(None),
        Some(position) => {
            let kept = file.lines.keeps(path);
            leaving_of(alloc, file, position, kept)
        }
    }
}

/// The line that leaves a word out, if one does.
fn leaving_word(alloc: Global, file: &IgnoreFile, word: &str) -> Result<Option<LeavingLine>, Memory>
    requires { ignore_of file.now.bytes ≡ Ok file.now.lines }
    ensures { IfOk result (IsLeaving file.now word.now) }
{
    let root = Path::root(alloc);
    match Path::read(alloc, word, &root) {
        Ok(path) => leaving_path(alloc, file, &path),
        Err(Fault::Because(_)) => Ok(None),
        Err(Fault::Memory) => Err(Memory),
    }
}

/// The line of a bundle's ignore file that leaves a word out, which is read as `reasons` reads it; none if it is kept, or is no path. What stands in
/// the context doesn't matter.
///
/// The refusals are those of `reasons`.
pub fn leaving_line<C: FromLentKeyed>(
    alloc: Global,
    keys: RandomState,
    rt: &(impl Threads + Sync),
    bundle: &[u8],
    word: &str,
) -> Result<Option<LeavingLine>, Fault<Refusal>>
    ensures { LeavesWord C.reading bundle.now word.now result }
{
    match read_ignore_file::<C>(alloc, keys, rt, bundle) {
        Ok(file) => Ok(leaving_word(alloc, &file, word)?),
        Err(fault) => Err(fault),
    }
}
