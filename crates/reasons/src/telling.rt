ghost use Rattle.std.specs.Prelude.{◌≡◌, Some, Ok, IfOk};
ghost use Rattle.std.specs.String.{string_bytes};
ghost use Rattle.ignorefile.specs.File.{ignore_of};
ghost use Rattle.reasons.specs.Reasons.{verdict, undecided, no_path, numbered, decided, TellsLine, IsReason, AreReasons, TellsReasons};
ghost use Rattle.reasons.specs.PrivateReasons.{IsCut, IsKnownLine, IsLineAt, TellsNames};

use crate::cutting::cut_lines;
use borrowed::FromLentKeyed;
use bundle::{IgnoreFile, read_ignore_file};
use ignorefile::line_numbers;
use paths::Path;
use plain::{Bytes, Fault, Memory, Refusal, Text};
use std::alloc::Global;
use std::hash::RandomState;
use std::thread::Threads;

/// What is told first of a path that a line decides, which is an exception or not.
fn verdict(exception: bool) -> &'static str
    ensures { result.now ≡ verdict exception }
{
    if exception { "kept" } else { "left out" }
}

/// What is told of a path that no line decides.
fn undecided(alloc: Global, word: &str) -> Result<Bytes, Memory>
    ensures { IfOk result (λ told. told ≡ undecided word.now) }
{
    let told = format!(in alloc; "kept\t{word}")?;
    Ok(Bytes::from_vec(told.into_bytes()))
}

/// What is told of a text that is no path.
fn no_path(alloc: Global, word: &str) -> Result<Bytes, Memory>
    ensures { IfOk result (λ told. told ≡ no_path word.now) }
{
    let told = format!(in alloc; "bad path\t{word}")?;
    Ok(Bytes::from_vec(told.into_bytes()))
}

/// What is told first, the path, and the number of a line.
fn numbered(alloc: Global, verdict: &str, word: &str, number: usize) -> Result<String, Memory>
    ensures { IfOk result (λ told. string_bytes told ≡ numbered verdict.now word.now number) }
{
    Ok(format!(in alloc; "{verdict}\t{word}\t.dockerignore:{number}:")?)
}

/// What is told of a path that a line decides.
fn decided(
    alloc: Global,
    exception: bool,
    word: &str,
    number: usize,
    text: &[u8],
) -> Result<Bytes, Memory>
    ensures { IfOk result (λ told. told ≡ decided exception word.now number text.now) }
{
    let front = numbered(alloc, verdict(exception), word, number)?;
    let mut told = front.into_bytes();
    told.extend_from_slice(text)?;
    Ok(Bytes::from_vec(told))
}

/// That the line at a position has a number, and the line of that number a text.
pub(crate) fn known_line(
    file: &IgnoreFile,
    numbers: &[usize],
    texts: &[&[u8]],
    position: usize,
    exception: bool,
)
    requires cut { IsCut file.now numbers.now texts.now }
    requires line { IsLineAt file.now position exception }
    ensures { IsKnownLine file.now numbers.now texts.now position exception }
{
    ignorefile::laws::a_line_stands_at_its_number();
}

/// What is told of a path that the line at a position decides.
fn tell_line(
    alloc: Global,
    file: &IgnoreFile,
    numbers: &[usize],
    texts: &[&[u8]],
    word: &str,
    position: usize,
    exception: bool,
) -> Result<Bytes, Memory>
    requires cut { IsCut file.now numbers.now texts.now }
    requires line { IsLineAt file.now position exception }
    ensures { IfOk result (λ told. TellsLine file.now word.now (Some position) told) }
{
    known_line(file, numbers, texts, position, exception);
    let number = numbers[position];
    decided(
        alloc,
        exception,
        word,
        number,
        texts[number.saturating_sub(1)],
    )
}

/// What is told of a path by the line that decides, if one does.
fn tell_path(
    alloc: Global,
    file: &IgnoreFile,
    numbers: &[usize],
    texts: &[&[u8]],
    word: &str,
    path: &Path,
) -> Result<Bytes, Memory>
    requires { IsCut file.now numbers.now texts.now }
    ensures { IfOk result (λ told. TellsNames file.now word.now path.now told) }
{
    match file.lines.deciding(path) {
        None => undecided(alloc, word),
        Some(position) => {
            let kept = file.lines.keeps(path);
            tell_line(alloc, file, numbers, texts, word, position, kept)
        }
    }
}

/// What is told of a word.
fn tell(
    alloc: Global,
    file: &IgnoreFile,
    numbers: &[usize],
    texts: &[&[u8]],
    word: &str,
) -> Result<Bytes, Memory>
    requires { IsCut file.now numbers.now texts.now }
    ensures { IfOk result (λ told. IsReason file.now word.now told) }
{
    let root = Path::root(alloc);
    match Path::read(alloc, word, &root) {
        Ok(path) => tell_path(alloc, file, numbers, texts, word, &path),
        Err(Fault::Because(_)) => no_path(alloc, word),
        Err(Fault::Memory) => Err(Memory),
    }
}

/// What is told of some words.
fn tell_all(
    alloc: Global,
    file: &IgnoreFile,
    numbers: &[usize],
    texts: &[&[u8]],
    words: &[Text],
) -> Result<Bytes, Memory>
    requires { IsCut file.now numbers.now texts.now }
    ensures { IfOk result (λ told. AreReasons file.now words.now told) }
{
    let mut told = Vec::new(alloc);
    for word in words {
        let reason = tell(alloc, file, numbers, texts, word.as_str())?;
        told.extend_from_slice(reason.as_slice())?;
        told.push(b'\n')?;
    }
    Ok(Bytes::from_vec(told))
}

/// What is told of some words by an ignore file. Its lines are cut once for all of them.
fn reasons_by(alloc: Global, file: &IgnoreFile, words: &[Text]) -> Result<Bytes, Memory>
    requires { ignore_of file.now.bytes ≡ Ok file.now.lines }
    ensures { IfOk result (λ told. AreReasons file.now words.now told) }
{
    let bytes = file.bytes.as_slice();
    let numbers = line_numbers(alloc, bytes)?;
    let texts = cut_lines(alloc, bytes)?;
    tell_all(alloc, file, numbers.as_slice(), texts.as_slice(), words)
}

/// For each of these words whether it is kept in a bundle's context, and which line of the ignore file decided: a line for each, in their
/// order, as FORMATS describes it. A word is read as a path from the context's root, as the sources of a COPY are; whether something stands
/// there doesn't matter. Nothing is filtered: it takes the reading of the bundle, and for each word what `Ignore::deciding` takes.
///
/// The refusals are those of `bundle::read_bundle`: R20 where the bytes are no bundle, else R19 with the first bad line of its ignore file.
pub fn reasons<C: FromLentKeyed>(
    alloc: Global,
    keys: RandomState,
    rt: &(impl Threads + Sync),
    bundle: &[u8],
    words: &[Text],
) -> Result<Bytes, Fault<Refusal>>
    ensures { TellsReasons C.reading bundle.now words.now result }
{
    match read_ignore_file::<C>(alloc, keys, rt, bundle) {
        Ok(file) => Ok(reasons_by(alloc, &file, words)?),
        Err(fault) => Err(fault),
    }
}
