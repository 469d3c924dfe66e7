// Which heredoc of a line isn't closed, or isn't allowed there.
ghost use Rattle.std.specs.Prelude.{◌≡◌, codes, filter, map, option_map, IfOk};
ghost use Rattle.std.specs.List.{find, list_any};
ghost use Rattle.ascii.specs.Pieces.{pieces};
ghost use Rattle.lines.specs.Marks.{is_mark};
ghost use Rattle.meant.specs.HeredocFaults.{without, before_quotes, mark_name, closes, is_unclosed, has_from, begins_interpreter, run_cause, first_of, run_fault, last_mark, copy_fault, mark_fault, heredoc_fault};

use crate::sources::value_of;
use crate::word_faults::{FaultyWord, faulty_if, has_byte, last_word};
use ascii::{after_blanks, split_at_blanks};
use lines::is_mark;
use plain::Memory;
use sentences::{Subject, WordCause};
use std::alloc::{AllocError, Global};

/// What follows the `<<` with which a text may begin.
#[tactic(auto, unfolding(crate::specs::HeredocFaults::without))]
fn without_signs(text: &str) -> &str
    ensures { result.now ≡ without (codes "<<") text.now }
{
    match text.strip_prefix("<<") {
        Some(rest) => rest,
        None => text,
    }
}

/// What follows the `-` with which it may begin.
#[tactic(auto, unfolding(crate::specs::HeredocFaults::without))]
fn without_dash(text: &str) -> &str
    ensures { result.now ≡ without (codes "-") text.now }
{
    match text.strip_prefix("-") {
        Some(rest) => rest,
        None => text,
    }
}

/// What follows the `"` with which it may begin.
#[tactic(auto, unfolding(crate::specs::HeredocFaults::without))]
fn without_double(text: &str) -> &str
    ensures { result.now ≡ without (codes "\"") text.now }
{
    match text.strip_prefix("\"") {
        Some(rest) => rest,
        None => text,
    }
}

/// What follows the `'` with which it may begin.
#[tactic(auto, unfolding(crate::specs::HeredocFaults::without))]
fn without_single(text: &str) -> &str
    ensures { result.now ≡ without (codes "'") text.now }
{
    match text.strip_prefix("'") {
        Some(rest) => rest,
        None => text,
    }
}

/// A text up to a quote.
fn before_quotes(text: &str) -> &str
    ensures { result.now ≡ before_quotes text.now }
{
    let (before, _) = text.split_once('"').unwrap_or((text, ""));
    let (before, _) = before.split_once('\'').unwrap_or((before, ""));
    before
}

/// The name in the mark of a heredoc.
fn mark_name(mark: &str) -> &str
    ensures { result.now ≡ mark_name mark.now }
{
    let text = without_dash(without_signs(mark));
    before_quotes(without_single(without_double(text)))
}

/// Whether a line may close the heredoc of this mark.
fn closes(mark: &str, line: &str) -> bool
    ensures { result ≡ closes mark.now line.now }
{
    let name = mark_name(mark);
    if has_byte(mark, b'-') {
        after_blanks(line) == name
    } else {
        line == name
    }
}

/// Whether no line closes it.
fn is_unclosed(below: &[&str], mark: &str) -> bool
    ensures { result ≡ is_unclosed (map (λ line. line.now) below.now) mark.now }
{
    for line in below {
        if closes(mark, *line) {
            return false;
        }
    }
    true
}

/// The first of some marks that no line closes.
fn first_unclosed<'a>(below: &[&str], marks: &[&'a str]) -> Option<&'a str>
    ensures { option_map (λ mark. mark.now) result ≡ find (is_unclosed (map (λ line. line.now) below.now)) (map (λ mark. mark.now) marks.now) }
{
    for mark in marks {
        if is_unclosed(below, *mark) {
            return Some(*mark);
        }
    }
    None
}

/// The marks among pieces.
fn marks_among<'a>(alloc: Global, pieces: &[&'a str]) -> Result<Vec<&'a str>, AllocError>
    ensures { IfOk result (λ marks. map (λ mark. mark.now) marks.items ≡ filter is_mark (map (λ piece. piece.now) pieces.now)) }
{
    let mut marks = Vec::new(alloc);
    for piece in pieces {
        if is_mark(*piece) {
            marks.push(*piece)?;
        }
    }
    Ok(marks)
}

/// Whether a word is the flag `--from` with a value.
fn has_from(word: &str) -> bool
    ensures { result ≡ has_from word.now }
{
    value_of("--from", word).is_some()
}

/// Whether one of the pieces of a text is.
fn have_from(alloc: Global, text: &str) -> Result<bool, Memory>
    ensures { IfOk result (λ have. have ≡ list_any has_from (pieces text.now)) }
{
    let pieces = split_at_blanks(alloc, text)?;
    Ok(any_from(pieces.as_slice()))
}

/// Whether one of these pieces is.
fn any_from(pieces: &[&str]) -> bool
    ensures { result ≡ list_any has_from (map (λ piece. piece.now) pieces.now) }
{
    for piece in pieces {
        if has_from(*piece) {
            return true;
        }
    }
    false
}

/// Whether the first of some lines begins with `#!`.
fn begins_interpreter(lines: &[&str]) -> bool
    ensures { result ≡ begins_interpreter (map (λ line. line.now) lines.now) }
{
    match lines {
        [line, ..] => matches!(after_blanks(*line).as_bytes(), [b'#', b'!', ..]),
        [] => false,
    }
}

/// What is wrong with a heredoc of RUN that is closed, among so many pieces.
fn run_cause(count: usize, below: &[&str]) -> Option<WordCause>
    ensures { result ≡ run_cause count (map (λ line. line.now) below.now) }
{
    if count > 1 {
        return Some(WordCause::BesideHeredoc);
    }
    if begins_interpreter(below) {
        return Some(WordCause::Interpreter);
    }
    None
}

/// The first of some marks.
fn first_of<'a>(marks: &[&'a str]) -> Option<&'a str>
    ensures { option_map (λ mark. mark.now) result ≡ first_of (map (λ mark. mark.now) marks.now) }
{
    match marks {
        [mark, ..] => Some(mark),
        [] => None,
    }
}

/// The mark of a heredoc of RUN that is closed, with what is wrong with it.
fn run_fault(
    alloc: Global,
    pieces: &[&str],
    marks: &[&str],
    below: &[&str],
) -> Result<Option<FaultyWord>, Memory>
    ensures { IfOk result (λ found. found ≡ run_fault (map (λ piece. piece.now) pieces.now) (map (λ mark. mark.now) marks.now) (map (λ line. line.now) below.now)) }
{
    match run_cause(pieces.len(), below) {
        Some(cause) => faulty_if(alloc, cause, first_of(marks)),
        None => Ok(None),
    }
}

/// The last piece, if it is a mark.
fn last_mark<'a>(pieces: &[&'a str]) -> Option<&'a str>
    ensures { option_map (λ mark. mark.now) result ≡ last_mark (map (λ piece. piece.now) pieces.now) }
{
    match last_word(pieces) {
        Some(word) => { if is_mark(word) { Some(word) } else { None } }
        None => None,
    }
}

/// The mark of a heredoc of COPY that is closed, with what is wrong with it.
fn copy_fault(
    alloc: Global,
    text: &str,
    pieces: &[&str],
    marks: &[&str],
) -> Result<Option<FaultyWord>, Memory>
    ensures { IfOk result (λ found. found ≡ copy_fault text.now (map (λ piece. piece.now) pieces.now) (map (λ mark. mark.now) marks.now)) }
{
    if have_from(alloc, text)? {
        return faulty_if(alloc, WordCause::HeredocFrom, first_of(marks));
    }
    faulty_if(alloc, WordCause::HeredocPlace, last_mark(pieces))
}

/// The mark of a heredoc that isn't closed, or isn't allowed there.
fn mark_fault(
    alloc: Global,
    subject: Subject,
    text: &str,
    pieces: &[&str],
    marks: &[&str],
    below: &[&str],
) -> Result<Option<FaultyWord>, Memory>
    ensures { IfOk result (λ found. found ≡ mark_fault subject text.now (map (λ piece. piece.now) pieces.now) (map (λ mark. mark.now) marks.now) (map (λ line. line.now) below.now)) }
{
    if let Some(mark) = first_unclosed(below, marks) {
        return faulty_if(alloc, WordCause::OpenHeredoc, Some(mark));
    }
    match subject {
        Subject::Run => run_fault(alloc, pieces, marks, below),
        Subject::Copy => copy_fault(alloc, text, pieces, marks),
        _ => Ok(None),
    }
}

/// The same, by what follows the flags of an instruction of this text.
pub(crate) fn heredoc_fault(
    alloc: Global,
    subject: Subject,
    text: &str,
    rest: &str,
    below: &[&str],
) -> Result<Option<FaultyWord>, Memory>
    ensures { IfOk result (λ found. found ≡ heredoc_fault subject text.now rest.now (map (λ line. line.now) below.now)) }
{
    let pieces = split_at_blanks(alloc, rest)?;
    let marks = marks_among(alloc, pieces.as_slice())?;
    mark_fault(
        alloc,
        subject,
        text,
        pieces.as_slice(),
        marks.as_slice(),
        below,
    )
}
