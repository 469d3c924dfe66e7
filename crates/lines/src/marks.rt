ghost use Rattle.std.specs.Prelude.{◌≡◌, [], map, option_map, IsTrue, IfOk};
ghost use Rattle.lines.specs.Marks.{is_quoted_by, named, mark_from, after_two, mark_dashed, mark_of, is_mark, is_flag, after_flags, marks_among, has_heredocs, marks_in};
ghost use Rattle.lines.specs.Marks.{marks_of};
ghost use Rattle.lines.specs.PrivateMarks.{mark_written};

use crate::Mark;
use crate::blanks::{ends_with, starts_with};
use crate::text::text_of;
use crate::written_mark::WrittenMark;
use ascii::{is_name, split_at_blanks};
use memchr::memchr;
use plain::{Items, Memory, Text};
use std::alloc::Global;

/// Whether a text is in a pair of these quotes.
fn is_quoted_by(quote: u8, text: &[u8]) -> bool
    ensures { result ≡ is_quoted_by quote text.now }
{
    text.len() >= 2 && starts_with(text, quote) && ends_with(text, quote)
}

/// The mark of a name, where it is one.
fn named(strips: bool, quoted: bool, name: &[u8]) -> Option<WrittenMark<'_>>
    ensures { option_map mark_written result ≡ named strips quoted name.entry.now }
{
    if !is_name(name) {
        return None;
    }
    Some(WrittenMark {
        name,
        quoted,
        strips,
    })
}

/// The mark of what follows `<<` or `<<-`.
fn mark_from(strips: bool, text: &[u8]) -> Option<WrittenMark<'_>>
    ensures { option_map mark_written result ≡ mark_from strips text.entry.now }
{
    if is_quoted_by(b'"', text) || is_quoted_by(b'\'', text) {
        let inner = &text[1..];
        return named(strips, true, &inner[..text.len() - 2]);
    }
    named(strips, false, text)
}

/// What follows the `<<` with which a piece begins.
fn after_two(piece: &[u8]) -> Option<&[u8]>
    ensures { option_map (λ rest. rest.now) result ≡ after_two piece.now }
{
    match piece {
        [b'<', b'<', rest @ ..] => Some(rest),
        _ => None,
    }
}

/// The mark of what follows `<<`.
fn mark_dashed(rest: &[u8]) -> Option<WrittenMark<'_>>
    ensures { option_map mark_written result ≡ mark_dashed rest.entry.now }
{
    if starts_with(rest, b'-') {
        return mark_from(true, &rest[1..]);
    }
    mark_from(false, rest)
}

/// The mark that a piece is, as `<<-"EOF"`.
fn written_mark(piece: &str) -> Option<WrittenMark<'_>>
    ensures { option_map mark_written result ≡ mark_of piece.entry.now }
{
    match after_two(piece.as_bytes()) {
        Some(rest) => mark_dashed(rest),
        None => None,
    }
}

/// Whether a word is the mark of a heredoc: the whole word is `<<NAME` or `<<-NAME`, where the name may be in a pair of single or
/// double quotes (Dockerfile reference, here-documents; the form of the name: own).
#[tactic(auto, unfolding(crate::specs::Marks::is_mark))]
pub fn is_mark(word: &str) -> bool
    ensures { result ≡ is_mark word.now }
{
    written_mark(word).is_some()
}

/// A copy of a mark, which owns its name.
fn copy_mark(alloc: Global, written: WrittenMark<'_>) -> Result<Mark, Memory>
    ensures { IfOk result (λ mark. mark ≡ mark_written written.entry) }
{
    let name = Text::from_str(alloc, text_of(written.name))?;
    Ok(Mark {
        name,
        quoted: written.quoted,
        strips: written.strips,
    })
}

/// Whether a text begins with two dashes, as a flag does (Dockerfile reference, as `RUN --mount`; that `--` alone is one: own).
pub fn is_flag(text: &str) -> bool
    ensures { result ≡ is_flag text.now }
{
    matches!(text.as_bytes(), [b'-', b'-', ..])
}

/// The pieces after the leading flags.
fn after_flags<'a>(pieces: &'a [&'a str]) -> &'a [&'a str]
    ensures { map (λ piece. piece.now) result.now ≡ after_flags (map (λ piece. piece.now) pieces.now) }
{
    for (index, piece) in pieces.iter().enumerate() {
        if !is_flag(piece) {
            return &pieces[index..];
        }
    }
    &[]
}

/// The marks among the pieces after the flags.
fn marks_among(alloc: Global, pieces: &[&str]) -> Result<Items<Mark>, Memory>
    ensures { IfOk result (λ marks. marks ≡ marks_among (map (λ piece. piece.now) pieces.now)) }
{
    let mut marks = Items::new(alloc);
    if let [first, ..] = pieces {
        if starts_with(first.as_bytes(), b'[') {
            return Ok(marks);
        }
    }
    for piece in pieces {
        if let Some(written) = written_mark(piece) {
            marks.push(copy_mark(alloc, written)?)?;
        }
    }
    Ok(marks)
}

/// Whether an instruction of this name has heredocs: RUN and COPY do, in any case of letters.
fn has_heredocs(name: &str) -> bool
    ensures { result ≡ has_heredocs name.now }
{
    name.eq_ignore_ascii_case("run") || name.eq_ignore_ascii_case("copy")
}

/// The marks among the pieces of an instruction.
fn marks_in(alloc: Global, pieces: &[&str]) -> Result<Items<Mark>, Memory>
    ensures { IfOk result (λ marks. marks ≡ marks_in (map (λ piece. piece.now) pieces.now)) }
{
    if let [name, rest @ ..] = pieces {
        if has_heredocs(name) {
            return marks_among(alloc, after_flags(rest));
        }
    }
    Ok(Items::new(alloc))
}

/// Whether a text is known to have no mark, since it has no `<`. Few lines have one.
pub fn is_unmarked(text: &str) -> bool
    ensures { IsTrue result → marks_of text.now ≡ [] }
{
    memchr(b'<', text.as_bytes()).is_none()
}

/// The marks of a logical line's heredocs, in order.
pub fn marks_of(alloc: Global, text: &str) -> Result<Items<Mark>, Memory>
    ensures { IfOk result (λ marks. marks ≡ marks_of text.now) }
{
    if is_unmarked(text) {
        return Ok(Items::new(alloc));
    }
    let pieces = split_at_blanks(alloc, text)?;
    marks_in(alloc, pieces.as_slice())
}
