ghost use Rattle.std.specs.Prelude.{◌≡◌, ◌≢◌, ◌<◌, ℕ, List, [], ◌∷◌, IfOk, MatchOption, length, map};
ghost use Rattle.std.specs.Str.Lines.{lines, strip_carriage_return};
ghost use Rattle.ignorefile.specs.PrivateFile.{AreRead};
ghost use Rattle.ignorefile.specs.File.{without_byte_order_mark, segment_of, segments_of, pattern_of, body_of, is_comment, line_of, ignore_of, is_line, numbers_of};

use crate::line::{Line, Segment};
use crate::{BadLine, IgnoreFault};
use ascii::{after_blanks, trimmed};
use globs::{Component, cut_components};
use plain::{Fault, Items, Memory};
use std::alloc::Global;
use std::str;

/// Bytes without a leading byte order mark.
fn without_byte_order_mark(bytes: &[u8]) -> &[u8]
    ensures { result.now ≡ without_byte_order_mark bytes.now }
{
    match bytes {
        [0xEF, 0xBB, 0xBF, rest @ ..] => rest,
        _ => bytes,
    }
}

/// A line that ended by LF, without the CR right before that.
fn without_carriage_return(line: &[u8]) -> &[u8]
    ensures { result.now ≡ strip_carriage_return line.now }
{
    match line {
        [front @ .., b'\r'] => front,
        _ => line,
    }
}

/// The first line of these bytes, and what stands behind its LF; none where there is no line.
fn first_line(bytes: &[u8]) -> Option<(&[u8], &[u8])>
    ensures { MatchOption result (lines bytes.now ≡ []) (λ found. (lines bytes.now ≡ found.0.now ∷ lines found.1.now) × (length found.1.now < length bytes.now)) }
{
    for (at, byte) in bytes.iter().enumerate() {
        if *byte == b'\n' {
            return Some((without_carriage_return(&bytes[..at]), &bytes[at + 1..]));
        }
    }
    match bytes {
        [] => None,
        [_, ..] => Some((bytes, &[])),
    }
}

/// The segment that a component spells; none where it is malformed.
fn read_segment(alloc: Global, text: &str) -> Result<Option<Segment>, Memory>
    ensures { IfOk result (λ found. found ≡ segment_of text.now) }
{
    if text == "**" {
        return Ok(Some(Segment::Deep));
    }
    match Component::read(alloc, text)? {
        Some(component) => Ok(Some(Segment::Named(component))),
        None => Ok(None),
    }
}

/// The segments that components spell; none where one of them is malformed.
fn read_segments(alloc: Global, texts: &[&str]) -> Result<Option<Items<Segment>>, Memory>
    ensures { IfOk result (λ found. found ≡ segments_of (map (λ text. text.now) texts.now)) }
{
    let mut segments = Vec::with_capacity(alloc, texts.len())?;
    for text in texts {
        match read_segment(alloc, text)? {
            Some(segment) => segments.push(segment)?,
            None => return Ok(None),
        }
    }
    Ok(Some(Items::from_vec(segments)))
}

/// What a pattern's text says: a line, or nothing where it has no component; none where it is malformed.
fn read_pattern(alloc: Global, exception: bool, text: &str) -> Result<Option<Option<Line>>, Memory>
    ensures { IfOk result (λ found. found ≡ pattern_of exception text.now) }
{
    let texts = cut_components(alloc, text)?;
    match read_segments(alloc, texts.as_slice())? {
        Some(segments) => {
            if segments.is_empty() {
                return Ok(Some(None));
            }
            Ok(Some(Some(Line {
                exception,
                segments,
            })))
        }
        None => Ok(None),
    }
}

/// What stands behind the `!` that a text begins with; none where it begins with none.
fn behind_mark(text: &str) -> Option<&str>
    ensures { MatchOption result ((rest : List ℕ) → text.now ≢ 33 ∷ rest) (λ rest. text.now ≡ 33 ∷ rest.now) }
{
    text.strip_prefix('!')
}

/// What a line says that is no comment and has no blanks at its ends; none where it is bad.
fn read_body(alloc: Global, text: &str) -> Result<Option<Option<Line>>, Memory>
    ensures { IfOk result (λ found. found ≡ body_of text.now) }
{
    if text.is_empty() {
        return Ok(Some(None));
    }
    match behind_mark(text) {
        Some(rest) => {
            let rest = after_blanks(rest);
            if rest.is_empty() {
                return Ok(None);
            }
            read_pattern(alloc, true, rest)
        }
        None => read_pattern(alloc, false, text),
    }
}

/// Whether a line is a comment.
fn is_comment(bytes: &[u8]) -> bool
    ensures { result ≡ is_comment bytes.now }
{
    matches!(bytes, [b'#', ..])
}

/// What a line's bytes say: a line, or nothing; none where they are bad.
fn read_line(alloc: Global, bytes: &[u8]) -> Result<Option<Option<Line>>, Memory>
    ensures { IfOk result (λ found. found ≡ line_of bytes.now) }
{
    match str::from_utf8(bytes) {
        Ok(text) => {
            if is_comment(bytes) {
                return Ok(Some(None));
            }
            read_body(alloc, trimmed(text))
        }
        Err(_) => Ok(None),
    }
}

/// The lines of an ignore file, or its first bad line.
pub(crate) fn read_lines(alloc: Global, bytes: &[u8]) -> Result<Vec<Line>, IgnoreFault>
    ensures { AreRead (ignore_of bytes.now) result }
{
    let mut found = Vec::new(alloc);
    let mut number = 0;
    let mut left = without_byte_order_mark(bytes);
    while let Some((line, rest)) = first_line(left) {
        number += 1;
        match read_line(alloc, line)? {
            None => return Err(Fault::Because(BadLine { number })),
            Some(None) => {}
            Some(Some(line)) => found.push(line)?,
        }
        left = rest;
    }
    Ok(found)
}

/// Whether a line has a pattern.
fn has_pattern(alloc: Global, bytes: &[u8]) -> Result<bool, Memory>
    ensures { IfOk result (λ has. has ≡ is_line (line_of bytes.now)) }
{
    match read_line(alloc, bytes)? {
        None => Ok(false),
        Some(None) => Ok(false),
        Some(Some(_)) => Ok(true),
    }
}

/// Where the lines of an ignore file stand in its bytes: the numbers, counted from 1, of those that have a pattern, in their order. The
/// line at a position among an `Ignore`'s has the number at that position.
pub fn line_numbers(alloc: Global, bytes: &[u8]) -> Result<Vec<usize>, Memory>
    ensures { IfOk result (λ numbers. numbers.items ≡ numbers_of bytes.now) }
{
    let mut numbers = Vec::new(alloc);
    let mut number = 0;
    let mut left = without_byte_order_mark(bytes);
    while let Some((line, rest)) = first_line(left) {
        number += 1;
        if has_pattern(alloc, line)? {
            numbers.push(number)?;
        }
        left = rest;
    }
    Ok(numbers)
}
